//! Auditors of a stream of rows: one of this test's own, and those of the program, called as the reader of a stream calls them. The
//! wanted texts were worked out by hand.
ghost use Rattle.std.specs.Prelude.{⊤};

use bep_cut_document::read_cut;
use bep_explain::{explain_firm_under_winners, explain_under_winners};
use bep_json::DocVersion;
use bep_lines::Form;
use bep_row::{NameRow, cut_of, row_fits};
use bep_row_document::read_row;
use bep_rows_answer::{Aim, Auditor, RowsOutcome, UnderWinners, answer_rows};
use bep_rows_explain::Explaining;
use bep_tables::Cut;
use bep_tree::Scratch;
use std::alloc::{AllocError, Global};

const HEADER: &str =
    r#"{"version":1,"cut":{"folders":[{"folder":"docs","devices":[{"device":1,"kind":"send-receive","index_id":1,"max":3},{"device":2,"kind":"send-receive","index_id":2,"max":3}]}]}}"#;

// Device 2 has no record of `b`, and no file.
const B: &str =
    r#"["docs","b",[{"name":"b","type":1,"modified_s":9,"modified_by":1,"version":[[1,1]],"sequence":2}],[{"name":"b","type":1,"modified_s":9}],[[1,1,1,0,[]]]]"#;

// Both devices have the directory `e`, by versions of which neither is above the other; the record of device 2 is later.
const E: &str =
    r#"["docs","e",[{"name":"e","type":1,"modified_s":8,"modified_by":1,"version":[[1,1]],"sequence":3},{"name":"e","type":1,"modified_s":9,"modified_by":2,"version":[[2,1]],"sequence":3}],[{"name":"e","type":1,"modified_s":9}],[[1,1,1,0,[]],[2,2,1,0,[]]]]"#;

const B_MISSING: &str =
    "RecordMissing docs b on 2\n  winner: device 1, version [[1,1]], directory, time 9 s 0 ns\n  record of 2: none\n  store of 2: nothing\nStoreDiffers docs b on 2\n  winner: device 1, version [[1,1]], directory, time 9 s 0 ns\n  record of 2: none\n  store of 2: nothing\n";

const E_LOOSE: &str =
    "VersionDiffers docs e on 1\n  winner: device 2, version [[2,1]], directory, time 9 s 0 ns\n  record of 1: version [[1,1]], directory, time 8 s 0 ns\n";

// Lists the names of the rows.
#[derive(Drop)]
struct Listing {
    names: usize,
}

impl Auditor for Listing {
    ghost tells = { λ _ _ _ _. ⊤ };

    ghost ends = { λ _ _ _ _ _. ⊤ };

    ghost knows = { λ _ _ _ _. ⊤ };

    fn begin(&mut self, _alloc: Global, _header: &Cut) -> Result<(), AllocError> {
        self.names = 0;
        Ok(())
    }

    fn take(&mut self, alloc: Global, _header: &Cut, row: &NameRow) -> Result<Vec<u8>, AllocError> {
        self.names = self.names.saturating_add(1);
        Vec::from_slice(alloc, row.name.as_str().as_bytes())
    }

    fn end(&self, alloc: Global) -> Result<(RowsOutcome, Vec<u8>), AllocError> {
        let outcome = if self.names == 2 {
            RowsOutcome::Met
        } else {
            RowsOutcome::NotMet
        };
        Ok((outcome, Vec::from_slice(alloc, b".")?))
    }
}

// The bytes of these lines, each with its end.
fn stream(alloc: Global, lines: &[&str]) -> Option<String> {
    let mut text = String::new(alloc);
    for line in lines {
        text.push_str(line).ok()?;
        text.push_str("\n").ok()?;
    }
    Some(text)
}

// Whether the auditor answers the stream of these lines so.
fn is_answered<A: Auditor>(
    alloc: Global,
    auditor: &mut A,
    lines: &[&str],
    outcome: RowsOutcome,
    wanted: &str,
) -> Option<bool> {
    let stream = stream(alloc, lines)?;
    let mut reader = stream.as_bytes();
    let mut text = Vec::new(alloc);
    let told = answer_rows(alloc, auditor, &mut reader, &mut text).ok()?;
    Some(told == outcome && text.as_slice() == wanted.as_bytes())
}

#[test]
fn an_auditor_is_given_the_header_each_row_and_the_end(rt: HostRuntime) {
    let mut listing = Listing { names: 7 };
    assert_eq!(rt;
        is_answered(
            rt.alloc(),
            &mut listing,
            &[HEADER, B, E],
            RowsOutcome::Met,
            "be."
        ),
        Some(true)
    );
    assert_eq!(rt;
        is_answered(
            rt.alloc(),
            &mut listing,
            &[HEADER, E, B],
            RowsOutcome::Refused,
            "eline 3: refused: 185 Twice docs - b\n"
        ),
        Some(true)
    );
}

// The row that this line says beside the header.
fn row_in(alloc: Global, header: &Cut, line: &str) -> Option<NameRow> {
    let mut scratch = Scratch::new(alloc);
    read_row(
        alloc,
        &mut scratch,
        DocVersion::One,
        header,
        &None,
        line.as_bytes(),
    )
    .ok()
}

// The cut that has the name of this row alone.
fn cut_alone(alloc: Global, header: &Cut, row: &NameRow) -> Option<Cut> {
    if !row_fits(header, row) {
        return None;
    }
    cut_of(alloc, header, row).ok()
}

// What is answered to one row, and behind it, where this is asked.
fn told_of(alloc: Global, aim: Aim, line: &str) -> Option<(Vec<u8>, RowsOutcome, Vec<u8>)> {
    let (_, header) = read_cut(alloc, HEADER.as_bytes()).ok()?;
    let row = row_in(alloc, &header, line)?;
    if !row_fits(&header, &row) {
        return None;
    }
    let mut auditor = UnderWinners::of(alloc, aim);
    Auditor::begin(&mut auditor, alloc, &header).ok()?;
    let text = Auditor::take(&mut auditor, alloc, &header, &row).ok()?;
    let (outcome, end) = Auditor::end(&auditor, alloc).ok()?;
    Some((text, outcome, end))
}

#[test]
fn a_name_is_told_and_then_all(rt: HostRuntime) {
    let Some((text, outcome, end)) = told_of(rt.alloc(), Aim::Settled, B) else {
        panic!(rt; "there is an answer");
    };
    assert_eq!(rt; text.as_slice(), "RecordMissing docs b on 2\n".as_bytes());
    assert_eq!(rt; outcome, RowsOutcome::NotMet);
    assert_eq!(rt;
        end.as_slice(),
        "not settled: RecordMissing docs b on 2\nfolder docs: 1 names, 0 deleted, 2 devices\n".as_bytes()
    );
}

// What is explained of the cut that has the name of this row alone, where settled is asked for, and where firm is.
fn explained(alloc: Global, line: &str) -> Option<(Vec<u8>, Vec<u8>)> {
    let (_, header) = read_cut(alloc, HEADER.as_bytes()).ok()?;
    let row = row_in(alloc, &header, line)?;
    let cut = cut_alone(alloc, &header, &row)?;
    let (_, settled) = explain_under_winners(alloc, Form::Text, &cut).ok()?;
    let (_, firm) = explain_firm_under_winners(alloc, Form::Text, &cut).ok()?;
    Some((settled, firm))
}

#[test]
fn a_cut_is_explained_under_the_winners_of_its_names(rt: HostRuntime) {
    let Some((settled, firm)) = explained(rt.alloc(), E) else {
        panic!(rt; "there is an answer");
    };
    assert_eq!(rt; settled.as_slice(), "settled\n".as_bytes());
    assert_eq!(rt; firm.as_slice(), E_LOOSE.as_bytes());
}

#[test]
fn a_name_that_is_explained_is_judged_as_before(rt: HostRuntime) {
    let alloc = rt.alloc();
    let mut wanted = String::new(alloc);
    let pushed = wanted.push_str(B_MISSING).is_ok()
        && wanted
            .push_str(
                "not settled: RecordMissing docs b on 2\nfolder docs: 2 names, 0 deleted, 2 devices\n",
            )
            .is_ok();
    assert_eq!(rt; pushed, true);
    let mut auditor = Explaining::of(alloc, Aim::Settled);
    assert_eq!(rt;
        is_answered(
            alloc,
            &mut auditor,
            &[HEADER, B, E],
            RowsOutcome::NotMet,
            wanted.as_str()
        ),
        Some(true)
    );
}
