//! Streams of rows, and what is written to them. The wanted answers were worked out by hand.
use bep_rows_answer::{Aim, RowsOutcome, rows_text};
use std::alloc::Global;

const HEADER: &str =
    r#"{"version":1,"cut":{"folders":[{"folder":"docs","devices":[{"device":1,"kind":"send-receive","index_id":1,"max":3},{"device":2,"kind":"send-receive","index_id":2,"max":3}]}]}}"#;

// Both devices have the directory `a`, as it is on disk.
const A: &str =
    r#"["docs","a",[{"name":"a","type":1,"modified_s":9,"modified_by":1,"version":[[1,1]],"sequence":1}],[{"name":"a","type":1,"modified_s":9}],[[1,1,1,0,[]],[2,1,1,0,[]]]]"#;

// Device 2 has no record of `b`.
const B: &str =
    r#"["docs","b",[{"name":"b","type":1,"modified_s":9,"modified_by":1,"version":[[1,1]],"sequence":2}],[{"name":"b","type":1,"modified_s":9}],[[1,1,1,0,[]]]]"#;

// No device has a record of `c`, and one has it on disk.
const C: &str = r#"["docs","c",[],[{"name":"c","type":1,"modified_s":9}],[[2,0,1,0,[]]]]"#;

// The record of `d` has a sequence that is above the greatest of device 2.
const D: &str =
    r#"["docs","d",[{"name":"d","type":1,"modified_s":9,"modified_by":1,"version":[[1,1]],"sequence":4}],[],[[2,1,0,0,[]]]]"#;

// Both devices have the directory `e`, by versions of which neither is above the other; the record of device 2 is later.
const E: &str =
    r#"["docs","e",[{"name":"e","type":1,"modified_s":8,"modified_by":1,"version":[[1,1]],"sequence":3},{"name":"e","type":1,"modified_s":9,"modified_by":2,"version":[[2,1]],"sequence":3}],[{"name":"e","type":1,"modified_s":9}],[[1,1,1,0,[]],[2,2,1,0,[]]]]"#;

// These lines, each with its end.
fn stream(alloc: Global, lines: &[&str]) -> Option<String> {
    let mut text = String::new(alloc);
    for line in lines {
        text.push_str(line).ok()?;
        text.push_str("\n").ok()?;
    }
    Some(text)
}

// Whether the stream of these lines has this outcome and this answer, where it is asked whether it is settled.
fn is_answered(alloc: Global, lines: &[&str], outcome: RowsOutcome, wanted: &str) -> Option<bool> {
    is_answered_to(alloc, Aim::Settled, lines, outcome, wanted)
}

// The same where this is asked of it.
fn is_answered_to(
    alloc: Global,
    aim: Aim,
    lines: &[&str],
    outcome: RowsOutcome,
    wanted: &str,
) -> Option<bool> {
    let stream = stream(alloc, lines)?;
    let mut reader = stream.as_bytes();
    let mut text = Vec::new(alloc);
    let told = rows_text(alloc, aim, &mut reader, &mut text).ok()?;
    Some(told == outcome && text.as_slice() == wanted.as_bytes())
}

#[test]
fn streams_are_answered(rt: HostRuntime) {
    let alloc = rt.alloc();
    let settled = "settled\nfolder docs: 1 names, 0 deleted, 2 devices\n";
    assert_eq!(rt;
        is_answered(alloc, &[HEADER, A], RowsOutcome::Met, settled),
        Some(true)
    );
    let none = "settled\nfolder docs: 0 names, 0 deleted, 2 devices\n";
    assert_eq!(rt;
        is_answered(alloc, &[HEADER], RowsOutcome::Met, none),
        Some(true)
    );
}

#[test]
fn names_at_fault_have_a_line_each(rt: HostRuntime) {
    let alloc = rt.alloc();
    let wanted =
        "RecordMissing docs b on 2\nNotWinner docs c\nnot settled: NotWinner docs c\nfolder docs: 3 names, 0 deleted, 2 devices\n";
    assert_eq!(rt;
        is_answered(alloc, &[HEADER, A, B, C], RowsOutcome::NotMet, wanted),
        Some(true)
    );
}

#[test]
fn names_that_are_not_firm_have_a_line_each(rt: HostRuntime) {
    let alloc = rt.alloc();
    let firm = "firm\nfolder docs: 1 names, 0 deleted, 2 devices\n";
    assert_eq!(rt;
        is_answered_to(alloc, Aim::Firm, &[HEADER, A], RowsOutcome::Met, firm),
        Some(true)
    );
    let loose =
        "VersionDiffers docs e on 1\nnot firm: VersionDiffers docs e on 1\nfolder docs: 2 names, 0 deleted, 2 devices\n";
    assert_eq!(rt;
        is_answered_to(
            alloc,
            Aim::Firm,
            &[HEADER, A, E],
            RowsOutcome::NotMet,
            loose
        ),
        Some(true)
    );
    let settled = "settled\nfolder docs: 2 names, 0 deleted, 2 devices\n";
    assert_eq!(rt;
        is_answered(alloc, &[HEADER, A, E], RowsOutcome::Met, settled),
        Some(true)
    );
    let both =
        "RecordMissing docs b on 2\nVersionDiffers docs e on 1\nnot firm: RecordMissing docs b on 2\nfolder docs: 2 names, 0 deleted, 2 devices\n";
    assert_eq!(rt;
        is_answered_to(alloc, Aim::Firm, &[HEADER, B, E], RowsOutcome::NotMet, both),
        Some(true)
    );
    let refused = "VersionDiffers docs e on 1\nline 3: refused: 185 Twice docs - a\n";
    assert_eq!(rt;
        is_answered_to(
            alloc,
            Aim::Firm,
            &[HEADER, E, A],
            RowsOutcome::Refused,
            refused
        ),
        Some(true)
    );
}

#[test]
fn what_was_answered_before_a_refusal_stands(rt: HostRuntime) {
    let alloc = rt.alloc();
    let wanted = "RecordMissing docs b on 2\nline 4: refused: 185 Twice docs - a\n";
    assert_eq!(rt;
        is_answered(alloc, &[HEADER, A, B, A], RowsOutcome::Refused, wanted),
        Some(true)
    );
    let unfit = "line 2: refused: 188 SequenceBad docs 2 d\n";
    assert_eq!(rt;
        is_answered(alloc, &[HEADER, D], RowsOutcome::Refused, unfit),
        Some(true)
    );
    let none = "line 1: refused: 181 NotJson\n";
    assert_eq!(rt;
        is_answered(alloc, &[], RowsOutcome::Refused, none),
        Some(true)
    );
}
