//! A folder `docs` with a directory `a`, whose second version is device 2's: what is certified, told by both checkers, and
//! written. The wanted lines were worked out by hand.
use bep_audit::{Certificate, certify, check, check_plain};
use bep_cut_document::read_cut;
use bep_report::{certificate_text, certificate_text_2, report};
use bep_tables::Cut;
use std::alloc::Global;

const CUT: &str = r#"{"version":1,"cut":{"folders":[{"folder":"docs","devices":[
    {"device":1,"kind":"send-receive","index_id":1,"max":1,
    "own":[{"name":"a","type":1,"modified_s":9,"modified_by":1,"version":[[1,1]],"sequence":1}],
    "store":[{"name":"a","type":1,"modified_s":9}]},
    {"device":2,"kind":"send-receive","index_id":2,"max":1,
    "own":[{"name":"a","type":1,"modified_s":8,"modified_by":2,"version":[[1,1],[2,1]],"sequence":1}],
    "store":[{"name":"a","type":1,"modified_s":8}]}]}]}}"#;

// The report under no rows, and that under the winner's, which follows, and follows again as documents of version 2 have it:
// a directory has no block size.
const LINES: &str = "\
not settled: NameMissing docs a
folder docs: 1 names, 0 deleted, 2 devices
settled
folder docs: 1 names, 0 deleted, 2 devices
docs a 2 1 present 1:1,2:1
docs a 2 1 present 1:1,2:1 0
";

// Whether both checkers tell one verdict, of which the report is written.
fn reported(alloc: Global, cut: &Cut, certificate: &Certificate, text: &mut Vec<u8>) -> bool {
    match check(alloc, cut, certificate) {
        Ok(verdict) => {
            let is_told = verdict == check_plain(cut, certificate);
            is_told && report(alloc, cut, &verdict, text).is_ok()
        }
        Err(_) => false,
    }
}

// Whether the certificate is written, once for each version.
fn written(alloc: Global, certificate: &Certificate, text: &mut Vec<u8>) -> bool {
    certificate_text(alloc, certificate, text).is_ok()
        && certificate_text_2(alloc, certificate, text).is_ok()
}

// The same under a copy of the certificate, which is written too.
fn copied(alloc: Global, cut: &Cut, certificate: &Certificate, text: &mut Vec<u8>) -> bool {
    match certificate.copy(alloc) {
        Ok(copy) => reported(alloc, cut, &copy, text) && written(alloc, &copy, text),
        Err(_) => false,
    }
}

// The same under the certificate of the cut.
fn certified(alloc: Global, cut: &Cut, text: &mut Vec<u8>) -> bool {
    match certify(alloc, cut) {
        Ok(certificate) => copied(alloc, cut, &certificate, text),
        Err(_) => false,
    }
}

// The same under no rows.
fn uncertified(alloc: Global, cut: &Cut, text: &mut Vec<u8>) -> bool {
    let none = Certificate::of(Vec::new(alloc));
    reported(alloc, cut, &none, text)
}

// The same under no rows, and then under the certificate of the cut.
fn told(alloc: Global, text: &mut Vec<u8>) -> bool {
    match read_cut(alloc, CUT.as_bytes()) {
        Ok((_, cut)) => uncertified(alloc, &cut, text) && certified(alloc, &cut, text),
        Err(_) => false,
    }
}

#[test]
fn verdicts_are_reported(rt: HostRuntime) {
    let mut text = Vec::new(rt.alloc());
    assert!(rt; told(rt.alloc(), &mut text));
    assert!(rt; text.as_slice() == LINES.as_bytes());
}
