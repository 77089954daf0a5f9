//! Calls that no other test makes: with ample memory none answers want of it.
use bep_answer::{
    AuditOfCut, Question, audit_under_winners, certify_cut, exchange, fault_line, refusal,
};
use bep_audit::{Certificate, certify};
use bep_cut_document::{DocVersion, read_cut};
use bep_document::{DocFault, Fault};
use bep_explain::{
    explanation, explanation_json, failures, firm_explanation, firm_explanation_json, loosenings,
};
use bep_play::{played, report_on_cut};
use bep_report::push_certificate_2;
use bep_scenario::read_lazy_scenario;
use bep_tables::Cut;
use std::alloc::Global;

// A directory that device 2 lacks, and pulls.
const CUT: &str = r#"{"version":1,"cut":{"folders":[{"folder":"docs","devices":[
    {"device":1,"kind":"send-receive","index_id":1,"max":1,
    "own":[{"name":"a","type":1,"modified_s":9,"modified_by":1,"version":[[1,1]],"sequence":1}],
    "store":[{"name":"a","type":1,"modified_s":9}]},
    {"device":2,"kind":"send-receive","index_id":2,"max":0,
    "pulls":[{"name":"a","type":1,"modified_s":9,"modified_by":1,"version":[[1,1]],"sequence":1}]}]}]}}"#;

// A scenario whose one step is refused, so that there is a line.
const SCENARIO: &str = r#"{"version":1,"folders":[{"folder":"docs","devices":[
    {"device":1,"kind":"send-receive","index_id":1}]}],"links":[],"steps":[["pull",1,"docs","a"]]}"#;

fn is_answered(alloc: Global) -> bool {
    match Vec::from_slice(alloc, CUT.as_bytes()) {
        Ok(bytes) => Question::answer(AuditOfCut, alloc, bytes).is_ok(),
        Err(_) => false,
    }
}

fn asked(alloc: Global, text: &mut Vec<u8>) -> [bool; 2] {
    let mut reader = CUT.as_bytes();
    [
        is_answered(alloc),
        exchange(alloc, AuditOfCut, &mut reader, text).is_ok(),
    ]
}

fn refused(alloc: Global) -> [bool; 2] {
    let fault = DocFault::nowhere(Fault::Range);
    [
        refusal(alloc, &fault).is_ok(),
        fault_line(alloc, &fault).is_ok(),
    ]
}

fn listed(alloc: Global, cut: &Cut, rows: &Certificate) -> [bool; 3] {
    [
        failures(alloc, cut, rows).is_ok(),
        loosenings(alloc, cut, rows).is_ok(),
        push_certificate_2(&mut Vec::new(alloc), rows).is_ok(),
    ]
}

fn under_winners(alloc: Global, cut: &Cut) -> [bool; 3] {
    [
        certify_cut(alloc, DocVersion::One, cut).is_ok(),
        audit_under_winners(alloc, cut).is_ok(),
        report_on_cut(alloc, DocVersion::One, cut, Vec::new(alloc)).is_ok(),
    ]
}

fn stepped(alloc: Global) -> Option<bool> {
    let scenario = read_lazy_scenario(alloc, SCENARIO.as_bytes()).ok()?;
    Some(played(alloc, scenario).is_ok())
}

fn told(alloc: Global, cut: &Cut, rows: &Certificate) -> Option<[bool; 4]> {
    let found = failures(alloc, cut, rows).ok()?;
    let loose = loosenings(alloc, cut, rows).ok()?;
    let (found, loose, rows) = (found.as_slice(), loose.as_slice(), rows.rows());
    Some([
        explanation(alloc, cut, rows, found).is_ok(),
        firm_explanation(alloc, cut, rows, found, loose).is_ok(),
        explanation_json(alloc, cut, rows, found).is_ok(),
        firm_explanation_json(alloc, cut, rows, found, loose).is_ok(),
    ])
}

fn explained(alloc: Global) -> Option<([bool; 3], [bool; 3], [bool; 4])> {
    let (_, cut) = read_cut(alloc, CUT.as_bytes()).ok()?;
    let rows = certify(alloc, &cut).ok()?;
    Some((
        listed(alloc, &cut, &rows),
        under_winners(alloc, &cut),
        told(alloc, &cut, &rows)?,
    ))
}

#[test]
fn answers_find_memory(rt: HostRuntime) {
    let alloc = rt.alloc();
    let mut text = Vec::new(alloc);
    assert!(rt; asked(alloc, &mut text) == [true; 2]);
    assert!(rt; refused(alloc) == [true; 2]);
    assert!(rt; explained(alloc) == Some(([true; 3], [true; 3], [true; 4])));
    assert!(rt; stepped(alloc) == Some(true));
}
