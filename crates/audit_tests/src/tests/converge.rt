//! All that keeps a cut from converging: each call succeeds with ample memory.
use bep_converge_answer::{push_convergence, push_converging, push_progress};
use bep_converge_check::{ConvergeReason, ConvergeVerdict, Hindrance, hindrances};
use bep_converge_explain::{converge_explanation, converge_explanation_json, explain_convergence};
use bep_cut_document::read_cut;
use bep_document::{DocFault, Fault};
use bep_explain::{
    Lookup, Telling, details_told, fault_in, line_of, lines_of, push_details, write_reason,
};
use bep_lines::Form;
use bep_tables::Cut;
use json::Writer;
use std::alloc::Global;

// A directory that one store alone has.
const CUT: &str = r#"{"version":1,"cut":{"folders":[{"folder":"docs","devices":[
    {"device":1,"kind":"send-receive","index_id":1,"max":0,"store":[{"name":"a","type":1,"modified_s":9}]},
    {"device":2,"kind":"send-receive","index_id":2,"max":0}]}]}}"#;

// The reasons that fail there.
fn reasons(found: &[Hindrance<'_>]) -> Option<[ConvergeReason; 3]> {
    match found {
        [first, second, third] => Some([first.reason, second.reason, third.reason]),
        _ => None,
    }
}

fn explained(alloc: Global, cut: &Cut, found: &[Hindrance<'_>]) -> [bool; 3] {
    [
        explain_convergence(alloc, Form::Text, cut).is_ok(),
        converge_explanation(alloc, cut, found).is_ok(),
        converge_explanation_json(alloc, cut, found).is_ok(),
    ]
}

fn detailed<'a>(alloc: Global, cut: &'a Cut, one: &Hindrance<'a>) -> Option<[bool; 2]> {
    let lookup = Lookup::of(alloc, cut, &[]).ok()?;
    let of = lookup.find(one.spot.folder, one.spot.name);
    let details = details_told(alloc, cut, &of, &one.spot, Telling::Known).ok()?;
    let lines = lines_of(alloc, details.as_slice()).ok()?;
    let mut text = Vec::new(alloc);
    let mut out = Writer::new(Vec::new(alloc));
    Some([
        push_details(&mut text, lines.as_slice()).is_ok(),
        write_reason(alloc, &mut out, "Concurrent", &one.spot, details.as_slice()).is_ok(),
    ])
}

fn found_and_told(alloc: Global) -> Option<([bool; 3], [bool; 2])> {
    let (_, cut) = read_cut(alloc, CUT.as_bytes()).ok()?;
    let found = hindrances(alloc, &cut).ok()?;
    let told = explained(alloc, &cut, found.as_slice());
    let first = found.as_slice().first()?;
    Some((told, detailed(alloc, &cut, first)?))
}

fn written(alloc: Global) -> [bool; 5] {
    let mut text = Vec::new(alloc);
    let out = Writer::new(Vec::new(alloc));
    let fault = DocFault::nowhere(Fault::Range);
    [
        push_converging(&mut text).is_ok(),
        push_convergence(&mut text, &ConvergeVerdict::Converging).is_ok(),
        push_progress(&mut text, &[]).is_ok(),
        line_of(out).is_ok(),
        fault_in(alloc, Form::Json, &fault).is_ok(),
    ]
}

fn fails(alloc: Global) -> Option<[ConvergeReason; 3]> {
    let (_, cut) = read_cut(alloc, CUT.as_bytes()).ok()?;
    let found = hindrances(alloc, &cut).ok()?;
    reasons(found.as_slice())
}

#[test]
fn all_that_fails_is_found_and_told(rt: HostRuntime) {
    let alloc = rt.alloc();
    let reasons = [
        ConvergeReason::NothingPrevails,
        ConvergeReason::StoreUnclean,
        ConvergeReason::StoreDiffers,
    ];
    assert!(rt; fails(alloc) == Some(reasons));
    assert!(rt; found_and_told(alloc) == Some(([true; 3], [true; 2])));
    assert!(rt; written(alloc) == [true; 5]);
}
