//! A folder `docs` with a directory `a` at two devices: firm, and not firm for each of the reasons. The wanted answers were
//! worked out by hand.
use bep_audit::{Certificate, FirmReason, FirmVerdict, certify, firm_verdict};
use bep_cut_document::read_cut;
use bep_tables::Cut;
use std::alloc::{AllocError, Global};

// The pieces of a cut's document, between which stand a record of device 1, one of device 2, what else device 2 has, and the
// links.
const START: &str = r#"{"version":1,"cut":{"folders":[{"folder":"docs","devices":[
    {"device":1,"kind":"send-receive","index_id":1,"max":1,"own":["#;

const MIDDLE: &str = r#"],"store":[{"name":"a","type":1,"modified_s":9}]},
    {"device":2,"kind":"send-receive","index_id":2,"max":1,"own":["#;

const STORE: &str = r#"],"store":[{"name":"a","type":1,"modified_s":9}]"#;

const SHARED: &str = "}]}]";

const END: &str = "}}";

// Records of the directory, of device 1's first version, of its second one, and of a change by device 2 alone.
const FIRST: &str =
    r#"{"name":"a","type":1,"modified_s":9,"modified_by":1,"version":[[1,1]],"sequence":1}"#;

const SECOND: &str =
    r#"{"name":"a","type":1,"modified_s":9,"modified_by":1,"version":[[1,2]],"sequence":1}"#;

const OTHER: &str =
    r#"{"name":"a","type":1,"modified_s":9,"modified_by":2,"version":[[2,1]],"sequence":1}"#;

// Where device 2 has one more record from.
const VIEW: &str = r#","views":[{"of":1,"index_id":1,"max":1,"records":["#;

const PULL: &str = r#","pulls":["#;

const FLIGHT: &str =
    r#","links":[{"a":1,"b":2,"up":true,"epoch":1,"to_b":[{"folder":"docs","full":true,"records":["#;

// What the verdict says, and of which device.
fn told(verdict: &FirmVerdict<'_>) -> (&'static str, u64) {
    match *verdict {
        FirmVerdict::Firm => ("firm", 0),
        FirmVerdict::Unsettled(..) => ("unsettled", 0),
        FirmVerdict::Loose(FirmReason::VersionDiffers, _, _, device) => (
            "version",
            device.number(),
        ),
        FirmVerdict::Loose(FirmReason::ViewNotBelow, _, _, device) => ("view", device.number()),
        FirmVerdict::Loose(FirmReason::FlightNotBelow, _, _, device) => ("flight", device.number()),
        FirmVerdict::Loose(FirmReason::PullNotBelow, _, _, device) => ("pull", device.number()),
    }
}

// The document of these pieces.
fn joined(alloc: Global, pieces: &[&str]) -> Result<String, AllocError> {
    let mut text = String::new(alloc);
    for piece in pieces {
        text.push_str(piece)?;
    }
    Ok(text)
}

// The cut of the document.
fn cut_of(alloc: Global, pieces: &[&str]) -> Option<Cut> {
    let text = joined(alloc, pieces).ok()?;
    let (_, cut) = read_cut(alloc, text.as_bytes()).ok()?;
    Some(cut)
}

// What is told of the cut under its own certificate.
fn answer(alloc: Global, pieces: &[&str]) -> Option<(&'static str, u64)> {
    let cut = cut_of(alloc, pieces)?;
    let certificate = certify(alloc, &cut).ok()?;
    match firm_verdict(alloc, &cut, &certificate) {
        Ok(verdict) => Some(told(&verdict)),
        Err(_) => None,
    }
}

// What is told of it under no rows.
fn uncertified(alloc: Global, pieces: &[&str]) -> Option<(&'static str, u64)> {
    let cut = cut_of(alloc, pieces)?;
    match firm_verdict(alloc, &cut, &Certificate::of(Vec::new(alloc))) {
        Ok(verdict) => Some(told(&verdict)),
        Err(_) => None,
    }
}

#[test]
fn firm_or_not(rt: HostRuntime) {
    let alloc = rt.alloc();
    let same = [START, FIRST, MIDDLE, FIRST, STORE, SHARED, END];
    assert!(rt; answer(alloc, &same) == Some(("firm", 0)));
    assert!(rt; uncertified(alloc, &same) == Some(("unsettled", 0)));
    let concurrent = [START, FIRST, MIDDLE, OTHER, STORE, SHARED, END];
    assert!(rt; answer(alloc, &concurrent) == Some(("version", 2)));
    let viewed = [
        START, FIRST, MIDDLE, FIRST, STORE, VIEW, SECOND, "]}]", SHARED, END,
    ];
    assert!(rt; answer(alloc, &viewed) == Some(("view", 2)));
    let flying = [
        START, FIRST, MIDDLE, FIRST, STORE, SHARED, FLIGHT, SECOND, "]}]}]", END,
    ];
    assert!(rt; answer(alloc, &flying) == Some(("flight", 2)));
    let pulled = [
        START, FIRST, MIDDLE, FIRST, STORE, PULL, SECOND, "]", SHARED, END,
    ];
    assert!(rt; answer(alloc, &pulled) == Some(("pull", 2)));
    let old = [
        START, SECOND, MIDDLE, SECOND, STORE, VIEW, FIRST, "]}]", SHARED, END,
    ];
    assert!(rt; answer(alloc, &old) == Some(("firm", 0)));
}
