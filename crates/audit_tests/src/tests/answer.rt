//! What is answered of no folders, by the calls that tell nothing on standard error. What the program answers of all other
//! documents, and where a stream fails, `tests/` shows.
use bep_answer::{Certified, Firmness, Outcome, certify_text, check_text, firm_text};
use bep_explain::explain_text;
use bep_play::run_text;
use bep_report::ReportError;
use std::alloc::Global;

const DOCUMENT: &str = r#"{"version":1,"cut":{"folders":[]},"certificate":[]}"#;

const SCENARIO: &str = r#"{"version":1,"folders":[],"links":[],"steps":[]}"#;

const TEXT: &str = r#"settled
firm
settled
settled
{"certificate":[],"cut":{"folders":[],"links":[]},"version":1}
"#;

type Answer = Result<Outcome, ReportError>;

fn checked(alloc: Global, text: &mut Vec<u8>) -> Answer {
    let mut reader = DOCUMENT.as_bytes();
    check_text(alloc, &mut reader, text)
}

fn firm(alloc: Global, text: &mut Vec<u8>) -> Result<Firmness, ReportError> {
    let mut reader = DOCUMENT.as_bytes();
    firm_text(alloc, &mut reader, text)
}

fn explained(alloc: Global, text: &mut Vec<u8>) -> Answer {
    let mut reader = DOCUMENT.as_bytes();
    explain_text(alloc, &mut reader, text)
}

fn ran(alloc: Global, text: &mut Vec<u8>) -> Answer {
    let mut reader = SCENARIO.as_bytes();
    run_text(alloc, &mut reader, text)
}

fn certified(alloc: Global, text: &mut Vec<u8>) -> Result<Certified, ReportError> {
    let mut reader = DOCUMENT.as_bytes();
    certify_text(alloc, &mut reader, text)
}

#[test]
fn each_answer_is_written(rt: HostRuntime) {
    let alloc = rt.alloc();
    let mut text = Vec::new(alloc);
    assert_eq!(rt; checked(alloc, &mut text), Ok(Outcome::Settled));
    assert_eq!(rt; firm(alloc, &mut text), Ok(Firmness::Firm));
    assert_eq!(rt; explained(alloc, &mut text), Ok(Outcome::Settled));
    assert_eq!(rt; ran(alloc, &mut text), Ok(Outcome::Settled));
    assert_eq!(rt; certified(alloc, &mut text), Ok(Certified::Written));
    assert!(rt; text.as_slice() == TEXT.as_bytes());
}
