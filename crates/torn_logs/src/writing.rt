//! A run cut's logs and their verdict, as a line of JSON.
use bep_fit::{Object, RunVerdict, Stamped};
use bep_machine::Step;
use bep_run_check::ObjectLog;
use bep_run_cut::{RunCut, check_run};
use serde_json::Value;
use std::alloc::{AllocError, Global};
use std::fmt::Write;

/// Appends the line of the run cut.
pub(crate) fn push_line(alloc: Global, text: &mut String, run: &RunCut) -> Result<(), AllocError> {
    text.push_str("{\"logs\":[")?;
    let mut between = "";
    for log in run.logs() {
        text.push_str(between)?;
        push_log(alloc, text, log)?;
        between = ",";
    }
    text.push_str("],\"verdict\":")?;
    push_verdict(text, check_run(run))?;
    text.push_str("}\n")
}

fn push_log(alloc: Global, text: &mut String, log: &ObjectLog) -> Result<(), AllocError> {
    text.push_str("{\"object\":")?;
    push_object(text, log.object())?;
    let round = log.round();
    write!(text, ",\"round\":{round},\"events\":[")?;
    let mut between = "";
    for event in log.events() {
        text.push_str(between)?;
        push_event(alloc, text, event)?;
        between = ",";
    }
    text.push_str("]}")
}

fn push_object(text: &mut String, object: Object) -> Result<(), AllocError> {
    match object {
        Object::Device(device) => {
            let device = device.number();
            write!(text, "[{device}]")
        }
        Object::Link(lower, upper) => {
            let (lower, upper) = (lower.number(), upper.number());
            write!(text, "[{lower},{upper}]")
        }
    }
}

fn push_verdict(text: &mut String, verdict: RunVerdict) -> Result<(), AllocError> {
    match verdict {
        RunVerdict::Fits(count) => write!(text, "{{\"fits\":{count}}}"),
        RunVerdict::Misfit(object, ticket) => {
            text.push_str("{\"misfit\":")?;
            push_object(text, object)?;
            write!(text, ",\"ticket\":{ticket}}}")
        }
    }
}

// The ticket, the step's word with the devices that it names, and all that is told of the event as the compiler shows it.
fn push_event(alloc: Global, text: &mut String, stamped: &Stamped) -> Result<(), AllocError> {
    let (ticket, event) = (stamped.ticket, &stamped.event);
    write!(text, "{{\"ticket\":{ticket},\"step\":[")?;
    push_step(text, &event.step)?;
    let told = Value::from(format!(in alloc; "{event:?}")?);
    write!(text, "],\"told\":{told}}}")
}

fn push_step(text: &mut String, step: &Step) -> Result<(), AllocError> {
    match step {
        Step::Edit(device, _, _, _) => push_words(text, "edit", device.number(), None),
        Step::Remove(device, _, _) => push_words(text, "remove", device.number(), None),
        Step::Scan(device, _, _) => push_words(text, "scan", device.number(), None),
        Step::Override(device, _, _) => push_words(text, "override", device.number(), None),
        Step::Revert(device, _, _) => push_words(text, "revert", device.number(), None),
        Step::Connect(one, other) => push_words(
            text,
            "connect",
            one.number(),
            Some(other.number()),
        ),
        Step::Lose(one, other) => push_words(text, "lose", one.number(), Some(other.number())),
        Step::Begin(device, other) => push_words(
            text,
            "begin",
            device.number(),
            Some(other.number()),
        ),
        Step::Deliver(device, other) => {
            push_words(text, "deliver", device.number(), Some(other.number()))
        }
        Step::Announce(device, other, _) => {
            push_words(text, "announce", device.number(), Some(other.number()))
        }
        Step::StartPull(device, _, _) => push_words(text, "pull", device.number(), None),
        Step::Ask(device, other, _, _) => push_words(
            text,
            "ask",
            device.number(),
            Some(other.number()),
        ),
        Step::Finish(device, _, _) => push_words(text, "finish", device.number(), None),
        Step::Restart(device) => push_words(text, "restart", device.number(), None),
        Step::Reset(device, _) => push_words(text, "reset", device.number(), None),
    }
}

fn push_words(
    text: &mut String,
    word: &str,
    device: u64,
    other: Option<u64>,
) -> Result<(), AllocError> {
    write!(text, "\"{word}\",{device}")?;
    match other {
        Some(other) => write!(text, ",{other}"),
        None => Ok(()),
    }
}
