//! `torn_logs`: makes a scenario's steps on devices and links that log them. For each two moments it copies the first device at
//! the one and all else at the other, and writes the logs of these copies with the run check's verdict: a line each, in the
//! form that the second reading reads (`fit.py`).
#![tactic(auto)]

mod cluster;
mod making;
mod tearing;
mod writing;

use crate::tearing::torn;
use crate::writing::push_line;
use bep_report::{ReportError, read_document, write_all};
use bep_scenario::read_scenario;
use std::alloc::{AllocError, Global};
use std::io::{Read, Write};
use std::process::ExitCode;

fn main(rt: HostRuntime) -> ExitCode {
    ExitCode::from(
        match answer(rt.alloc(), &mut rt.stdin(), &mut rt.stdout()) {
            Ok(()) => 0,
            Err(ReportError::Memory) => 4,
            Err(_) => 5,
        },
    )
}

// Writes the lines of the scenario that is read.
fn answer<R: Read, W: Write>(
    alloc: Global,
    reader: &mut R,
    writer: &mut W,
) -> Result<(), ReportError> {
    let bytes = read_document(alloc, reader)?;
    let steps = steps_in(alloc, bytes.as_slice())?;
    for first in 0..=steps {
        for rest in 0..=steps {
            let line = line(alloc, bytes.as_slice(), first, rest)?;
            write_all(writer, line.as_bytes())?;
        }
    }
    Ok(())
}

// How many steps the scenario has; a document that is refused has none to make.
fn steps_in(alloc: Global, bytes: &[u8]) -> Result<u64, AllocError> {
    match read_scenario(alloc, bytes) {
        Ok(scenario) => Ok(scenario.steps.len() as u64),
        Err(_) => Err(AllocError),
    }
}

// The line of copies that are made after so many steps: the first device, and all else.
fn line(alloc: Global, bytes: &[u8], first: u64, rest: u64) -> Result<String, AllocError> {
    let run = torn(alloc, bytes, first, rest)?;
    let mut line = String::new(alloc);
    push_line(alloc, &mut line, &run)?;
    Ok(line)
}
