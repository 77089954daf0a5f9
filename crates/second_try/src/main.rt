//! `second_try`: makes a scenario's steps and audits where they lead, or audits the cut of a check document, or hashes other
//! bytes by two workers, and asks once more for whatever memory was wanting for. `tests/refused.sh` refuses it one growth
//! after the other: what it writes stays as it is with ample memory, so whatever was refused left all as before.
#![tactic(auto)]

mod audit;
mod hashing;
mod logs;
mod steps;
mod telling;

use crate::audit::{audit, cut_at_end};
use crate::hashing::tell_blocks;
use crate::steps::play;
use crate::telling::Told;
use bep_cut_document::read_cut;
use bep_report::{ReportError, read_document, write_all};
use bep_scenario::{Scenario, read_scenario};
use std::alloc::{AllocError, Global};
use std::io::{Read, Write};
use std::process::ExitCode;
use std::thread::Threads;
use std::time::Clock;

// The status where something was asked for twice; it is 0 where nothing was.
const TWICE: u8 = 1;

fn main(rt: HostRuntime) -> ExitCode {
    ExitCode::from(
        match answer(rt, rt.alloc(), &mut rt.stdin(), &mut rt.stdout()) {
            Ok(status) => status,
            Err(ReportError::Memory) => 4,
            Err(_) => 5,
        },
    )
}

// Reads the document and writes what is told of it, and answers the status.
fn answer<P: Threads + Clock + Sync + Copy + Drop, R: Read, W: Write>(
    rt: P,
    alloc: Global,
    reader: &mut R,
    writer: &mut W,
) -> Result<u8, ReportError> {
    let bytes = read_document(alloc, reader)?;
    let told = tell(rt, alloc, bytes.as_slice())?;
    write_all(writer, told.text.as_slice())?;
    Ok(if told.is_twice { TWICE } else { 0 })
}

// What is told of a document, or of bytes that don't begin as one does.
fn tell<P: Threads + Clock + Sync + Copy + Drop>(
    rt: P,
    alloc: Global,
    bytes: &[u8],
) -> Result<Told, AllocError> {
    let mut told = Told::new(alloc);
    match bytes.first() {
        Some(b'{') => tell_document(alloc, bytes, &mut told)?,
        _ => tell_blocks(rt, alloc, bytes, &mut told)?,
    }
    Ok(told)
}

// What is told of a scenario's end, or of a check document's cut.
fn tell_document(alloc: Global, bytes: &[u8], told: &mut Told) -> Result<(), AllocError> {
    match read_scenario(alloc, bytes) {
        Ok(scenario) => tell_run(alloc, scenario, told),
        Err(_) => match read_cut(alloc, bytes) {
            Ok((_, cut)) => audit(alloc, &cut, told),
            Err(_) => Err(AllocError),
        },
    }
}

// What is told of the scenario's end.
fn tell_run(alloc: Global, scenario: Scenario, told: &mut Told) -> Result<(), AllocError> {
    let cluster = play(alloc, scenario, told)?;
    let cut = cut_at_end(alloc, cluster, told)?;
    audit(alloc, &cut, told)
}
