//! Calls that no other test makes: with ample memory none answers want of it.
use crate::made::{Pair, docs, of_kinds};
use crate::scenario::made;
use bep_record::FolderKind;
use std::alloc::Global;

// Whether all of these steps are made, and the last one under its ticket.
fn is_made(alloc: Global, kind: FolderKind, steps: &[&str], last: &str) -> Option<bool> {
    let mut pair = of_kinds(alloc, kind)?;
    let mut ticket = 0u64;
    for step in steps {
        ticket = ticket.saturating_add(1);
        made(alloc, &mut pair, ticket, step)?.ok()?;
    }
    Some(made(alloc, &mut pair, ticket.saturating_add(1), last)?.is_ok())
}

// The steps after which the second device knows of the first's file.
const KNOWN: [&str; 9] = ["e1", "s1", "c", "b1", "b2", "d2", "d1", "a1", "d2"];

fn overridden(alloc: Global) -> Option<bool> {
    is_made(alloc, FolderKind::SendOnly, &KNOWN, "o2")
}

fn reverted(alloc: Global) -> Option<bool> {
    is_made(alloc, FolderKind::ReceiveOnly, &["e2", "s2"], "v2")
}

fn read(alloc: Global, pair: &mut Pair) -> Option<[bool; 2]> {
    let docs = docs(alloc)?;
    Some([
        pair.first.names(&docs).is_ok(),
        pair.first.contents(&docs).is_ok(),
    ])
}

fn removed(alloc: Global) -> Option<bool> {
    is_made(alloc, FolderKind::SendReceive, &["e1", "s1"], "r1")
}

fn read_out(alloc: Global) -> Option<[bool; 2]> {
    let mut pair = of_kinds(alloc, FolderKind::SendReceive)?;
    made(alloc, &mut pair, 1, "e1")?.ok()?;
    read(alloc, &mut pair)
}

#[test]
fn logs_find_memory(rt: HostRuntime) {
    assert!(rt; overridden(rt.alloc()) == Some(true));
    assert!(rt; reverted(rt.alloc()) == Some(true));
    assert!(rt; removed(rt.alloc()) == Some(true));
    assert!(rt; read_out(rt.alloc()) == Some([true; 2]));
}
