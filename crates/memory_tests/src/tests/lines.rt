//! `bep_lines`.
use super::made::{docs, name};
use bep_lines::{
    Piece, or_as_before, push_failure, push_firm, push_folder, push_not_firm, push_not_settled,
    push_pieces, push_printed, push_reason, push_refused, push_settled, push_step,
};
use bep_model::Reason;
use bep_record::{DeviceId, FolderName, Name};
use std::alloc::Global;

fn pieces(text: &mut Vec<u8>) -> [bool; 3] {
    let pieces = [Piece::Text("a"), Piece::Number(1), Piece::Name(b"b")];
    [
        push_pieces(text, &pieces).is_ok(),
        push_printed(text, b"a b").is_ok(),
        or_as_before(text, 0, Ok(())).is_ok(),
    ]
}

fn alone(text: &mut Vec<u8>) -> [bool; 3] {
    [
        push_settled(text).is_ok(),
        push_firm(text).is_ok(),
        push_step(text, 1, 142, "NotNeeded").is_ok(),
    ]
}

fn placed(text: &mut Vec<u8>, folder: &FolderName, name: &Name) -> [bool; 4] {
    [
        push_not_settled(text, Reason::NotWinner, folder, name, DeviceId::read(1)).is_ok(),
        push_failure(text, Reason::NotWinner, folder, name, DeviceId::read(1)).is_ok(),
        push_not_firm(text, "PullNotBelow", folder, name, DeviceId::read(1)).is_ok(),
        push_reason(text, "PullNotBelow", folder, name, DeviceId::read(1)).is_ok(),
    ]
}

fn others(text: &mut Vec<u8>, folder: &FolderName, name: &Name) -> [bool; 2] {
    let device = DeviceId::read(1);
    [
        push_refused(text, 185, "Twice", Some(folder), device, Some(name)).is_ok(),
        push_folder(text, folder, 1, 0, 2).is_ok(),
    ]
}

fn at_places(alloc: Global, text: &mut Vec<u8>) -> Option<([bool; 4], [bool; 2])> {
    let (folder, name) = (docs(alloc)?, name(alloc)?);
    Some((placed(text, &folder, &name), others(text, &folder, &name)))
}

#[test]
fn lines_find_memory(rt: HostRuntime) {
    let mut text = Vec::new(rt.alloc());
    assert!(rt; pieces(&mut text) == [true; 3]);
    assert!(rt; alone(&mut text) == [true; 3]);
    assert_eq!(rt;
        at_places(rt.alloc(), &mut text),
        Some(([true; 4], [true; 2]))
    );
}
