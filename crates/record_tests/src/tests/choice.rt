//! Which record is chosen, and what a folder needs of it, in this project's profile; the wanted answers were worked out by
//! hand. More choices, `tests/pieces.sh` shows.
use super::made::{Said, record};
use bep_choice::{choose, needed};
use bep_record::{DeviceId, FolderKind, Record};
use std::alloc::Global;

fn version(counter: (u64, u64)) -> Said {
    Said {
        letter: b'a',
        sequence: 1,
        counter,
        deleted: false,
        invalid: false,
    }
}

fn needs_beside(own: Option<&Record>, chosen: &Record) -> [bool; 3] {
    [
        needed(FolderKind::SendReceive, own, chosen),
        needed(FolderKind::SendOnly, own, chosen),
        needed(FolderKind::ReceiveOnly, own, chosen),
    ]
}

// Whether the record that was chosen is needed in a folder of each kind, beside the own one.
fn needs_of(alloc: Global, own: Option<&Record>, chosen: Said) -> Option<[bool; 3]> {
    let chosen = record(alloc, chosen)?;
    Some(needs_beside(own, &chosen))
}

fn needs(alloc: Global, own: Option<Said>, chosen: Said) -> Option<[bool; 3]> {
    let Some(own) = own else {
        return needs_of(alloc, None, chosen);
    };
    let own = record(alloc, own)?;
    needs_of(alloc, Some(&own), chosen)
}

#[test]
fn needs_go_by_the_folder_and_the_own_record(rt: HostRuntime) {
    let (own, newer) = (version((1, 1)), version((1, 2)));
    let (mut gone, mut local) = (newer, own);
    gone.deleted = true;
    local.invalid = true;
    for (own, chosen, wanted) in [
        (None, gone, [false, false, false]), // a deletion of nothing
        (None, newer, [true, false, true]), // a file that isn't here
        (Some(own), newer, [true, true, true]), // the same content
        (Some(own), gone, [true, false, true]), // other content
        (Some(own), own, [false, false, false]), // an equal version
        (Some(local), gone, [false, false, false]), // other content than the local change
        (Some(local), version((2, 1)), [true, true, true]), // what the local change made
    ] {
        assert_eq!(rt; needs(rt.alloc(), own, chosen), Some(wanted));
    }
}

// The record of this version, which its device made at this time.
fn made_at(alloc: Global, counter: (u64, u64), modified_s: i64) -> Option<Record> {
    let mut entry = record(alloc, version(counter))?.into_entry(alloc).ok()?;
    entry.modified_s = modified_s;
    entry.modified_by = DeviceId::read(counter.0)?;
    Record::read(alloc, entry).ok()?
}

// The place of device 9's choice among records of devices 2, 3 and 4.
fn choice_of_three(alloc: Global) -> Option<usize> {
    let newest = made_at(alloc, (7, 3), 5)?;
    let older = made_at(alloc, (7, 2), 9)?;
    let other = made_at(alloc, (2, 1), 5)?;
    let candidates = [
        (DeviceId::read(2)?, &newest),
        (DeviceId::read(3)?, &older), // later, but strictly below the newest
        (DeviceId::read(4)?, &other), // as late as the newest, by the smaller device
    ];
    choose(DeviceId::read(9)?, &candidates)
}

#[test]
fn the_choice_goes_by_version_time_and_changer(rt: HostRuntime) {
    assert_eq!(rt; choice_of_three(rt.alloc()), Some(2));
}
