//! `bep_document`.
ghost use Rattle.std.specs.Prelude.{None};

use super::made::{CHECK, docs, name};
use bep_document::{
    DocFault, Fault, Found, Judge, first_bad_link, first_fault, first_twice, has_few_devices,
    read_cut_document, read_cut_text, read_parts, versioned_text,
};
use bep_json::DocVersion;
use bep_record::DeviceId;
use bep_tree::Scratch;
use std::alloc::Global;

fn fault(alloc: Global) -> Option<bool> {
    let (device, folder, name) = (DeviceId::read(1)?, docs(alloc)?, name(alloc)?);
    Some(DocFault::at_name(alloc, Fault::Twice, &folder, device, &name).is_ok())
}

// Whether the text of the document is found again, with its version.
fn versioned(alloc: Global) -> Option<bool> {
    let mut scratch = Scratch::new(alloc);
    let (version, text) = versioned_text(CHECK.as_bytes(), &mut scratch).ok()?;
    Some(version == DocVersion::One && text == CHECK)
}

fn cut(alloc: Global) -> bool {
    read_cut_text(alloc, DocVersion::One, br#"{"folders":[]}"#).is_ok()
}

// A judge who finds no fault.
#[derive(Drop)]
struct Mild;

impl Judge<u64> for Mild {
    ghost fault_at = { λ _ _ _. None };

    fn fault_at(&self, _alloc: Global, _earlier: &[u64], _item: &u64) -> Found {
        Ok(None)
    }
}

fn judged(alloc: Global) -> [bool; 2] {
    [
        Judge::fault_at(&Mild, alloc, &[], &1).is_ok(),
        first_fault(alloc, &Mild, &[1, 2]).is_ok(),
    ]
}

fn lists(alloc: Global) -> Option<[bool; 4]> {
    let parts = read_parts(alloc, CHECK.as_bytes()).ok()?;
    Some([
        has_few_devices(alloc, parts.folders.as_slice()).is_ok(),
        first_twice(alloc, &parts).is_ok(),
        first_bad_link(alloc, &parts).is_ok(),
        read_cut_document(alloc, CHECK.as_bytes()).is_ok(),
    ])
}

#[test]
fn documents_find_memory(rt: HostRuntime) {
    let alloc = rt.alloc();
    assert!(rt; fault(alloc) == Some(true));
    assert!(rt; versioned(alloc) == Some(true));
    assert!(rt; cut(alloc));
    assert!(rt; judged(alloc) == [true; 2]);
    assert!(rt; lists(alloc) == Some([true; 4]));
}
