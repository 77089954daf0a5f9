//! Leaves that stand in lists.
use crate::{DocVersion, Taken, Told, Whole, take_leaf};
use bep_record::{DeviceId, FolderName, Name};
use bep_tree::{Reader, WalkError};
use std::alloc::Global;

impl Taken for u64 {
    fn take(
        alloc: Global,
        version: DocVersion,
        reader: &mut Reader<'_>,
        depth: usize,
    ) -> Result<Told<Self>, WalkError> {
        take_leaf(alloc, version, reader, depth)
    }
}

impl Taken for [u8; 32] {
    fn take(
        alloc: Global,
        version: DocVersion,
        reader: &mut Reader<'_>,
        depth: usize,
    ) -> Result<Told<Self>, WalkError> {
        take_leaf(alloc, version, reader, depth)
    }
}

impl Taken for DeviceId {
    fn take(
        alloc: Global,
        version: DocVersion,
        reader: &mut Reader<'_>,
        depth: usize,
    ) -> Result<Told<Self>, WalkError> {
        take_leaf(alloc, version, reader, depth)
    }
}

impl Taken for FolderName {
    fn take(
        alloc: Global,
        version: DocVersion,
        reader: &mut Reader<'_>,
        depth: usize,
    ) -> Result<Told<Self>, WalkError> {
        take_leaf(alloc, version, reader, depth)
    }
}

impl Taken for Name {
    fn take(
        alloc: Global,
        version: DocVersion,
        reader: &mut Reader<'_>,
        depth: usize,
    ) -> Result<Told<Self>, WalkError> {
        take_leaf(alloc, version, reader, depth)
    }
}

impl<const LOW: u64, const HIGH: u64> Taken for Whole<LOW, HIGH> {
    fn take(
        alloc: Global,
        version: DocVersion,
        reader: &mut Reader<'_>,
        depth: usize,
    ) -> Result<Told<Self>, WalkError> {
        take_leaf(alloc, version, reader, depth)
    }
}
