//! Folders.
ghost use Rattle.std.specs.Prelude.{◌≡◌, IfOk, Ok};
ghost use Rattle.bep_scenario.specs.Fresh.{is_fresh_folder, read_fresh_folder};
ghost use Rattle.bep_scenario.specs.inner.Fresh.{folder_names, folder_slots, folder_of, folder_told};

use crate::fresh::{Fresh, into_parts};
use bep_document::{FolderParts, ShareParts};
use bep_json::{
    DocVersion, Misread, Shaped, Slots, Taken, Told, both, due, fill, fill_leaf, take_object,
};
use bep_record::{FolderName, Items};
use bep_tree::{Reader, WalkError};
use std::alloc::{AllocError, Global};

// What is told of the members of a folder.
#[derive(Drop)]
pub(crate) struct FolderSlots {
    folder: Option<Told<FolderName>>,
    devices: Option<Told<Items<Fresh<ShareParts>>>>,
}

impl Slots for FolderSlots {
    ghost names = { folder_names };

    ghost known = { λ _. folder_slots };

    fn none() -> Self {
        FolderSlots {
            folder: None,
            devices: None,
        }
    }

    fn take(
        &mut self,
        alloc: Global,
        version: DocVersion,
        key: &str,
        reader: &mut Reader<'_>,
        depth: usize,
    ) -> Result<bool, WalkError> {
        match key {
            "folder" => fill_leaf(&mut self.folder, alloc, version, reader, depth),
            "devices" => fill(&mut self.devices, alloc, version, reader, depth),
            _ => Ok(false),
        }
    }
}

impl Shaped for Fresh<FolderParts> {
    ghost has_shape = { λ _. is_fresh_folder };

    ghost reads = { λ _. read_fresh_folder };
}

impl Taken for Fresh<FolderParts> {
    fn take(
        alloc: Global,
        version: DocVersion,
        reader: &mut Reader<'_>,
        depth: usize,
    ) -> Result<Told<Self>, WalkError> {
        let slots = take_object::<FolderSlots>(alloc, version, reader, depth)?;
        let told = folder_told(alloc, slots)?;
        Ok(told)
    }
}

// What is told of a folder, by what is told of its members.
fn folder_told(
    alloc: Global,
    slots: Option<FolderSlots>,
) -> Result<Told<Fresh<FolderParts>>, AllocError>
    ensures { IfOk result (λ told. told ≡ folder_told slots) }
{
    let Some(FolderSlots { folder, devices }) = slots else {
        return Ok(Err(Misread::Shape));
    };
    match both(due(folder), due(devices)) {
        Ok((folder, devices)) => folder_of(alloc, folder, devices),
        Err(misread) => Ok(Err(misread)),
    }
}

// The folder of this name, with the devices that share it.
fn folder_of(
    alloc: Global,
    folder: FolderName,
    devices: Items<Fresh<ShareParts>>,
) -> Result<Told<Fresh<FolderParts>>, AllocError>
    ensures { IfOk result (λ told. told ≡ Ok (folder_of (folder, devices))) }
{
    let devices = into_parts(alloc, devices)?;
    let part = FolderParts { folder, devices };
    Ok(Ok(Fresh { part }))
}
