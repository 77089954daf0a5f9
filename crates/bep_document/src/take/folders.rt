//! Folders.
ghost use Rattle.std.specs.Prelude.{◌≡◌};
ghost use Rattle.bep_document.specs.inner.Folders.{folder_names, folder_slots, folder_told};
ghost use Rattle.bep_document.specs.read.Folders.{is_folder, read_folder};

use crate::{FolderParts, ShareParts};
use bep_json::{
    DocVersion, Misread, Shaped, Slots, Taken, Told, both, due, fill, fill_leaf, take_object,
};
use bep_record::{FolderName, Items};
use bep_tree::{Reader, WalkError};
use std::alloc::Global;

// What is told of the members of a folder.
#[derive(Drop)]
pub(crate) struct FolderSlots {
    folder: Option<Told<FolderName>>,
    devices: Option<Told<Items<ShareParts>>>,
}

impl Slots for FolderSlots {
    ghost names = { folder_names };

    ghost known = { folder_slots };

    fn none() -> Self {
        FolderSlots {
            folder: None,
            devices: None,
        }
    }

    fn take(
        &mut self,
        alloc: Global,
        version: DocVersion,
        key: &str,
        reader: &mut Reader<'_>,
        depth: usize,
    ) -> Result<bool, WalkError> {
        match key {
            "folder" => fill_leaf(&mut self.folder, alloc, version, reader, depth),
            "devices" => fill(&mut self.devices, alloc, version, reader, depth),
            _ => Ok(false),
        }
    }
}

impl Shaped for FolderParts {
    ghost has_shape = { is_folder };

    ghost reads = { read_folder };
}

impl Taken for FolderParts {
    fn take(
        alloc: Global,
        version: DocVersion,
        reader: &mut Reader<'_>,
        depth: usize,
    ) -> Result<Told<Self>, WalkError> {
        let slots = take_object::<FolderSlots>(alloc, version, reader, depth)?;
        Ok(folder_told(slots))
    }
}

// What is told of a folder, by what is told of its members.
fn folder_told(slots: Option<FolderSlots>) -> Told<FolderParts>
    ensures { result ≡ folder_told slots }
{
    let Some(FolderSlots { folder, devices }) = slots else {
        return Err(Misread::Shape);
    };
    let (folder, devices) = both(due(folder), due(devices))?;
    Ok(FolderParts { folder, devices })
}
