//! A cut, its folders and its links.
ghost use Rattle.std.specs.Prelude.{◌≡◌};
ghost use Rattle.std.specs.Option.{option_copied};
ghost use Rattle.std.specs.List.{find};
ghost use Rattle.bep_tables.specs.Cut.{IsCut, is_folder, shares_of};

use crate::{LinkState, Share, SharedFolder};
use bep_record::{FolderName, Items};
use std::marker::Model;

/// The parts of a cut.
pub struct CutParts {
    /// The folders, names rising.
    pub folders: Items<SharedFolder>,
    /// The links, by their two devices, rising.
    pub links: Items<LinkState>,
}

// By hand: a caller's proof then sees one call where it lets go of one, and not each field (docs/developing.md).
impl Drop for CutParts {
    fn drop(self) {
        let CutParts {
            folders: _,
            links: _,
        } = self;
    }
}

/// One moment of a cluster: which devices share which folder, in which kind; for each its own records, what its store
/// holds, what it knows of the others' indexes and what it pulls; and which records are on their way over which link.
///
/// At most 16 folders and 16 devices; folders, devices and links rise; each device's records, and each view's, are those
/// of an index; views and messages are of devices that share the folder, and no view is at index id 0 and sequence 0; at
/// most 1024 messages are on their way to either end of a link, and none over a link that is down.
pub struct Cut {
    parts: CutParts,
}

// By hand: a caller's proof then sees one call where it lets go of one, and not each field (docs/developing.md).
impl Drop for Cut {
    fn drop(self) {
        let Cut { parts: _ } = self;
    }
}

impl Model for Cut {
    ghost use Rattle.bep_tables.specs.declared.cut.CutParts.{CutParts};
    ghost use Rattle.bep_tables.specs.Cut.{IsCut};
    ghost use Rattle.bep_tables.specs.contracts.share.SharedFolder as shared;
    ghost use Rattle.std.specs.Coded.{codes};

    ghost Value = { CutParts };

    ghost coded = { Prim.hlevel (codes, shared.the_row.coded) };

    ghost view = { λ cut. cut.parts };

    ghost invariant = { λ cut. IsCut cut.parts };
}

impl Cut {
    /// The cut of these parts. The caller sees to it that they are the parts of a cut: all that is said of a cut above
    /// holds of them.
    pub fn of(parts: CutParts) -> Self
        requires { IsCut parts }
        ensures { result ≡ parts }
    {
        Cut { parts }
    }

    /// The folders, names rising, each with the devices that share it.
    pub fn folders(&self) -> &[SharedFolder]
        ensures value { result.now ≡ self.now.folders }
        ensures a_cut { IsCut self.now }
    {
        self.parts.folders.as_slice()
    }

    /// What holds of every cut holds of this one. It does nothing; its contract is the fact.
    pub fn is_a_cut(&self)
        ensures { IsCut self.now }
    {
        let _ = &self.parts;
    }

    /// The links, by their two devices, rising.
    pub fn links(&self) -> &[LinkState]
        ensures value { result.now ≡ self.now.links }
        ensures a_cut { IsCut self.now }
    {
        self.parts.links.as_slice()
    }

    /// What each device that shares the folder has of it, devices rising; nothing if there is no such folder.
    pub fn shares(&self, folder: &FolderName) -> &[Share]
        ensures value { result.now ≡ shares_of folder.now self.now.folders }
        ensures a_cut { IsCut self.now }
    {
        match folder_of(self.parts.folders.as_slice(), folder) {
            Some(shared) => shared.shares.as_slice(),
            None => &[],
        }
    }
}

fn folder_of<'a>(folders: &'a [SharedFolder], folder: &FolderName) -> Option<&'a SharedFolder>
    ensures { option_copied result ≡ find (is_folder folder.now) folders.now }
{
    folders
        .iter()
        .find(|shared| shared.folder.cmp(folder).is_eq())
}
