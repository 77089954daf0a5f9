//! Cuts.
ghost use Rattle.std.specs.Prelude.{◌≡◌};
ghost use Rattle.bep_tree.specs.Walk.{Reaches};
ghost use Rattle.bep_document.specs.read.Checks.{is_cut, read_cut};
ghost use Rattle.bep_document.specs.inner.Cuts.{cut_names, cut_slots, cut_told, cut_with};

use crate::{CheckParts, Few, FolderParts, LinkParts, RowParts, has_few_devices};
use bep_json::{
    DocVersion, Misread, Shaped, Slots, Taken, Told, both, due, due_or, fill, take_object,
};
use bep_record::{Items, MAX_FOLDERS};
use bep_tree::{Reader, WalkError};
use std::alloc::Global;
use std::marker::Model;

// The folders and the links of a cut.
#[derive(Debug, Drop)]
pub(crate) struct CutLists {
    folders: Items<FolderParts>,
    links: Items<LinkParts>,
}

impl Model for CutLists {
    ghost use Rattle.std.specs.Prelude.{List};
    ghost use Rattle.bep_document.specs.declared.parts.FolderParts.{FolderParts};
    ghost use Rattle.bep_document.specs.declared.parts.LinkParts.{LinkParts};

    ghost Value = { List FolderParts × List LinkParts };

    ghost view = { λ cut. (cut.folders, cut.links) };
}

impl CutLists {
    // The document of this version that has this cut and these rows.
    pub(crate) fn with_rows(self, version: DocVersion, certificate: Items<RowParts>) -> CheckParts
        ensures { result ≡ record { version = version; folders = self.0; links = self.1; certificate = certificate } }
    {
        CheckParts {
            version,
            folders: self.folders,
            links: self.links,
            certificate,
        }
    }
}

// What is told of the members of a cut.
#[derive(Drop)]
pub(crate) struct CutSlots {
    folders: Option<Told<Few<FolderParts, MAX_FOLDERS>>>,
    links: Option<Told<Items<LinkParts>>>,
}

impl Slots for CutSlots {
    ghost names = { cut_names };

    ghost known = { cut_slots };

    fn none() -> Self {
        CutSlots {
            folders: None,
            links: None,
        }
    }

    fn take(
        &mut self,
        alloc: Global,
        version: DocVersion,
        key: &str,
        reader: &mut Reader<'_>,
        depth: usize,
    ) -> Result<bool, WalkError> {
        match key {
            "folders" => fill(&mut self.folders, alloc, version, reader, depth),
            "links" => fill(&mut self.links, alloc, version, reader, depth),
            _ => Ok(false),
        }
    }
}

impl Shaped for CutLists {
    ghost has_shape = { is_cut };

    ghost reads = { read_cut };
}

impl Taken for CutLists {
    fn take(
        alloc: Global,
        version: DocVersion,
        reader: &mut Reader<'_>,
        depth: usize,
    ) -> Result<Told<Self>, WalkError> {
        let slots = take_object::<CutSlots>(alloc, version, reader, depth)?;
        cut_told(alloc, slots)
    }
}

// What is told of a cut, by what is told of its members.
fn cut_told(alloc: Global, slots: Option<CutSlots>) -> Result<Told<CutLists>, WalkError>
    ensures { Reaches result (λ told. told ≡ cut_told slots) }
{
    let Some(CutSlots { folders, links }) = slots else {
        return Ok(Err(Misread::Shape));
    };
    match both(due(folders), due_or(links, Items::new(Vec::new(alloc)))) {
        Ok((folders, links)) => cut_with(alloc, folders.into_items(), links),
        Err(misread) => Ok(Err(misread)),
    }
}

// The cut with these folders and links, where not too many different devices share the folders.
fn cut_with(
    alloc: Global,
    folders: Items<FolderParts>,
    links: Items<LinkParts>,
) -> Result<Told<CutLists>, WalkError>
    ensures { Reaches result (λ told. told ≡ cut_with (folders, links)) }
{
    if has_few_devices(alloc, folders.as_slice())? {
        Ok(Ok(CutLists { folders, links }))
    } else {
        Ok(Err(Misread::Range))
    }
}
