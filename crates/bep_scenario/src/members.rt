//! The members of a scenario document.
ghost use Rattle.std.specs.Prelude.{◌≡◌, IfOk};
ghost use Rattle.bep_scenario.specs.inner.Members.{scenario_names, scenario_slots, scenario_things, scenario_of, scenario_told};

use crate::fresh::{Fresh, FreshLink, into_parts, links_of};
use crate::{ScenarioParts, StepParts};
use bep_document::{CheckParts, Few, FolderParts, has_few_devices};
use bep_json::{DocVersion, Misread, Slots, Told, Whole, both, due, fill, fill_leaf, noted};
use bep_record::{Items, MAX_FOLDERS};
use bep_tree::{Reader, WalkError};
use std::alloc::{AllocError, Global};

type FreshFolders = Few<Fresh<FolderParts>, MAX_FOLDERS>;

// Whether the version is there, and the things that the other members say.
type ScenarioThings = (bool, (FreshFolders, (Items<FreshLink>, Items<StepParts>)));

// What is told of the members of a scenario document.
#[derive(Drop)]
pub(crate) struct ScenarioSlots {
    version: Option<Told<Whole<1, 2>>>,
    folders: Option<Told<FreshFolders>>,
    links: Option<Told<Items<FreshLink>>>,
    steps: Option<Told<Items<StepParts>>>,
}

impl Slots for ScenarioSlots {
    ghost names = { scenario_names };

    ghost known = { scenario_slots };

    fn none() -> Self {
        ScenarioSlots {
            version: None,
            folders: None,
            links: None,
            steps: None,
        }
    }

    fn take(
        &mut self,
        alloc: Global,
        version: DocVersion,
        key: &str,
        reader: &mut Reader<'_>,
        depth: usize,
    ) -> Result<bool, WalkError> {
        match key {
            "version" => fill_leaf(&mut self.version, alloc, version, reader, depth),
            "folders" => fill(&mut self.folders, alloc, version, reader, depth),
            "links" => fill(&mut self.links, alloc, version, reader, depth),
            "steps" => fill(&mut self.steps, alloc, version, reader, depth),
            _ => Ok(false),
        }
    }
}

// What is told of a scenario of this version, by what is told of its members.
pub(crate) fn scenario_told(
    alloc: Global,
    version: DocVersion,
    slots: Option<ScenarioSlots>,
) -> Result<Told<ScenarioParts>, AllocError>
    ensures { IfOk result (λ told. told ≡ scenario_told version slots) }
{
    let Some(slots) = slots else {
        return Ok(Err(Misread::Shape));
    };
    match things_told(slots) {
        Ok(things) => scenario_of(alloc, version, things),
        Err(misread) => Ok(Err(misread)),
    }
}

// What is told of all members.
fn things_told(slots: ScenarioSlots) -> Told<ScenarioThings>
    ensures { result ≡ scenario_things slots }
{
    both(
        noted(slots.version),
        both(due(slots.folders), both(due(slots.links), due(slots.steps))),
    )
}

// The scenario of this version that has these things, where not too many different devices share its folders.
fn scenario_of(
    alloc: Global,
    version: DocVersion,
    things: ScenarioThings,
) -> Result<Told<ScenarioParts>, AllocError>
    ensures { IfOk result (λ told. told ≡ scenario_of version things) }
{
    let (_seen, (folders, (links, steps))) = things;
    let folders = into_parts(alloc, folders.into_items())?;
    if !has_few_devices(alloc, folders.as_slice())? {
        return Ok(Err(Misread::Range));
    }
    let links = links_of(alloc, links)?;
    let certificate = Items::new(Vec::new(alloc));
    let cluster = CheckParts {
        version,
        folders,
        links,
        certificate,
    };
    Ok(Ok(ScenarioParts { cluster, steps }))
}
