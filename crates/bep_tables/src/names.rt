//! The names that are known in a folder.
ghost use Rattle.std.specs.Prelude.{◌≡◌, fold, IfOk, OnOk};
ghost use Rattle.std.specs.FinMap.{insert, keys};
ghost use Rattle.bep_tables.specs.Names.{with_names, with_valid, with_view, with_share, with_flight, with_link, known_names};

use crate::{Cut, Flight, LinkState, PeerView, Share};
use bep_map::NameMap;
use bep_record::{FolderName, Name, Record};
use std::alloc::{AllocError, Global};

impl Cut {
    /// The names that the folder's devices recorded, hold, know of others or pull, and those on their way to them; or
    /// want of memory. A record that a device has from elsewhere counts unless it is invalid.
    #[tactic(auto, unfolding(crate::specs::Names::known_names))]
    pub fn known_names(&self, alloc: Global, folder: &FolderName) -> Result<NameMap<()>, AllocError>
        ensures { IfOk result (λ names. names ≡ known_names self.now folder.now) }
    {
        let mut names = NameMap::new(alloc);
        for share in self.shares(folder) {
            add_share(&mut names, alloc, share)?;
        }
        add_links(&mut names, alloc, folder, self.links())?;
        Ok(names)
    }
}

#[tactic(auto, unfolding(crate::specs::Names::with_share))]
fn add_share(names: &mut NameMap<()>, alloc: Global, share: &Share) -> Result<(), AllocError>
    ensures { OnOk result (names.new ≡ with_share names.old share.now) }
{
    add_names(names, alloc, &share.own)?;
    add_names(names, alloc, &share.store)?;
    for view in share.views.as_slice() {
        add_view(names, alloc, view)?;
    }
    add_names(names, alloc, &share.pulls)
}

fn add_names<V>(names: &mut NameMap<()>, alloc: Global, held: &NameMap<V>) -> Result<(), AllocError>
    ensures { OnOk result (names.new ≡ with_names names.old (keys held.now)) }
{
    for (name, _value) in held.iter() {
        add_name(names, alloc, name)?;
    }
    Ok(())
}

fn add_view(names: &mut NameMap<()>, alloc: Global, view: &PeerView) -> Result<(), AllocError>
    ensures { OnOk result (names.new ≡ with_view names.old view.now) }
{
    for entry in view.records.values() {
        add_valid(names, alloc, entry)?;
    }
    Ok(())
}

#[tactic(auto, unfolding(crate::specs::Names::with_link))]
fn add_links(
    names: &mut NameMap<()>,
    alloc: Global,
    folder: &FolderName,
    links: &[LinkState],
) -> Result<(), AllocError>
    ensures { OnOk result (names.new ≡ fold (with_link folder.now) names.old links.now) }
{
    for link in links {
        add_flights(names, alloc, folder, link.to_a.as_slice())?;
        add_flights(names, alloc, folder, link.to_b.as_slice())?;
    }
    Ok(())
}

fn add_flights(
    names: &mut NameMap<()>,
    alloc: Global,
    folder: &FolderName,
    flights: &[Flight],
) -> Result<(), AllocError>
    ensures { OnOk result (names.new ≡ fold (with_flight folder.now) names.old flights.now) }
{
    for flight in flights {
        add_flight(names, alloc, folder, flight)?;
    }
    Ok(())
}

#[tactic(auto, unfolding(crate::specs::Names::with_flight))]
fn add_flight(
    names: &mut NameMap<()>,
    alloc: Global,
    folder: &FolderName,
    flight: &Flight,
) -> Result<(), AllocError>
    ensures { OnOk result (names.new ≡ with_flight folder.now names.old flight.now) }
{
    if flight.folder != *folder {
        return Ok(());
    }
    for entry in flight.records.as_slice() {
        add_valid(names, alloc, entry)?;
    }
    Ok(())
}

// Adds the record's name, unless the record is invalid.
fn add_valid(names: &mut NameMap<()>, alloc: Global, entry: &Record) -> Result<(), AllocError>
    ensures { OnOk result (names.new ≡ with_valid names.old entry.now) }
{
    let entry = entry.entry();
    if entry.invalid {
        return Ok(());
    }
    add_name(names, alloc, &entry.name)
}

fn add_name(names: &mut NameMap<()>, alloc: Global, name: &Name) -> Result<(), AllocError>
    ensures { OnOk result (names.new ≡ insert names.old name.now tt) }
{
    names.insert(name.copy(alloc)?, ())?;
    Ok(())
}
