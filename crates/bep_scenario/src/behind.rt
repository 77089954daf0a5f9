//! What belongs to the word of a step, and the step that it makes with the word.
ghost use Rattle.std.specs.Prelude.{◌≡◌, ◌<◌, length, OnOk};
ghost use Rattle.bep_json.specs.Taking.{told_as};
ghost use Rattle.bep_machine.specs.declared.step.Step.TheVariants as steps;
ghost use Rattle.bep_scenario.specs.Steps.{shapes_of, name_step, pair_step, read_edit, read_name_step, read_pair_step, read_announce, read_ask, read_restart, read_reset};
ghost use Rattle.bep_scenario.specs.declared.words.Word.TheVariants as words;
ghost use Rattle.bep_scenario.specs.declared.parts.StepParts.TheVariants as parts;
ghost use Rattle.bep_scenario.specs.inner.Steps.{TakesBehind};

use crate::StepParts;
use crate::words::{NameWord, PairWord};
use bep_document::IndexNumber;
use bep_index::IndexId;
use bep_json::{DocVersion, Misread, NamedParts, Told, Tuple};
use bep_machine::Step;
use bep_record::{DeviceId, FolderName, Name};
use bep_tree::{Reader, WalkError};
use std::alloc::Global;

// ---- the items, each at its place

type EditItems = (DeviceId, (FolderName, (NamedParts, ())));

type NameItems = (DeviceId, (FolderName, (Name, ())));

type PairItems = (DeviceId, (DeviceId, ()));

type AnnounceItems = (DeviceId, (DeviceId, (FolderName, ())));

type AskItems = (DeviceId, (DeviceId, (FolderName, (Name, ()))));

type RestartItems = (DeviceId, ());

type ResetItems = (DeviceId, (IndexNumber, ()));

// ---- the steps of these items

fn edit_of(told: Told<EditItems>) -> Told<StepParts>
    ensures { result ≡ told_as (λ t. parts.Edit t.0 t.1.0 t.1.1.0) told }
{
    let (device, (folder, (node, ()))) = told?;
    Ok(StepParts::Edit(device, folder, node))
}

fn name_step_of(word: NameWord, told: Told<NameItems>) -> Told<StepParts>
    ensures { result ≡ told_as (λ t. parts.Other (name_step word t.0 t.1.0 t.1.1.0)) told }
{
    let (device, (folder, (name, ()))) = told?;
    Ok(StepParts::Other(name_step(word, device, folder, name)))
}

// The step of a device at a name.
fn name_step(word: NameWord, device: DeviceId, folder: FolderName, name: Name) -> Step
    ensures { result ≡ name_step word device folder name }
{
    match word {
        NameWord::Remove => Step::Remove(device, folder, name),
        NameWord::Scan => Step::Scan(device, folder, name),
        NameWord::Override => Step::Override(device, folder, name),
        NameWord::Revert => Step::Revert(device, folder, name),
        NameWord::Pull => Step::StartPull(device, folder, name),
        NameWord::Finish => Step::Finish(device, folder, name),
    }
}

fn pair_step_of(word: PairWord, told: Told<PairItems>) -> Told<StepParts>
    ensures { result ≡ told_as (λ t. parts.Other (pair_step word t.0 t.1.0)) told }
{
    let (one, (other, ())) = told?;
    Ok(StepParts::Other(pair_step(word, one, other)))
}

// The step of two devices.
fn pair_step(word: PairWord, one: DeviceId, other: DeviceId) -> Step
    ensures { result ≡ pair_step word one other }
{
    match word {
        PairWord::Connect => Step::Connect(one, other),
        PairWord::Lose => Step::Lose(one, other),
        PairWord::Begin => Step::Begin(one, other),
        PairWord::Deliver => Step::Deliver(one, other),
    }
}

fn announce_of(told: Told<AnnounceItems>) -> Told<StepParts>
    ensures { result ≡ told_as (λ t. parts.Other (steps.Announce t.0 t.1.0 t.1.1.0)) told }
{
    let (device, (other, (folder, ()))) = told?;
    Ok(StepParts::Other(Step::Announce(device, other, folder)))
}

fn ask_of(told: Told<AskItems>) -> Told<StepParts>
    ensures { result ≡ told_as (λ t. parts.Other (steps.Ask t.0 t.1.0 t.1.1.0 t.1.1.1.0)) told }
{
    let (device, (other, (folder, (name, ())))) = told?;
    Ok(StepParts::Other(Step::Ask(device, other, folder, name)))
}

fn restart_of(told: Told<RestartItems>) -> Told<StepParts>
    ensures { result ≡ told_as (λ t. parts.Other (steps.Restart t.0)) told }
{
    let (device, ()) = told?;
    Ok(StepParts::Other(Step::Restart(device)))
}

fn reset_of(told: Told<ResetItems>) -> Told<StepParts>
    ensures { result ≡ told_as (λ t. parts.Other (steps.Reset t.0 t.1.0)) told }
{
    let (device, (id, ())) = told?;
    match IndexId::read(id.number()) {
        Some(id) => Ok(StepParts::Other(Step::Reset(device, id))),
        None => Err(Misread::Range),
    }
}

// ---- the items, taken

pub(crate) fn take_edit(
    alloc: Global,
    version: DocVersion,
    reader: &mut Reader<'_>,
    depth: usize,
) -> Result<Told<StepParts>, WalkError>
    ensures value { TakesBehind (shapes_of words.Edit) (read_edit version) depth reader.old result reader.new }
    ensures shorter { OnOk result (length reader.new < length reader.old) }
{
    let items = EditItems::take_items(alloc, version, reader, depth)?;
    Ok(edit_of(items))
}

pub(crate) fn take_of_name(
    alloc: Global,
    version: DocVersion,
    word: NameWord,
    reader: &mut Reader<'_>,
    depth: usize,
) -> Result<Told<StepParts>, WalkError>
    ensures value { TakesBehind (shapes_of (words.OfName word)) (read_name_step word) depth reader.old result reader.new }
    ensures shorter { OnOk result (length reader.new < length reader.old) }
{
    let items = NameItems::take_items(alloc, version, reader, depth)?;
    Ok(name_step_of(word, items))
}

pub(crate) fn take_of_pair(
    alloc: Global,
    version: DocVersion,
    word: PairWord,
    reader: &mut Reader<'_>,
    depth: usize,
) -> Result<Told<StepParts>, WalkError>
    ensures value { TakesBehind (shapes_of (words.OfPair word)) (read_pair_step word) depth reader.old result reader.new }
    ensures shorter { OnOk result (length reader.new < length reader.old) }
{
    let items = PairItems::take_items(alloc, version, reader, depth)?;
    Ok(pair_step_of(word, items))
}

pub(crate) fn take_announce(
    alloc: Global,
    version: DocVersion,
    reader: &mut Reader<'_>,
    depth: usize,
) -> Result<Told<StepParts>, WalkError>
    ensures value { TakesBehind (shapes_of words.Announce) read_announce depth reader.old result reader.new }
    ensures shorter { OnOk result (length reader.new < length reader.old) }
{
    let items = AnnounceItems::take_items(alloc, version, reader, depth)?;
    Ok(announce_of(items))
}

pub(crate) fn take_ask(
    alloc: Global,
    version: DocVersion,
    reader: &mut Reader<'_>,
    depth: usize,
) -> Result<Told<StepParts>, WalkError>
    ensures value { TakesBehind (shapes_of words.Ask) read_ask depth reader.old result reader.new }
    ensures shorter { OnOk result (length reader.new < length reader.old) }
{
    let items = AskItems::take_items(alloc, version, reader, depth)?;
    Ok(ask_of(items))
}

pub(crate) fn take_restart(
    alloc: Global,
    version: DocVersion,
    reader: &mut Reader<'_>,
    depth: usize,
) -> Result<Told<StepParts>, WalkError>
    ensures value { TakesBehind (shapes_of words.Restart) read_restart depth reader.old result reader.new }
    ensures shorter { OnOk result (length reader.new < length reader.old) }
{
    let items = RestartItems::take_items(alloc, version, reader, depth)?;
    Ok(restart_of(items))
}

pub(crate) fn take_reset(
    alloc: Global,
    version: DocVersion,
    reader: &mut Reader<'_>,
    depth: usize,
) -> Result<Told<StepParts>, WalkError>
    ensures value { TakesBehind (shapes_of words.Reset) read_reset depth reader.old result reader.new }
    ensures shorter { OnOk result (length reader.new < length reader.old) }
{
    let items = ResetItems::take_items(alloc, version, reader, depth)?;
    Ok(reset_of(items))
}
