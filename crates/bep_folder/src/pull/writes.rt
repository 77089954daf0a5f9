//! Which calls of the store adopt a pull: the conflict copy is written, and then the target.
ghost use Rattle.std.specs.Prelude.{◌≡◌, ◌≢◌, ◌≤◌, ◌↔◌, ⊤, false, Option, IfErr, IsTrue, IsSome, IsErr, IsErrOf, OnOk, Some, None};
ghost use Rattle.bep_record.specs.declared.node.NodeParts.{NodeParts};
ghost use Rattle.bep_folder.specs.Calls.{CallsIf};
ghost use Rattle.bep_folder.specs.inner.Calls.{CallsToWrite};
ghost use Rattle.bep_folder.specs.Trace.{next_call};
ghost use Rattle.std.specs.Option.{option_copied};
ghost use Rattle.std.specs.FinMap as map;
ghost use Rattle.bep_machine.specs.Pull.{IsFile, IsMissingBlocks, timed};
ghost use Rattle.bep_record.specs.declared.limits.TheConstants.{MAX_NANOSECONDS};
ghost use Rattle.bep_folder.specs.inner.Ending.{CallsIn, EndsIn, Stores, WritesAll, WritesTarget, with_copy};
ghost use Rattle.bep_folder.specs.inner.Reverting.{after_removal};

use crate::traced::Traced;
use crate::{FolderError, Pull};
use bep_record::{Entry, Name, Node};
use bep_store::Store;

// The writes at the end of a pull: the conflict copy first, where there is one to write, and then the target.
pub(crate) fn write_all<S: Store>(
    store: &mut Traced<S>,
    name: &Name,
    copy: Option<&Name>,
    node: Option<&Node>,
    pull: &Pull,
    same: bool,
) -> Result<(), FolderError>
    requires node { map.get store.old.contents name.now ≡ option_copied node }
    requires kept { IsSome copy → IsSome (option_copied node) }
    requires complete { IsFile pull.now.target → same ≡ false → ¬ IsMissingBlocks pull.now }
    ensures writes { WritesAll name.now pull.now same (option_copied copy.entry) (option_copied node.entry) store.old store.new result }
    ensures called { CallsToWrite same (option_copied node.entry) pull.now (option_copied copy.entry) store.old store.new result }
{
    match copy {
        None => write_target(store, name, node, pull, same),
        Some(copy) => {
            write_copy(store, copy, node)?;
            write_target(store, name, node, pull, same)
        }
    }
}

// Keeps the node under the conflict name.
fn write_copy<S: Store>(
    store: &mut Traced<S>,
    copy: &Name,
    node: Option<&Node>,
) -> Result<(), FolderError>
    requires { IsSome (option_copied node) }
    ensures ok { OnOk result (store.new ≡ with_copy store.old copy.now (option_copied node.entry)) }
    ensures err { IsErr result → Stores copy.now (option_copied node.entry) ⊤ store.old store.new result }
    ensures last { IsErrOf result FolderError.StoreFault → store.new.trace.failed ≡ Some store.new.made }
{
    match node {
        Some(node) => {
            store.write(copy, node)?;
            store.note_copy();
            Ok(())
        }
        None => unreachable!(),
    }
}

// Brings the name to what it holds at the end of its pull, by at most one call of the store. Where the own content is
// the target's already, only the time is taken.
fn write_target<S: Store>(
    store: &mut Traced<S>,
    name: &Name,
    node: Option<&Node>,
    pull: &Pull,
    same: bool,
) -> Result<(), FolderError>
    requires node { map.get store.old.contents name.now ≡ option_copied node }
    requires complete { IsFile pull.now.target → same ≡ false → ¬ IsMissingBlocks pull.now }
    ensures writes { WritesTarget name.now pull.now same (option_copied node.entry) store.old store.new result }
    ensures called { (after : Option NodeParts) → EndsIn same (option_copied node.entry) pull.now after → CallsIf (CallsIn same (option_copied node.entry) pull.now.target after) store.old.made store.new.made }
    ensures last { IsErrOf result FolderError.StoreFault → store.new.trace.failed ≡ Some store.new.made }
{
    let target = pull.target();
    let entry = target.entry();
    if same {
        return take_time(store, name, node, entry);
    }
    match pull.node() {
        Some(written) => write_node(store, name, written),
        None => remove_node(store, name, node),
    }
}

// Gives the name the node.
fn write_node<S: Store>(store: &mut Traced<S>, name: &Name, node: &Node) -> Result<(), FolderError>
    ensures stores { Stores name.now (Some node.now) ⊤ store.old store.new result }
    ensures made { store.new.made ≡ next_call store.old.made }
    ensures last { IsErrOf result FolderError.StoreFault → store.new.trace.failed ≡ Some store.new.made }
{
    store.write(name, node)
}

// Gives the node the time of the record, unless it has it.
fn take_time<S: Store>(
    store: &mut Traced<S>,
    name: &Name,
    node: Option<&Node>,
    target: &Entry,
) -> Result<(), FolderError>
    requires node { map.get store.old.contents name.now ≡ option_copied node }
    requires nanoseconds { target.now.modified_ns ≤ MAX_NANOSECONDS }
    ensures stores { Stores name.now (timed (option_copied node.entry) target.now) (timed (option_copied node.entry) target.now ≢ option_copied node.entry) store.old store.new result }
    ensures called { CallsIf (timed (option_copied node.entry) target.now ≢ option_copied node.entry) store.old.made store.new.made }
    ensures last { IsErrOf result FolderError.StoreFault → store.new.trace.failed ≡ Some store.new.made }
{
    match node {
        Some(node) if !has_time(node, target) => {
            store.set_time(name, target.modified_s, target.modified_ns)
        }
        _ => Ok(()),
    }
}

// Whether the node has the record's time.
fn has_time(node: &Node, entry: &Entry) -> bool
    ensures { IsTrue result ↔ (timed (Some node.now) entry.now ≡ Some node.now) }
{
    let parts = node.parts();
    parts.modified_s == entry.modified_s && parts.modified_ns == entry.modified_ns
}

// Takes the node away, if there is one.
pub(crate) fn remove_node<S: Store>(
    store: &mut Traced<S>,
    name: &Name,
    node: Option<&Node>,
) -> Result<(), FolderError>
    requires node { map.get store.old.contents name.now ≡ option_copied node }
    ensures removed { Stores name.now None (None ≢ option_copied node.entry) store.old store.new result }
    ensures made { store.new.made ≡ after_removal (option_copied node.entry) store.old.made }
    ensures last { IsErrOf result FolderError.StoreFault → store.new.trace.failed ≡ Some store.new.made }
    ensures only { IfErr result (λ e. e ≡ FolderError.StoreFault) }
{
    match node {
        Some(_) => store.remove(name),
        None => Ok(()),
    }
}
