//! When the own file is kept as a conflict copy.
ghost use Rattle.std.specs.Prelude.{◌≡◌, ◌≢◌, ◌↔◌, IsTrue, Some};
ghost use Rattle.std.specs.Option.{option_copied};
ghost use Rattle.bep_record.specs.Content.{content_of};
ghost use Rattle.bep_record.specs.Vector.{AreConcurrent};
ghost use Rattle.bep_machine.specs.Pull.{IsFile, IsConflictDue, IsCopy};

use bep_record::{Kind, Node, Order, Record};

// Whether the record is of a file that is there.
pub(crate) fn is_file(found: &Record) -> bool
    ensures { IsTrue result ↔ IsFile found.now }
{
    let entry = found.entry();
    !entry.deleted && entry.kind == Kind::File
}

// Whether the own file loses against a concurrent one of other content.
pub(crate) fn is_conflict_due(own: Option<&Record>, target: &Record) -> bool
    ensures { IsTrue result ↔ IsConflictDue (option_copied own.entry) target.now }
{
    match own {
        None => false,
        Some(own) => is_file(own) && is_file(target) && differ(own, target),
    }
}

// Whether neither record knows of the other's changes, and their contents differ.
fn differ(own: &Record, target: &Record) -> bool
    ensures { IsTrue result ↔ (AreConcurrent own.now.version target.now.version × (content_of target.now ≢ content_of own.now)) }
{
    own.entry().version.order(&target.entry().version) == Order::Concurrent
        && !target.same_content(own)
}

// Whether a file of the same bytes and time is there already.
pub(crate) fn is_copy(there: Option<&Node>, node: Option<&Node>) -> bool
    ensures { IsTrue result ↔ IsCopy (option_copied there.entry) (option_copied node.entry) }
{
    match (there, node) {
        (Some(there), Some(node)) => same_file(there, node),
        _ => false,
    }
}

fn same_file(there: &Node, node: &Node) -> bool
    ensures { IsTrue result ↔ IsCopy (Some there.now) (Some node.now) }
{
    let (there, node) = (there.parts(), node.parts());
    there.kind == Kind::File
        && there.bytes.as_slice() == node.bytes.as_slice()
        && there.modified_s == node.modified_s
        && there.modified_ns == node.modified_ns
}
