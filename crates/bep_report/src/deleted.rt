//! How many of a folder's known names are deleted: no device's store holds them.
ghost use Rattle.std.specs.Prelude.{◌≡◌, IsSomeAnd, IsTrue};
ghost use Rattle.bep_report.specs.Report.{is_stored, count_deleted};
ghost use Rattle.bep_report.specs.inner.Known.{names_lent};
ghost use Rattle.bep_report.specs.inner.Stored.{HoldsStored};

use bep_map::NameMap;
use bep_record::{Name, Node};
use bep_tables::Share;

// How many of the names no store holds.
pub(crate) fn count_deleted(shares: &[Share], names: &[&Name]) -> usize
    ensures { result ≡ count_deleted shares.now (names_lent names.now) }
{
    match shares {
        [] => names.len(),
        [first, ..] => count_beside(shares, &first.store, names),
    }
}

// The same, along one of the stores. Mostly it holds the very names that are known, and then each name costs one comparison
// and no search. A name that it lacks is searched for, and the walk along it waits for the name that comes next there.
fn count_beside(shares: &[Share], store: &NameMap<Node>, names: &[&Name]) -> usize
    requires { HoldsStored shares.now store.now }
    ensures { result ≡ count_deleted shares.now (names_lent names.now) }
{
    let mut rest = store.iter();
    let mut next = rest.next();
    let mut count = 0;
    for name in names {
        if is_of(next, name) {
            next = rest.next();
        } else if !is_stored(shares, name) {
            count += 1;
        }
    }
    count
}

// Whether there is an entry, and it is of the name.
fn is_of(entry: Option<(&Name, &Node)>, name: &Name) -> bool
    ensures { IsTrue result → IsSomeAnd entry.entry (λ one. one.0.now ≡ name.now) }
{
    match entry {
        Some((found, _node)) => *found == *name,
        None => false,
    }
}

fn is_stored(shares: &[Share], name: &Name) -> bool
    ensures { result ≡ is_stored shares.now name.now }
{
    shares.iter().any(|share| share.store.contains(name))
}
