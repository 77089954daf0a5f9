//! Whether all valid records of a name repeat its top, as they do where nothing changes.
ghost use Rattle.std.specs.Prelude.{◌≡◌, ◌↔◌, IsTrue, Contains, map};
ghost use Rattle.bep_record.specs.Content.{content_of};
ghost use Rattle.bep_record.specs.Vector.{IsAtMost};
ghost use Rattle.bep_tables.specs.Listed.{Listed, listed};
ghost use Rattle.bep_converge_check.specs.inner.Alike.{RepeatsIfValid};

use crate::known::valid_record;
use bep_record::Record;
use bep_tables::TableEntry;

/// Whether each valid record of these entries has a version that is no lower than the top's, and its content. Where they all
/// do, none needs to be compared with another.
pub(crate) fn are_alike(group: &[TableEntry<'_>], top: &Record) -> bool
    ensures { IsTrue result ↔ ((one : Listed) → Contains (map listed group.now) one → RepeatsIfValid top.now one) }
{
    group.iter().all(|entry| repeats_if_valid(entry, top))
}

// Whether the entry's record, if it holds a valid one, does.
#[tactic(auto, unfolding(crate::specs::inner::Alike::RepeatsIfValid))]
fn repeats_if_valid(entry: &TableEntry<'_>, top: &Record) -> bool
    ensures { IsTrue result ↔ RepeatsIfValid top.now (listed entry.now) }
{
    match valid_record(entry) {
        None => true,
        Some(found) => repeats(found, top),
    }
}

// Whether the record does.
fn repeats(found: &Record, top: &Record) -> bool
    ensures { IsTrue result ↔ IsAtMost top.now.version found.now.version × (content_of found.now ≡ content_of top.now) }
{
    top.entry().version.is_at_most(&found.entry().version) && found.same_content(top)
}
