//! Whether a device needs the record that it chose.
ghost use Rattle.std.specs.Prelude.{◌↔◌, IsTrue};
ghost use Rattle.std.specs.Option.{option_copied};
ghost use Rattle.bep_choice.specs.Need.{IsNeeded, NeedsBeside};

use crate::FolderKind;
use bep_record::Record;

/// Whether a device whose folder is of this kind, with this own record if there is one, needs the chosen record.
///
/// Without an own record: where the chosen one isn't a deletion, unless the folder only sends. Beside an own record:
/// where the chosen version isn't at most the own one; a folder that only sends needs it only if it has the own content
/// too. An own record that is invalid is local-only: a local change of a receive-only folder. Beside it, exactly if the
/// chosen record has its content. This project's profile, over Syncthing, 'Folder Types'.
pub fn needed(kind: FolderKind, own: Option<&Record>, chosen: &Record) -> bool
    ensures { IsTrue result ↔ IsNeeded kind (option_copied own.entry) chosen.now }
{
    match own {
        None => !chosen.entry().deleted && kind != FolderKind::SendOnly,
        Some(own) => needed_beside(kind, own, chosen),
    }
}

fn needed_beside(kind: FolderKind, own: &Record, chosen: &Record) -> bool
    ensures { IsTrue result ↔ NeedsBeside own.now.invalid kind own.now chosen.now }
{
    if own.entry().invalid {
        return chosen.same_content(own);
    }
    !chosen.entry().version.is_at_most(&own.entry().version)
        && (kind != FolderKind::SendOnly || chosen.same_content(own))
}
