//! That each step of a replica does what it is for, where nothing stands in its way. Each function does nothing; its
//! contract is the law.
ghost use Rattle.bep_machine.specs.Effects.{EditPuts, RemoveTakes, ScanRaises, ScanMarks, WantedIsNewer, StartPullBegins, FinishAdopts, FinishKeepsCopy, FinishDrops, OverrideWins, RevertTakesBack};

use bep_record::{Vector, bump_exists, cut_is_of_one_length, merge_exists};

/// Where no call of the store fails, an edit puts its node at the name, a removal takes what stands there, and nothing
/// else changes.
pub fn users_change_files()
    ensures edit { EditPuts }
    ensures remove { RemoveTakes }
{}

/// A scan of a name that isn't clean records what is there, and that the device found it: with the device's counter raised,
/// or, in a receive-only folder, marked local-only.
pub fn scan_records()
    ensures raises { ScanRaises }
    ensures marks { ScanMarks }
{
    bump_exists();
}

/// Beside an own record that isn't local-only, a device wants only a record whose version isn't at most the own one.
pub fn wanted_is_newer()
    ensures { WantedIsNewer }
{}

/// The pull of a wanted record begins where there is room for one more, and nothing else changes.
pub fn start_pull_begins()
    ensures { StartPullBegins }
{}

/// A pull whose blocks all came ends with its target in the own index, under the merged version, and with the target's
/// file: the one that was there, where it has the target's content, else the blocks that came. An own file that loses
/// against a concurrent one is kept under the conflict name.
pub fn finish_adopts()
    ensures adopts { FinishAdopts }
    ensures keeps { FinishKeepsCopy }
{
    merge_exists();
    cut_is_of_one_length();
}

/// A pull whose target isn't wanted any more is given up, and nothing else changes.
pub fn finish_drops()
    ensures { FinishDrops }
{}

/// An override puts the device's own content above the record that it would choose. No other name changes.
pub fn override_wins()
    ensures { OverrideWins }
{
    merge_exists();
    bump_exists();
    Vector::merge_is_least();
    Vector::bump_is_above();
    Vector::below_goes_on();
}

/// A revert removes the local file, and leaves a deletion with an empty version. No other name changes.
pub fn revert_takes_back()
    ensures { RevertTakesBack }
{}
