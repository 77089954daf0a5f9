//! What the entries of a cut are, as a law.
ghost use Rattle.bep_tables.specs.Said.{EntriesAreHeld, HoldersShare};

/// The entries of a cut are what its tables say that devices hold, and each is of a device that shares its folder.
pub fn entries_are_held()
    ensures held { EntriesAreHeld }
    ensures shares { HoldersShare }
{}
