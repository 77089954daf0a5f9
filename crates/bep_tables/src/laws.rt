//! What the tables and the known names of a cut are, as laws.
ghost use Rattle.bep_tables.specs.Laws.{CutSays, NamesAreKnown, CutIsFinite};

/// The tables of a cut are what its folders and devices have.
pub fn cut_says()
    ensures { CutSays }
{}

/// The known names of a folder are those that its devices recorded, hold, know of others or pull, and those on their way
/// to them, so they are finitely many.
pub fn names_are_known()
    ensures known { NamesAreKnown }
    ensures finite { CutIsFinite }
{}
