//! What the tables of a device are, as a law.
ghost use Rattle.bep_peer.specs.Laws.{NoMoreTables, TablesAreFound};

/// The tables of a device have each of its folders under its name, and no others.
pub fn tables_are_found()
    ensures found { TablesAreFound }
    ensures only { NoMoreTables }
{}
