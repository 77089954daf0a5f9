//! What the cut of a document says, and that its winners can be written, as laws.
ghost use Rattle.bep_cut_document.specs.Told.{WinnersAreInRange};
ghost use Rattle.bep_cut_document.specs.Room.{WinnersHaveRoom, CutsOfDocumentsHaveRoom};
ghost use Rattle.bep_cut_document.specs.AsWritten.{SharingIsAsWritten, OwnIsAsWritten, NodeIsAsWritten, ViewedIsAsWritten, TargetIsAsWritten, FlyingIsAsWritten, UnlinkedIsQuiet};

use bep_document::readings_are_faultless;
use bep_index::records_make_an_index;
use bep_tables::Cut;

/// The cut that a document without faults writes down says what the document lists: who shares what, each device's own
/// records and nodes, what it knows of others and pulls, and what is on its way over each link; nothing else is on its way.
pub fn cut_is_as_written()
    ensures sharing { SharingIsAsWritten }
    ensures own { OwnIsAsWritten }
    ensures node { NodeIsAsWritten }
    ensures viewed { ViewedIsAsWritten }
    ensures target { TargetIsAsWritten }
    ensures flying { FlyingIsAsWritten }
    ensures unlinked { UnlinkedIsQuiet }
{
    records_make_an_index();
}

/// Rows that hold their names' winners have sequences that a document can have, and a document has room for them in each
/// version that has room for the cut.
pub fn winners_are_in_range(cut: &Cut)
    ensures range { WinnersAreInRange cut.now }
    ensures room { WinnersHaveRoom cut.now }
{
    cut.is_a_cut();
}

/// A document's version has room for the cut that is read of it.
pub fn cuts_of_documents_have_room()
    ensures { CutsOfDocumentsHaveRoom }
{
    records_make_an_index();
    readings_are_faultless();
}
