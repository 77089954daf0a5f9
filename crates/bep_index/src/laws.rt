//! What follows from the definitions of indexes, batches and changes. Each function does nothing; its contract is the
//! law.
ghost use Rattle.bep_index.specs.Laws.{BatchesBringTheIndex, SamePointSameIndex, RecordsMakeAnIndex, RecordsAreFound, FoundIsOfBatchOrBefore, BatchIsFound, OthersAreKept, AmongIsContained, EarlierChangesDontFit, LastChangesAgree, PutsKeepAnIndex, ClearedIsView, ReplacedIsView, AmendedIsView};

/// The index doesn't change meanwhile. A view takes the first records after 0 in place of all that it had, and adds the
/// batches that follow, in order and without a gap. Then it holds after each batch exactly the sender's records up to
/// that batch's last sequence. So it is the index, once it is at the index's point.
pub fn batches_bring_the_index()
    ensures up_to { BatchesBringTheIndex }
    ensures whole { SamePointSameIndex }
{}

/// Records of different names, with numbers of their own, are an index, and each is found at its name.
pub fn records_make_an_index()
    ensures index { RecordsMakeAnIndex }
    ensures found { RecordsAreFound }
{}

/// Once all records of a batch were put at their names, each name has the batch's record, or what it had before where
/// none of the batch has the name.
pub fn batch_records_are_found()
    ensures found { FoundIsOfBatchOrBefore }
    ensures batch { BatchIsFound }
    ensures others { OthersAreKept }
    ensures among { AmongIsContained }
{}

/// An `Undo` is valid only until the index gives another number. All valid ones of an index are of one name.
pub fn undo_fits_the_last_change()
    ensures earlier { EarlierChangesDontFit }
    ensures one { LastChangesAgree }
{}

/// An index stays an index when a record is put and isn't refused.
pub fn puts_keep_an_index()
    ensures { PutsKeepAnIndex }
{}

/// A view stays a view when all is forgotten, and when it takes a batch and isn't refused.
pub fn changes_keep_a_view()
    ensures cleared { ClearedIsView }
    ensures replaced { ReplacedIsView }
    ensures amended { AmendedIsView }
{}
