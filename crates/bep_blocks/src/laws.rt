//! What follows from the definitions of block lists. Each function does nothing; its contract is the law.
ghost use Rattle.bep_blocks.specs.Laws.{HashesTellBlocks, NothingHasItsHash, NothingIsOneBlock, OnlyPlainMatches, PlainIsCutWhole, PlainMatches};

/// What holds of plain block lists: a law, which does nothing when it runs.
///
/// A file without bytes has one block, with the hash of nothing. A plain list cuts its file whole and matches it, and
/// no other list that is cut by the same size matches it.
pub fn plain_blocks_match()
    ensures nothing { NothingIsOneBlock }
    ensures nothing_hash { NothingHasItsHash }
    ensures cut { PlainIsCutWhole }
    ensures matching { PlainMatches }
    ensures only { OnlyPlainMatches }
{}

/// A length and hashes have one block list: a law, which does nothing when it runs.
pub fn hashes_tell_blocks()
    ensures { HashesTellBlocks }
{}
