//! What follows from the definitions of version vectors and block lists. Each function does nothing; its contract is
//! the law.
ghost use Rattle.bep_record.specs.Laws.{MergeExists, MergeIsUnique, MergeIsCounted, BumpExists, BumpIsUnique, BumpIsCounted, CutIsOfOneLength, BlockSizesAreBounded};

/// Two well-formed vectors have one well-formed merge. It has a counter for each id that has one in either.
pub fn merge_exists()
    ensures exists { MergeExists }
    ensures unique { MergeIsUnique }
    ensures counted { MergeIsCounted }
{}

/// A counter below its greatest value can be raised by 1, in one way only. The vector gets one more counter exactly if
/// the id had none.
pub fn bump_exists()
    ensures exists { BumpExists }
    ensures unique { BumpIsUnique }
    ensures counted { BumpIsCounted }
{}

/// A block list cuts files of one length only.
pub fn cut_is_of_one_length()
    ensures { CutIsOfOneLength }
{}

/// Each block size is from 131072 to 16777216 bytes.
pub fn block_sizes_are_bounded()
    ensures { BlockSizesAreBounded }
{}
