//! Block lists and their limits, with hashes from outside. The blocks of small files and of two blocks, and those that
//! hashes make, `tests/` shows.
use bep_blocks::{BlocksError, blocks, matches};
use bep_record::{Block, BlockSize, RecordError};
use std::alloc::Global;

// The SHA-256 of no bytes and of `abc` (FIPS 180-4).
const OF_NOTHING: [u8; 32] = [
    0xe3, 0xb0, 0xc4, 0x42, 0x98, 0xfc, 0x1c, 0x14, 0x9a, 0xfb, 0xf4, 0xc8, 0x99, 0x6f, 0xb9, 0x24,
    0x27, 0xae, 0x41, 0xe4, 0x64, 0x9b, 0x93, 0x4c, 0xa4, 0x95, 0x99, 0x1b, 0x78, 0x52, 0xb8, 0x55,
];

const OF_ABC: [u8; 32] = [
    0xba, 0x78, 0x16, 0xbf, 0x8f, 0x01, 0xcf, 0xea, 0x41, 0x41, 0x40, 0xde, 0x5d, 0xae, 0x22, 0x23,
    0xb0, 0x03, 0x61, 0xa3, 0x96, 0x17, 0x7a, 0x9c, 0xb4, 0x10, 0xff, 0x61, 0xf2, 0x00, 0x15, 0xad,
];

fn block(offset: u64, size: u32, hash: [u8; 32]) -> Block {
    Block { offset, size, hash }
}

// The block size of files of this length.
fn size_of(len: u64) -> Result<u32, RecordError> {
    let size = BlockSize::of_length(len)?;
    Ok(size.bytes())
}

#[test]
fn block_sizes_go_by_length(rt: HostRuntime) {
    assert_eq!(rt; [size_of(0), size_of(262143999)], [Ok(131072), Ok(131072)]);
    assert_eq!(rt;
        [size_of(262144000), size_of(524287999)],
        [Ok(262144), Ok(262144)]
    );
    assert_eq!(rt;
        [size_of(524288000), size_of(536870912)],
        [Ok(524288), Ok(524288)]
    );
    assert_eq!(rt; size_of(536870913), Err(RecordError::FileTooLarge));
    assert_eq!(rt; RecordError::FileTooLarge.number(), Some(112));
    assert_eq!(rt; BlocksError::FileTooLarge.number(), Some(112));
}

// The place and the size of each of the first two blocks of this many zero bytes, cut by the block size of that length,
// and how many there are.
fn cut(
    alloc: Global,
    len: usize,
    size: BlockSize,
) -> Result<((u64, u32), (u64, u32), usize), BlocksError> {
    let bytes = vec![in alloc; 0; len]?;
    let made = blocks(alloc, &bytes, size)?;
    match made.as_slice() {
        [first, second, ..] => Ok((
            (first.offset, first.size),
            (second.offset, second.size),
            made.as_slice().len(),
        )),
        _ => Ok(((0, 0), (0, 0), made.as_slice().len())),
    }
}

#[test]
fn blocks_have_the_size_that_is_handed(rt: HostRuntime) {
    let Ok(larger) = BlockSize::of_length(262144000) else {
        panic!(rt; "refused");
    };
    assert_eq!(rt;
        cut(rt.alloc(), 262145, larger),
        Ok(((0, 262144), (262144, 1), 2))
    );
    assert_eq!(rt;
        cut(rt.alloc(), 131073, BlockSize::base()),
        Ok(((0, 131072), (131072, 1), 2))
    );
    assert_eq!(rt;
        cut(rt.alloc(), 16777217, BlockSize::base()),
        Ok(((0, 131072), (131072, 131072), 129))
    );
}

#[test]
fn matches_only_whole_cuts(rt: HostRuntime) {
    let first = block(0, 3, OF_ABC);
    let last = block(3, 3, OF_ABC);
    let empty = block(6, 0, OF_NOTHING);
    let matching = [
        matches(b"abcabc", &[first, last]),
        matches(b"abcabc", &[first, block(3, 3, OF_NOTHING)]), // a wrong hash
        matches(b"abcxabc", &[first, block(4, 3, OF_ABC)]), // a gap
        matches(b"abcabc", &[first]), // the last piece is missing
        matches(b"abcabc", &[first, last, empty]), // an empty piece at the end
        matches(b"abcab", &[first, last]), // past the end
        matches(b"", &[]), // not even an empty piece
    ];
    let wanted = [true, false, false, false, false, false, false];
    assert_eq!(rt; matching, wanted);
}
