//! Bytes that are no names. What documents can say of records, nodes, names and targets, and the names that losing files get,
//! `tests/pieces.sh` shows.
use bep_record::{Name, RecordError};
use std::alloc::Global;

// Why the bytes are no name of a file.
fn error(alloc: Global, bytes: &[u8]) -> Option<RecordError> {
    Name::read(alloc, bytes).err()
}

#[test]
fn bytes_are_no_names(rt: HostRuntime) {
    // A NUL, what is no UTF-8, and half a surrogate.
    for bytes in [[b'a', 0, b'b'], [0xff, b'a', b'a'], [0xed, 0xa0, 0x80]] {
        assert_eq!(rt; error(rt.alloc(), &bytes), Some(RecordError::NameBad));
    }
}
