//! A version vector of the most counters that this profile allows. How versions stand to each other, and what fewer counters
//! become, `tests/pieces.sh` shows.
use bep_record::{DeviceId, RecordError, Vector};

const SIXTEEN: [(u64, u64); 16] = [
    (1, 1),
    (2, 1),
    (3, 1),
    (4, 1),
    (5, 1),
    (6, 1),
    (7, 1),
    (8, 1),
    (9, 1),
    (10, 1),
    (11, 1),
    (12, 1),
    (13, 1),
    (14, 1),
    (15, 1),
    (16, 1),
];

// Why device 17 can't change the version, and why a version of its own can't be merged into it.
fn refused(version: &mut Vector) -> Option<[Option<RecordError>; 2]> {
    let changed = version.bump(DeviceId::read(17)?).err();
    let merged = version.merge(&Vector::read(&[(17, 1)])?).err();
    Some([changed, merged])
}

// The same of a version of 16 counters, where these are left.
fn refused_beside_sixteen() -> Option<[Option<RecordError>; 2]> {
    let mut version = Vector::read(&SIXTEEN)?;
    let refused = refused(&mut version)?;
    (version.counters() == SIXTEEN.as_slice()).then_some(refused)
}

#[test]
fn a_seventeenth_counter_is_refused(rt: HostRuntime) {
    let many = Some(RecordError::TooManyCounters);
    assert_eq!(rt; refused_beside_sixteen(), Some([many, many]));
}
