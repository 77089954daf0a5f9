//! A folder `docs` of two devices with the names `a`, `b` and `c`: what is answered of each by itself, of all together in a
//! stream, and of the whole at once. The wanted answers were worked out by hand.
use bep_cut_document::read_cut;
use bep_record::{FolderName, Name};
use bep_rows::{Aim, Standing, Stream, standing_of};
use std::alloc::Global;

// Both devices have the directory `a`, as it is on disk.
const A: &str = r#"{"version":1,"cut":{"folders":[{"folder":"docs","devices":[
    {"device":1,"kind":"send-receive","index_id":1,"max":3,
    "own":[{"name":"a","type":1,"modified_s":9,"modified_by":1,"version":[[1,1]],"sequence":1}],
    "store":[{"name":"a","type":1,"modified_s":9}]},
    {"device":2,"kind":"send-receive","index_id":2,"max":3,
    "own":[{"name":"a","type":1,"modified_s":9,"modified_by":1,"version":[[1,1]],"sequence":1}],
    "store":[{"name":"a","type":1,"modified_s":9}]}]}]}}"#;

// Device 2 has no record of `b`.
const B: &str = r#"{"version":1,"cut":{"folders":[{"folder":"docs","devices":[
    {"device":1,"kind":"send-receive","index_id":1,"max":3,
    "own":[{"name":"b","type":1,"modified_s":9,"modified_by":1,"version":[[1,1]],"sequence":2}],
    "store":[{"name":"b","type":1,"modified_s":9}]},
    {"device":2,"kind":"send-receive","index_id":2,"max":3}]}]}}"#;

// No device has a record of `c`, and one has it on disk.
const C: &str = r#"{"version":1,"cut":{"folders":[{"folder":"docs","devices":[
    {"device":1,"kind":"send-receive","index_id":1,"max":3},
    {"device":2,"kind":"send-receive","index_id":2,"max":3,
    "store":[{"name":"c","type":1,"modified_s":9}]}]}]}}"#;

// Both devices have the directory `d`, by versions of which neither is above the other; the record of device 2 is later.
const D: &str = r#"{"version":1,"cut":{"folders":[{"folder":"docs","devices":[
    {"device":1,"kind":"send-receive","index_id":1,"max":3,
    "own":[{"name":"d","type":1,"modified_s":8,"modified_by":1,"version":[[1,1]],"sequence":3}],
    "store":[{"name":"d","type":1,"modified_s":9}]},
    {"device":2,"kind":"send-receive","index_id":2,"max":3,
    "own":[{"name":"d","type":1,"modified_s":9,"modified_by":2,"version":[[2,1]],"sequence":3}],
    "store":[{"name":"d","type":1,"modified_s":9}]}]}]}}"#;

// The names `a` and `b`.
const AB: &str = r#"{"version":1,"cut":{"folders":[{"folder":"docs","devices":[
    {"device":1,"kind":"send-receive","index_id":1,"max":3,
    "own":[{"name":"a","type":1,"modified_s":9,"modified_by":1,"version":[[1,1]],"sequence":1},
    {"name":"b","type":1,"modified_s":9,"modified_by":1,"version":[[1,1]],"sequence":2}],
    "store":[{"name":"a","type":1,"modified_s":9},{"name":"b","type":1,"modified_s":9}]},
    {"device":2,"kind":"send-receive","index_id":2,"max":3,
    "own":[{"name":"a","type":1,"modified_s":9,"modified_by":1,"version":[[1,1]],"sequence":1}],
    "store":[{"name":"a","type":1,"modified_s":9}]}]}]}}"#;

// What is answered, in a line: the reason's place in the table is its own, the device 0 where there is none.
#[derive(Clone, Copy, Debug, PartialEq, Eq)]
enum Line {
    Met,
    NotAt(u8, u64),
    LooseAt(u8, u64),
    UnwonAt(u8),
    Failed,
}

// The first byte of the name.
fn letter(name: &Name) -> u8 {
    match name.as_bytes() {
        [first, ..] => *first,
        [] => 0,
    }
}

fn line_of(standing: &Standing) -> Line {
    match standing {
        Standing::Met => Line::Met,
        Standing::Not(_, _, name, Some(device)) => Line::NotAt(letter(name), device.number()),
        Standing::Not(_, _, name, None) => Line::NotAt(letter(name), 0),
        Standing::Loose(_, _, name, device) => Line::LooseAt(letter(name), device.number()),
        Standing::Unwon(_, name) => Line::UnwonAt(letter(name)),
    }
}

// What is answered of the cut of a document, of which this is asked.
fn answered_to(alloc: Global, aim: Aim, text: &str) -> Line {
    match read_cut(alloc, text.as_bytes()) {
        Ok((_, cut)) => match standing_of(alloc, aim, &cut) {
            Ok(standing) => line_of(&standing),
            Err(_) => Line::Failed,
        },
        Err(_) => Line::Failed,
    }
}

// The same where it is asked whether it is settled.
fn answered(alloc: Global, text: &str) -> Line {
    answered_to(alloc, Aim::Settled, text)
}

// Whether the name was taken, of which this document has all.
fn taken(alloc: Global, stream: &mut Stream, name: &[u8], text: &str) -> Option<bool> {
    taken_to(alloc, Aim::Settled, stream, name, text)
}

// The same where this is asked of the cut.
fn taken_to(alloc: Global, aim: Aim, stream: &mut Stream, name: &[u8], text: &str) -> Option<bool> {
    let (_, cut) = read_cut(alloc, text.as_bytes()).ok()?;
    let here = standing_of(alloc, aim, &cut).ok()?;
    let folder = FolderName::read(alloc, b"docs").ok()?;
    let name = Name::read(alloc, name).ok()?;
    Some(stream.take(folder, name, here).is_ok())
}

#[test]
fn each_name_is_answered(rt: HostRuntime) {
    let alloc = rt.alloc();
    assert_eq!(rt; answered(alloc, A), Line::Met);
    assert_eq!(rt; answered(alloc, B), Line::NotAt(b'b', 2));
    assert_eq!(rt; answered(alloc, C), Line::UnwonAt(b'c'));
    assert_eq!(rt; answered(alloc, D), Line::Met);
}

#[test]
fn each_name_is_answered_where_firm_is_asked_for(rt: HostRuntime) {
    let alloc = rt.alloc();
    assert_eq!(rt; answered_to(alloc, Aim::Firm, A), Line::Met);
    assert_eq!(rt; answered_to(alloc, Aim::Firm, B), Line::NotAt(b'b', 2));
    assert_eq!(rt; answered_to(alloc, Aim::Firm, C), Line::UnwonAt(b'c'));
    assert_eq!(rt; answered_to(alloc, Aim::Firm, D), Line::LooseAt(b'd', 1));
}

#[test]
fn what_is_loose_comes_behind_what_is_not_settled(rt: HostRuntime) {
    let alloc = rt.alloc();
    let mut stream = Stream::new();
    assert_eq!(rt;
        taken_to(alloc, Aim::Firm, &mut stream, b"a", D),
        Some(true)
    );
    assert_eq!(rt; line_of(stream.standing()), Line::LooseAt(b'd', 1));
    assert_eq!(rt;
        taken_to(alloc, Aim::Firm, &mut stream, b"b", B),
        Some(true)
    );
    assert_eq!(rt; line_of(stream.standing()), Line::NotAt(b'b', 2));
    assert_eq!(rt;
        taken_to(alloc, Aim::Firm, &mut stream, b"d", D),
        Some(true)
    );
    assert_eq!(rt; line_of(stream.standing()), Line::NotAt(b'b', 2));
}

#[test]
fn streams_answer_as_the_whole(rt: HostRuntime) {
    let alloc = rt.alloc();
    let mut stream = Stream::new();
    assert_eq!(rt; line_of(stream.standing()), Line::Met);
    assert_eq!(rt; taken(alloc, &mut stream, b"a", A), Some(true));
    assert_eq!(rt; line_of(stream.standing()), Line::Met);
    assert_eq!(rt; taken(alloc, &mut stream, b"b", B), Some(true));
    assert_eq!(rt; line_of(stream.standing()), answered(alloc, AB));
    assert_eq!(rt; taken(alloc, &mut stream, b"c", C), Some(true));
    assert_eq!(rt; line_of(stream.standing()), Line::UnwonAt(b'c'));
}

#[test]
fn names_rise_in_a_stream(rt: HostRuntime) {
    let alloc = rt.alloc();
    let mut stream = Stream::new();
    assert_eq!(rt; taken(alloc, &mut stream, b"b", B), Some(true));
    assert_eq!(rt; taken(alloc, &mut stream, b"b", C), Some(false));
    assert_eq!(rt; taken(alloc, &mut stream, b"a", C), Some(false));
    assert_eq!(rt; line_of(stream.standing()), Line::NotAt(b'b', 2));
}
