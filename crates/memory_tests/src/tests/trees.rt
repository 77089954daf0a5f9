//! `bep_json`.
use super::made::{name, node, record};
use bep_json::{
    DocVersion, Readable, Whole, add_flag, add_number, add_signed, add_text, text_of, write_hashes,
    write_node, write_null, write_number, write_record, write_text,
};
use bep_tree::{Scratch, Tree, get, json_text, read_tree};
use json::Writer;
use std::alloc::{AllocError, Global};

fn members(out: &mut Writer) -> Result<(), AllocError> {
    out.begin_object()?;
    add_flag(out, "deleted", false)?;
    add_number(out, "device", 1)?;
    add_signed(out, "modified_s", -1)?;
    add_text(out, "name", "a")?;
    out.end_object()
}

fn list(out: &mut Writer) -> Result<(), AllocError> {
    out.begin_array()?;
    write_null(out)?;
    write_number(out, 5)?;
    write_text(out, "b")?;
    members(out)?;
    out.end_array()
}

fn made(alloc: Global) -> Option<bool> {
    let mut out = Writer::new(Vec::new(alloc));
    list(&mut out).ok()?;
    let text = out.into_inner();
    let wanted = r#"[null,5,"b",{"deleted":false,"device":1,"modified_s":-1,"name":"a"}]"#;
    Some(text.as_slice() == wanted.as_bytes())
}

fn told(alloc: Global) -> Option<bool> {
    let mut out = Writer::new(Vec::new(alloc));
    write_text(&mut out, "b").ok()?;
    Some(text_of(out).as_str() == r#""b""#)
}

fn size(alloc: Global, tree: &Tree<'_>) -> Option<Whole<0, 9>> {
    Readable::read(alloc, DocVersion::One, get(tree, "size")?).ok()
}

fn read(alloc: Global) -> Option<u64> {
    let mut scratch = Scratch::new(alloc);
    let tree = read_tree(alloc, br#"{"size":5}"#, &mut scratch).ok()?;
    Some(size(alloc, &tree)?.number())
}

fn written(alloc: Global) -> Option<[bool; 3]> {
    let (record, name, node) = (record(alloc, 1)?, name(alloc)?, node(alloc)?);
    let mut out = Writer::new(Vec::new(alloc));
    Some([
        write_record(alloc, &mut out, &record).is_ok(),
        write_node(alloc, &mut out, &name, &node).is_ok(),
        write_hashes(alloc, &mut out, record.entry().blocks.as_slice()).is_ok(),
    ])
}

fn found(alloc: Global) -> Option<bool> {
    let mut scratch = Scratch::new(alloc);
    let (text, size) = json_text(br#"{"size":5}"#, "size", &mut scratch).ok()??;
    Some(text == r#"{"size":5}"# && size == Some(5))
}

#[test]
fn trees_find_memory(rt: HostRuntime) {
    assert!(rt; read(rt.alloc()) == Some(5));
    assert!(rt; made(rt.alloc()) == Some(true));
    assert!(rt; told(rt.alloc()) == Some(true));
    assert!(rt; found(rt.alloc()) == Some(true));
    assert!(rt; written(rt.alloc()) == Some([true; 3]));
}
