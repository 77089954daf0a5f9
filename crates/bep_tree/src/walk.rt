//! Walking along a document's text, from value to value.
ghost use Rattle.std.specs.Prelude.{◌≡◌, ◌<◌, List, ◌∷◌, suc, length, None, Some, OnOk, IfErr, MatchResult, option_map};
ghost use Rattle.json.specs.Token.{Token as SpecToken};
ghost use Rattle.json.specs.Json.{read_key};
ghost use Rattle.json.specs.Reads.{token_of};
ghost use Rattle.serde_json.specs.Data.{Data, Items, Members, put};
ghost use Rattle.bep_tree.specs.declared.walk.WalkError.TheVariants.{Broken, Memory};
ghost use Rattle.bep_tree.specs.Walk.{Stands, StandItems, StandMembers, Reaches, Enters};

use crate::Tree;
use json::{Reader, Token};
use std::alloc::{AllocError, AllocFailed};

/// Why a walk goes no further.
#[derive(Clone, Copy, Debug, PartialEq, Eq)]
pub enum WalkError {
    /// The text is no JSON from here on.
    Broken,
    /// Memory ran out.
    Memory,
}

impl From<AllocError> for WalkError {
    ghost from_gives = { λ _ e. e ≡ Memory };

    fn from(_error: AllocError) -> WalkError {
        WalkError::Memory
    }
}

impl<T: Drop> From<AllocFailed<T>> for WalkError {
    ghost from_gives = { λ _ e. e ≡ Memory };

    fn from(_error: AllocFailed<T>) -> WalkError {
        WalkError::Memory
    }
}

/// What a value begins with.
#[derive(Debug, Drop)]
pub enum Entered<'a> {
    /// The bracket of a list, inside which lists and objects may nest as deep as the number says.
    List(usize),
    /// The brace of an object, likewise.
    Object(usize),
    /// It is no list and no object, and was read.
    Leaf(Tree<'a>),
}

/// Takes the beginning of the value that comes next. Lists and objects may nest `depth` deep in it.
pub fn enter<'a>(reader: &mut Reader<'a>, depth: usize) -> Result<Entered<'a>, WalkError>
    ensures value { (d : Data) (rest : List SpecToken) → Stands depth reader.old d rest
        → Reaches result (λ entered. Enters entered d reader.new rest) }
    ensures shorter { OnOk result (length reader.new < length reader.old) }
    ensures takes_no_memory { IfErr result (λ error. error ≡ Broken) }
{
    match reader.next() {
        Some(token) => begun_with(token, depth),
        None => Err(WalkError::Broken),
    }
}

// What a value begins with whose first token is this one.
fn begun_with<'a>(token: Token<'a>, depth: usize) -> Result<Entered<'a>, WalkError>
    ensures value { (d : Data) (next : List SpecToken) (rest : List SpecToken) → Stands depth (token_of token.entry ∷ next) d rest
        → Reaches result (λ entered. Enters entered d next rest) }
    ensures takes_no_memory { IfErr result (λ error. error ≡ Broken) }
{
    match token {
        Token::BeginArray => Ok(Entered::List(inside(depth)?)),
        Token::BeginObject => Ok(Entered::Object(inside(depth)?)),
        Token::String(text) => Ok(Entered::Leaf(Tree::String(text))),
        Token::Number(text) => Ok(Entered::Leaf(Tree::Number(text))),
        Token::Bool(flag) => Ok(Entered::Leaf(Tree::Bool(flag))),
        Token::Null => Ok(Entered::Leaf(Tree::Null)),
        Token::EndObject => Err(WalkError::Broken),
        Token::EndArray => Err(WalkError::Broken),
        Token::Key(_) => Err(WalkError::Broken),
        Token::Bad => Err(WalkError::Broken),
    }
}

// How deep lists and objects may nest inside one, where they may nest so deep in all.
fn inside(depth: usize) -> Result<usize, WalkError>
    ensures { MatchResult result (λ inner. depth ≡ suc inner) (λ error. (error ≡ WalkError.Broken) × (depth ≡ 0)) }
{
    if depth == 0 {
        Err(WalkError::Broken)
    } else {
        Ok(depth - 1)
    }
}

/// Passes the value that comes next.
pub fn pass(reader: &mut Reader<'_>, depth: usize) -> Result<(), WalkError>
    ensures value { (d : Data) (rest : List SpecToken) → Stands depth reader.old d rest
        → Reaches result (λ _. reader.new ≡ rest) }
    ensures shorter { OnOk result (length reader.new < length reader.old) }
    ensures takes_no_memory { IfErr result (λ error. error ≡ Broken) }
{
    match reader.skip_value(depth) {
        Ok(_) => Ok(()),
        Err(_) => Err(WalkError::Broken),
    }
}

/// Passes the items that are left of a list, and its bracket.
pub fn pass_items(reader: &mut Reader<'_>, depth: usize) -> Result<(), WalkError>
    ensures value { (ds : Items) (rest : List SpecToken) → StandItems depth reader.old ds rest
        → Reaches result (λ _. reader.new ≡ rest) }
    ensures shorter { OnOk result (length reader.new < length reader.old) }
    ensures takes_no_memory { IfErr result (λ error. error ≡ Broken) }
{
    while !reader.take_end_array() {
        pass(reader, depth)?;
    }
    Ok(())
}

/// The key that comes next in an object; none at its closing brace.
pub fn next_key<'a>(reader: &mut Reader<'a>) -> Result<Option<&'a str>, WalkError>
    ensures value { MatchResult result
        (λ key. read_key reader.old ≡ Some (option_map (λ s. s.now) key, reader.new))
        (λ error. (error ≡ WalkError.Broken) × (read_key reader.old ≡ None)) }
    ensures shorter { OnOk result (length reader.new < length reader.old) }
{
    match reader.next_key() {
        Ok(key) => Ok(key),
        Err(_) => Err(WalkError::Broken),
    }
}

/// Passes the members that are left of an object, and its brace.
pub fn pass_members(reader: &mut Reader<'_>, depth: usize) -> Result<(), WalkError>
    ensures value { (found : Members) (ms : Members) (rest : List SpecToken) → StandMembers depth reader.old found ms rest
        → Reaches result (λ _. reader.new ≡ rest) }
    ensures shorter { OnOk result (length reader.new < length reader.old) }
    ensures takes_no_memory { IfErr result (λ error. error ≡ Broken) }
{
    while let Some(_) = next_key(reader)? {
        pass(reader, depth)?;
    }
    Ok(())
}
