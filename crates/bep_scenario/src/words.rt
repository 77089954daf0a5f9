//! The words by which scenarios name steps.
ghost use Rattle.std.specs.Prelude.{◌≡◌, ◌<◌, List, length, OnOk, IfErr};
ghost use Rattle.json.specs.Token.{Token as SpecToken};
ghost use Rattle.serde_json.specs.Data.{Data};
ghost use Rattle.bep_tree.specs.View.{view};
ghost use Rattle.bep_tree.specs.declared.walk.WalkError.TheVariants.{Broken};
ghost use Rattle.bep_tree.specs.Walk.{Stands, Reaches};
ghost use Rattle.bep_scenario.specs.Words.{word_named, read_word};

use bep_json::enter_leaf;
use bep_tree::{Reader, Tree, WalkError, as_str};

/// A step of a device at a name of a folder.
#[derive(Clone, Copy, Debug, PartialEq, Eq)]
pub(crate) enum NameWord {
    Remove,
    Scan,
    Override,
    Revert,
    Pull,
    Finish,
}

/// A step that names two devices.
#[derive(Clone, Copy, Debug, PartialEq, Eq)]
pub(crate) enum PairWord {
    Connect,
    Lose,
    Begin,
    Deliver,
}

/// A step, by its word.
#[derive(Clone, Copy, Debug, PartialEq, Eq)]
pub(crate) enum Word {
    Edit,
    OfName(NameWord),
    OfPair(PairWord),
    Announce,
    Ask,
    Restart,
    Reset,
}

// Takes the value that comes next, and tells which word it is, if it is one.
pub(crate) fn take_word(reader: &mut Reader<'_>, depth: usize) -> Result<Option<Word>, WalkError>
    ensures value { (d : Data) (rest : List SpecToken) → Stands depth reader.old d rest
        → Reaches result (λ word. (word ≡ read_word d) × (reader.new ≡ rest)) }
    ensures shorter { OnOk result (length reader.new < length reader.old) }
    ensures takes_no_memory { IfErr result (λ error. error ≡ Broken) }
{
    match enter_leaf(reader, depth)? {
        Some(tree) => Ok(word_of(&tree)),
        None => Ok(None),
    }
}

// The word that the tree is, if it is one.
#[tactic(auto, unfolding(crate::specs::Words::read_word))]
fn word_of(value: &Tree<'_>) -> Option<Word>
    ensures { result ≡ read_word (view value.now) }
{
    match as_str(value) {
        Some(text) => word_named(text),
        None => None,
    }
}

#[tactic(auto, unfolding(crate::specs::Words::word_named))]
fn word_named(text: &str) -> Option<Word>
    ensures { result ≡ word_named text.now }
{
    match text {
        "remove" => Some(Word::OfName(NameWord::Remove)),
        "scan" => Some(Word::OfName(NameWord::Scan)),
        "override" => Some(Word::OfName(NameWord::Override)),
        "revert" => Some(Word::OfName(NameWord::Revert)),
        "pull" => Some(Word::OfName(NameWord::Pull)),
        "finish" => Some(Word::OfName(NameWord::Finish)),
        "connect" => Some(Word::OfPair(PairWord::Connect)),
        "lose" => Some(Word::OfPair(PairWord::Lose)),
        "begin" => Some(Word::OfPair(PairWord::Begin)),
        "deliver" => Some(Word::OfPair(PairWord::Deliver)),
        "edit" => Some(Word::Edit),
        "announce" => Some(Word::Announce),
        "ask" => Some(Word::Ask),
        "restart" => Some(Word::Restart),
        "reset" => Some(Word::Reset),
        _ => None,
    }
}
