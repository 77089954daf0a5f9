//! A look at a document's bytes that makes no tree of them: whether they are JSON, and how much memory their tree takes.
use crate::level::{Holder, Level, MAX_DEPTH};
use bep_tree::{Scratch, Tree};
use json::{Reader, Token};
use std::alloc::{AllocError, Global};

/// What is found in a text.
pub(crate) enum Survey {
    /// It is JSON, and its tree takes about so many bytes of memory.
    Whole(usize),
    /// It is no JSON: this many of its bytes are read before that shows.
    Broken(usize, Break),
}

/// How a text is no JSON.
#[derive(Clone, Copy, PartialEq, Eq)]
pub(crate) enum Break {
    /// It ends too early.
    Short,
    /// Its next bytes are no token, where a value is expected.
    NoValue,
    /// Its next bytes are no token, where a key is expected.
    NoKey,
    /// They are a token that may not stand there.
    Misplaced,
}

// What a walk over the tokens keeps.
#[derive(Drop)]
struct Walk {
    // what is open, the innermost last, and around all the text itself
    above: Vec<Level>,
    here: Level,
    // whether the key of the next value was read
    keyed: bool,
    memory: usize,
}

/// What is found in this text.
pub(crate) fn look_over(alloc: Global, text: &str) -> Result<Survey, AllocError> {
    let mut scratch = Scratch::new(alloc);
    let mut reader = Reader::new(text, &mut scratch)?;
    let mut walk = Walk {
        above: Vec::new(alloc),
        here: Level::new(Holder::Text),
        keyed: false,
        memory: 0,
    };
    // each token has a byte, and then comes the end
    for _ in 0..text.len().saturating_add(1) {
        let before = reader.offset();
        let Some(token) = reader.next() else {
            return Ok(walk.end(before));
        };
        if walk.is_whole() {
            return Ok(Survey::Broken(before, Break::Misplaced));
        }
        if !walk.take(&token)? {
            return Ok(Survey::Broken(reader.offset(), walk.broken_at(&token)));
        }
    }
    Ok(Survey::Broken(text.len(), Break::Short))
}

impl Walk {
    // Whether the one value of the text was read.
    fn is_whole(&self) -> bool {
        self.here.holder == Holder::Text && self.here.count > 0
    }

    // What is found where no token follows.
    fn end(&self, place: usize) -> Survey {
        if self.is_whole() {
            Survey::Whole(self.memory)
        } else {
            Survey::Broken(place, Break::Short)
        }
    }

    // Takes the next token. Whether it may stand there.
    fn take(&mut self, token: &Token<'_>) -> Result<bool, AllocError> {
        match *token {
            Token::Key(_) => Ok(self.take_key()),
            Token::Number(text) => Ok(self.take_value() && is_in_range(text)),
            Token::String(_) | Token::Bool(_) | Token::Null => Ok(self.take_value()),
            Token::BeginArray => self.open(Holder::List),
            Token::BeginObject => self.open(Holder::Object),
            Token::EndArray => Ok(self.close(Holder::List)),
            Token::EndObject => Ok(self.close(Holder::Object)),
            Token::Bad => Ok(false),
        }
    }

    fn take_key(&mut self) -> bool {
        let may = self.here.holder == Holder::Object && !self.keyed;
        self.keyed = true;
        may
    }

    fn take_value(&mut self) -> bool {
        let may = self.here.holder != Holder::Object || self.keyed;
        self.keyed = false;
        self.memory = self.memory.saturating_add(self.here.add());
        may
    }

    fn open(&mut self, holder: Holder) -> Result<bool, AllocError> {
        if !self.take_value() || self.above.len() >= MAX_DEPTH {
            return Ok(false);
        }
        let around = std::mem::replace(&mut self.here, Level::new(holder));
        self.above.push(around)?;
        Ok(true)
    }

    fn close(&mut self, holder: Holder) -> bool {
        if self.here.holder != holder || self.keyed {
            return false;
        }
        match self.above.pop() {
            Some(around) => {
                self.here = around;
                true
            }
            None => false,
        }
    }

    // How the text is no JSON where this token may not stand.
    fn broken_at(&self, token: &Token<'_>) -> Break {
        let wants_key = self.here.holder == Holder::Object && !self.keyed;
        match *token {
            Token::Bad if wants_key => Break::NoKey,
            Token::Bad => Break::NoValue,
            // a key, if a colon came
            Token::String(_) if wants_key => Break::Short,
            _ => Break::Misplaced,
        }
    }
}

// The most bytes of a number that is in range for certain, if it has no exponent.
const FEW_DIGITS: usize = 308;

// Whether the number isn't too large for a float.
fn is_in_range(text: &str) -> bool {
    let digits = text.as_bytes();
    if digits.len() <= FEW_DIGITS && !digits.contains(&b'e') && !digits.contains(&b'E') {
        return true;
    }
    let number: Tree<'_> = Tree::Number(text);
    match number.as_f64() {
        Some(number) => number.is_finite(),
        None => false,
    }
}
