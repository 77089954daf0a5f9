//! A document is read and answered, and the answer written, whatever is asked of it.
ghost use Rattle.std.specs.Prelude.{List, ℕ, Option, IfOk, IfErr, IsUtf8};
ghost use Rattle.bep_answer.specs.Beside.{AreLines, IsTelling};
ghost use Rattle.bep_answer.specs.Exchange.{IsEndedEarly, IsWhole};

use bep_hints::{Hint, NotFound};
use bep_report::{ReportError, read_document, write_all};
use std::alloc::{AllocError, Global};
use std::io::{Read, Write};

/// What a person is told beside an answer.
#[derive(Drop)]
pub enum Beside {
    /// Where a refused document is at fault.
    Hint(Hint),
    /// That this was looked for and not found.
    NotFound(NotFound),
    /// Lines, as of the steps that were refused.
    Lines(String),
}

/// An answer, and beside it what a person is told, if there is anything.
pub type Hinted<T> = (T, Option<Beside>);

/// An outcome and the text for it, and what is told beside them.
pub type Answer<T> = Hinted<(T, Vec<u8>)>;

/// What can be asked of a document, whose answer is an outcome and a text.
pub trait Question<T: Drop>: Drop {
    ghost use Rattle.bep_answer.specs.declared.exchanging.Beside.{Beside};

    /// That this is the answer to these bytes.
    ghost says: { Self → List ℕ → T → List ℕ → Type 0 };

    /// That this may be told beside it.
    ghost tells: { Self → List ℕ → Option Beside → Type 0 };

    /// The answer to a document's bytes, which are given up once they are read.
    fn answer(self, alloc: Global, bytes: Vec<u8>) -> Result<Answer<T>, AllocError>
        ensures says { IfOk result (λ told. says self bytes.items told.0.0 told.0.1.items) }
        ensures tells { IfOk result (λ told. tells self bytes.items told.1) };
}

/// Reads a document, and writes the text of its answer. What is told beside it is for the caller to write.
pub fn exchange<T: Drop, Q: Question<T>, R: Read, W: Write>(
    alloc: Global,
    question: Q,
    reader: &mut R,
    writer: &mut W,
) -> Result<Hinted<T>, ReportError>
    ensures ok { IfOk result (λ told. IsWhole (Q.says question) (R.remaining reader.old) (R.remaining reader.new) (W.contents writer.old) (W.contents writer.new) told.0) }
    ensures err { IfErr result (IsEndedEarly (Q.says question) (R.remaining reader.old) (R.remaining reader.new) (W.contents writer.old) (W.contents writer.new)) }
    ensures beside { IfOk result (λ told. IsTelling (Q.tells question) (R.remaining reader.old) (R.remaining reader.new) told.1) }
{
    let bytes = read_document(alloc, reader)?;
    let ((outcome, text), beside) = question.answer(alloc, bytes)?;
    write_all(writer, text.as_slice())?;
    Ok((outcome, beside))
}

/// The lines, if there are any, to be told beside an answer.
pub fn lines_beside(told: Vec<u8>) -> Option<Beside>
    requires { IsUtf8 told.items }
    ensures { AreLines told.items result }
{
    if told.is_empty() {
        return None;
    }
    match String::from_utf8(told) {
        Ok(lines) => Some(Beside::Lines(lines)),
        Err(_) => unreachable!(),
    }
}
