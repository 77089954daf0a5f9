//! What the words ask for, or why they aren't followed.
ghost use Rattle.std.specs.Prelude.{◌≡◌, [], IfErr, IfOk, map};
ghost use Rattle.clap.specs.Words.{fault_of};
ghost use Rattle.bep_words.specs.Mode.{Asks, program};
ghost use Rattle.bep_words.specs.Told as spec;
ghost use Rattle.bep_words.specs.declared.told.Unfollowed.TheVariants.{Memory};

use crate::mode::{Mode, mode_of};
use clap::Error;
use clap::error::ErrorKind;
use std::convert::AsStr;

/// Why the words aren't followed.
#[derive(Clone, Copy, Debug, PartialEq, Eq)]
pub enum Unfollowed {
    /// They aren't understood, or ask for help or for the version.
    Usage,
    /// Memory ran out.
    Memory,
}

/// What the words ask for. If clap refuses them, its text tells why on standard error.
///
/// Words in which something is at fault are never followed, nor are those that ask for help or for the version. All
/// others are, unless memory runs out.
pub fn mode_told<P: AllocGlobal + Eprint, S: AsStr>(rt: &P, words: &[S]) -> Result<Mode, Unfollowed>
    ensures asked { IfOk result (Asks (map S.text words.entry.now)) }
    ensures faultless { IfOk result (λ _. fault_of program (map S.text words.entry.now) ≡ []) }
    ensures memory { fault_of program (map S.text words.entry.now) ≡ [] → IfErr result (λ why. why ≡ Memory) }
{
    tell(rt, mode_of(rt.alloc(), words))
}

/// Why the words with this error aren't followed. It is memory only if the error is want of memory.
pub fn why_of(error: &Error) -> Unfollowed
    ensures { result ≡ spec.why_of error.now }
{
    match error.kind() {
        ErrorKind::OutOfMemory => Unfollowed::Memory,
        _ => Unfollowed::Usage,
    }
}

// What clap answers, after the text of its error is told on standard error; want of memory is told by the caller.
fn tell<P: Eprint>(rt: &P, answer: Result<Mode, Error>) -> Result<Mode, Unfollowed>
    ensures { result ≡ spec.told_of answer }
{
    match answer {
        Ok(mode) => Ok(mode),
        Err(error) => {
            let why = why_of(&error);
            if why == Unfollowed::Usage {
                let _ = eprint!(rt; "{error}");
            }
            Err(why)
        }
    }
}
