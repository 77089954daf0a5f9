//! Who is told what stands beside an answer.
ghost use Rattle.std.specs.Prelude.{List, Option};

use crate::exchanging::Beside;
use bep_report::ReportError;

/// What a person is told.
#[derive(Drop)]
pub enum Said {
    /// What stands beside an answer.
    Beside(Beside),
    /// Why there is no answer.
    Why(ReportError),
}

/// Somebody who is told what stands beside answers, or why there is none.
pub trait Person {
    ghost use Rattle.std.specs.Prelude.{None, ◌∷◌, []};
    ghost use Rattle.bep_answer.specs.declared.person.Said.{Said};
    ghost use Rattle.bep_answer.specs.Heard.{Hears};

    /// What was said so far, the last last, where that is known.
    ghost heard: { Self → Option (List Said) } = { λ _. None };

    /// Tells this, as far as telling succeeds.
    fn hear(&mut self, said: Said)
        ensures { Hears (heard self.old) (heard self.new) (said ∷ []) };
}

/// The person who reads standard error. A write there that fails is passed over: there is nobody to tell.
#[derive(Drop)]
pub struct StandardError<'a, P> {
    rt: &'a P,
}

impl<'a, P> StandardError<'a, P> {
    /// The one of this runtime.
    pub fn of(rt: &'a P) -> StandardError<'a, P> {
        StandardError { rt }
    }
}

impl<P: Eprint> Person for StandardError<'_, P> {
    fn hear(&mut self, said: Said) {
        match said {
            Said::Beside(beside) => print_beside(self.rt, &beside),
            Said::Why(error) => {
                let _ = eprintln!(self.rt; "{error}");
            }
        }
    }
}

// Prints what was answered beside an outcome. Lines have their ends.
fn print_beside<P: Eprint>(rt: &P, beside: &Beside) {
    match beside {
        Beside::Hint(hint) => {
            let sentence = hint.sentence();
            let _ = eprintln!(rt; "{sentence}");
        }
        Beside::NotFound(missed) => {
            let sentence = missed.sentence();
            let _ = eprintln!(rt; "{sentence}");
        }
        Beside::Lines(lines) => {
            let _ = eprint!(rt; "{lines}");
        }
    }
}
