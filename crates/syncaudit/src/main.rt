//! `syncaudit`: says whether a Syncthing cluster is settled, or firm, and why not, at first or in full; whether it comes right
//! by itself; and makes the certificate that settled rests on.
#![tactic(auto)]

mod rows;
mod run;

use crate::run::run_given;
use bep_answer::StandardError;
pub use bep_answer::{
    Certified, Firmness, Outcome, certified_status_of, certify_text, check_text, firm_status_of,
    firm_text, status_of,
};
pub use bep_explain::explain_text;
pub use bep_lines::Form;
pub use bep_live::live_text;
pub use bep_play::run_text;
pub use bep_words::{Ending, Extent, Goal, Mode, Reasons, Under, mode_of};
use std::env;
use std::process::ExitCode;

fn main(rt: HostRuntime) -> ExitCode {
    let words = env::args(&rt);
    let mut person = StandardError::of(&rt);
    let status = run_given(&rt, &mut person, &mut rt.stdin(), &mut rt.stdout(), words);
    ExitCode::from(status)
}
