//! What the words of the command line ask for.
ghost use Rattle.std.specs.Prelude.{◌≡◌, IfOk, map};
ghost use Rattle.clap.specs.Words.{FailsBy, fault_of, first_value, found_of, subcommand_rows_of};
ghost use Rattle.bep_words.specs.Mode.{Asks, FaultlessWordsAsk, MakesFewTurns, ending_of, extent_of, form_of, goal_of, is_set, is_true, program, reasons_of, under_of};

use crate::command::command;
use crate::turns::turns_of;
use bep_lines::Form;
use clap::{ArgMatches, Error};
use std::alloc::Global;
use std::convert::AsStr;

/// What the program is asked to do.
#[derive(Clone, Copy, Debug, PartialEq, Eq)]
pub enum Mode {
    /// Audit the check document that comes on standard input, under these rows.
    Check(Under),
    /// Ask whether the check document that comes on standard input is firm, under these rows.
    Firm(Under),
    /// Ask whether the cut that comes on standard input converges.
    Converge,
    /// Write the cut that comes on standard input as a check document, with the winners of these names.
    Certify(Extent),
    /// Tell all that keeps the check document that comes on standard input from this, under these rows, in this form.
    Explain(Goal, Under, Form),
    /// Ask whether the stream of rows that comes on standard input is this, settled and firm under the winners of its names, and tell
    /// these of the reasons for which a name isn't.
    Rows(Goal, Reasons),
    /// Make the steps of the scenario that comes on standard input, have threads run the cluster for so many turns each,
    /// and write this of where that leads.
    Run(Ending, u32),
}

/// Under which rows a cut is audited.
#[derive(Clone, Copy, Debug, PartialEq, Eq)]
pub enum Under {
    /// Under those of the document's certificate.
    Given,
    /// Under the winners of its names, as `certify` writes them.
    Winners,
}

/// Of which known names a certificate has rows.
#[derive(Clone, Copy, Debug, PartialEq, Eq)]
pub enum Extent {
    /// Of all, or there is no certificate.
    All,
    /// Of those that have a winner.
    Won,
}

/// What a check document may be kept from, and what a stream of rows may be.
#[derive(Clone, Copy, Debug, PartialEq, Eq)]
pub enum Goal {
    /// Being settled.
    Settled,
    /// Being firm.
    Firm,
    /// Converging, for which no certificate is looked at, nor are winners.
    Converging,
}

/// Which of the reasons are told that fail at a name.
#[derive(Clone, Copy, Debug, PartialEq, Eq)]
pub enum Reasons {
    /// The first.
    First,
    /// All, with details.
    All,
}

/// What is written of the cut to which a scenario leads.
#[derive(Clone, Copy, Debug, PartialEq, Eq)]
pub enum Ending {
    /// The refused steps, the report and the certificate.
    Report,
    /// The check document.
    Document,
}

/// What the words ask for, of which the first is the program's name.
///
/// Refuses what clap refuses: words that the program doesn't know, none at all, and those that ask for help or for the
/// version. The error is clap's, and its text is for the user.
pub fn mode_of<'a, S: AsStr>(alloc: Global, words: &'a [S]) -> Result<Mode, Error>
    ensures asked { IfOk result (Asks (map S.text words.entry.now)) }
    ensures few { IfOk result MakesFewTurns }
    ensures faults { FailsBy (fault_of program (map S.text words.entry.now)) result }
{
    let matches = command(alloc)?.try_get_matches_from(words)?;
    match matches.subcommand_name() {
        Some("check") => Ok(Mode::Check(under_of(&matches))),
        Some("firm") => Ok(Mode::Firm(under_of(&matches))),
        Some("converge") => Ok(Mode::Converge),
        Some("certify") => Ok(Mode::Certify(extent_of(&matches))),
        Some("explain") => Ok(Mode::Explain(
            goal_of(&matches),
            under_of(&matches),
            form_of(&matches),
        )),
        Some("rows") => Ok(Mode::Rows(goal_of(&matches), reasons_of(&matches))),
        Some("run") => Ok(Mode::Run(ending_of(&matches), turns_of(&matches))),
        _ => unreachable!(),
    }
}

/// Words in which clap finds nothing at fault ask for a mode.
pub fn faultless_words_ask()
    ensures { FaultlessWordsAsk }
{}

// The form that the subcommand's words ask for.
fn form_of(matches: &ArgMatches<'_>) -> Form
    ensures { result ≡ form_of (subcommand_rows_of matches.now) }
{
    if is_set(matches, "json") {
        Form::Json
    } else {
        Form::Text
    }
}

// Under which rows the subcommand's words ask for an audit.
fn under_of(matches: &ArgMatches<'_>) -> Under
    ensures { result ≡ under_of (subcommand_rows_of matches.now) }
{
    if is_set(matches, "certify") {
        Under::Winners
    } else {
        Under::Given
    }
}

// Of which names the subcommand's words ask for rows.
fn extent_of(matches: &ArgMatches<'_>) -> Extent
    ensures { result ≡ extent_of (subcommand_rows_of matches.now) }
{
    if is_set(matches, "partial") {
        Extent::Won
    } else {
        Extent::All
    }
}

// What the subcommand's words ask for: what a document is kept from, or a stream of rows may be.
fn goal_of(matches: &ArgMatches<'_>) -> Goal
    ensures { result ≡ goal_of (subcommand_rows_of matches.now) }
{
    if is_set(matches, "converge") {
        Goal::Converging
    } else if is_set(matches, "firm") {
        Goal::Firm
    } else {
        Goal::Settled
    }
}

// Which reasons the subcommand's words ask for.
fn reasons_of(matches: &ArgMatches<'_>) -> Reasons
    ensures { result ≡ reasons_of (subcommand_rows_of matches.now) }
{
    if is_set(matches, "explain") {
        Reasons::All
    } else {
        Reasons::First
    }
}

// What of a scenario's end the subcommand's words ask for.
fn ending_of(matches: &ArgMatches<'_>) -> Ending
    ensures { result ≡ ending_of (subcommand_rows_of matches.now) }
{
    if is_set(matches, "document") {
        Ending::Document
    } else {
        Ending::Report
    }
}

// Whether the subcommand's words set this flag.
fn is_set(matches: &ArgMatches<'_>, name: &str) -> bool
    ensures { result ≡ is_set name.now (subcommand_rows_of matches.now) }
{
    match matches.subcommand() {
        Some((_, given)) => is_given(given, name),
        None => false,
    }
}

// Whether these matches set the flag.
fn is_given(given: &ArgMatches<'_>, name: &str) -> bool
    ensures { result ≡ is_true (first_value (found_of given.now) name.now) }
{
    match given.get_str(name) {
        Some(value) => value == "true",
        None => false,
    }
}
