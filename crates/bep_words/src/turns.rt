//! How many turns the words ask threads to make.
ghost use Rattle.std.specs.Prelude.{◌≡◌, codes, false};
ghost use Rattle.clap.specs.Words.{first_value, found_of, rule_of, subcommand_rows_of};
ghost use Rattle.bep_words.specs.Turns.{number_in, number_of, turns_of, turns_option};

use clap::builder::ValueParser;
use clap::{Arg, ArgAction, ArgMatches};
use std::alloc::Global;

/// The most turns that a thread may be asked to make.
pub const MAX_TURNS: u32 = 1000000;

/// The option that says how many turns the threads make.
pub fn turns_option<'a>(alloc: Global) -> Arg<'a>
    ensures rule { rule_of result ≡ turns_option }
    ensures local { result.global ≡ false }
{
    Arg::new(alloc, "turns")
        .long("turns")
        .action(ArgAction::Set)
        .value_name("N")
        .value_parser(ValueParser::unsigned(0, u64::from(MAX_TURNS)))
        .help("Has threads run the cluster after the steps, with N turns each")
}

/// How many turns the subcommand's words ask for.
pub fn turns_of(matches: &ArgMatches<'_>) -> u32
    ensures { result ≡ turns_of (subcommand_rows_of matches.now) }
{
    match matches.subcommand() {
        Some((_, given)) => turns_given(given),
        None => 0,
    }
}

// How many turns these matches say; none where they don't say it.
fn turns_given(given: &ArgMatches<'_>) -> u32
    ensures { result ≡ number_in (first_value (found_of given.now) (codes "turns")) }
{
    match given.get_str("turns") {
        Some(value) => number_of(value),
        None => 0,
    }
}

// The number that the text says, up to the most turns. Of words that clap passes it is never above.
fn number_of(text: &str) -> u32
    ensures { result ≡ number_of text.now }
{
    text.parse().unwrap_or(0u32).min(MAX_TURNS)
}
