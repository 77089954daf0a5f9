//! The command line of the program, as clap is told it.
ghost use Rattle.std.specs.Prelude.{◌≡◌, IfOk, codes, false};
ghost use Rattle.clap.specs.Words.{app_of, new_app, rule_of};
ghost use Rattle.bep_words.specs.Mode.{IsCommand, audit_app, certify_app, explain_app, flag, program, rows_app, run_app, top_level};

use crate::help::{
    CERTIFY_HELP, CHECK_HELP, COMMANDS_HELP, CONVERGE_HELP, EXPLAIN_HELP, FIRM_HELP, ROWS_HELP,
    RUN_HELP,
};
use crate::release::RELEASE;
use crate::turns::turns_option;
use clap::{Arg, ArgAction, Command};
use std::alloc::{AllocError, Global};

// The command line of the program.
pub(crate) fn command<'a>(alloc: Global) -> Result<Command<'a>, AllocError>
    ensures { IfOk result (λ made. app_of made ≡ program) }
{
    let top = top_command(alloc)?;
    let check = audit_command(
        alloc,
        "check",
        "Audits the check document on standard input",
        "syncaudit check [--certify] < FILE",
        CHECK_HELP,
    )?;
    let checks = top.subcommand(check)?;
    let firm = audit_command(
        alloc,
        "firm",
        "Says whether the check document on standard input is firm too, and if not, why",
        "syncaudit firm [--certify] < FILE",
        FIRM_HELP,
    )?;
    let firms = checks.subcommand(firm)?;
    let converge = plain_command(
        alloc,
        "converge",
        "Says whether the cut on standard input comes right by itself, and if not, why",
        "syncaudit converge < FILE",
        CONVERGE_HELP,
    );
    let converges = firms.subcommand(converge)?;
    let certify = certify_command(alloc)?;
    let certifies = converges.subcommand(certify)?;
    let explain = explain_command(alloc)?;
    let explains = certifies.subcommand(explain)?;
    let rows = rows_command(alloc)?;
    let streams = explains.subcommand(rows)?;
    let run = run_command(alloc)?;
    streams.subcommand(run)
}

// The program's own level.
fn top_command<'a>(alloc: Global) -> Result<Command<'a>, AllocError>
    ensures { IfOk result (λ made. app_of made ≡ top_level) }
{
    let named = Command::new(alloc, "syncaudit").bin_name("syncaudit")?;
    Ok(
        named
            .version(RELEASE)
            .about("Says whether a Syncthing cluster is settled, or firm, and if not, why")
            .after_help(COMMANDS_HELP)
            .subcommand_required(true)
            .arg_required_else_help(true),
    )
}

// A subcommand without a flag: what it does, how it is called, and how its help ends.
fn plain_command<'a>(
    alloc: Global,
    name: &'a str,
    about: &'a str,
    usage: &'a str,
    end: &'a str,
) -> Command<'a>
    ensures { IsCommand (new_app name.now) result }
{
    Command::new(alloc, name)
        .about(about)
        .override_usage(usage)
        .after_help(end)
}

// A subcommand whose only flag says under which rows a cut is audited.
fn audit_command<'a>(
    alloc: Global,
    name: &'a str,
    about: &'a str,
    usage: &'a str,
    end: &'a str,
) -> Result<Command<'a>, AllocError>
    ensures { IfOk result (IsCommand (audit_app name.now)) }
{
    let certify = certify_flag(alloc);
    plain_command(alloc, name, about, usage, end).arg(certify)
}

fn certify_command<'a>(alloc: Global) -> Result<Command<'a>, AllocError>
    ensures { IfOk result (IsCommand certify_app) }
{
    let partial = flag(alloc, "partial", "Leaves out the names that have no winner");
    plain_command(
        alloc,
        "certify",
        "Writes the check document on standard input with the certificate of its cut",
        "syncaudit certify [--partial] < FILE",
        CERTIFY_HELP,
    )
    .arg(partial)
}

fn explain_command<'a>(alloc: Global) -> Result<Command<'a>, AllocError>
    ensures { IfOk result (IsCommand explain_app) }
{
    let json = flag(alloc, "json", "Writes one JSON document");
    let firm = flag(alloc, "firm", "Tells all that keeps it from being firm");
    let converge = flag(alloc, "converge", "Tells all that keeps it from converging");
    let certify = certify_flag(alloc);
    let with_json = plain_command(
        alloc,
        "explain",
        "Tells all that keeps the check document on standard input from being settled",
        "syncaudit explain [--json] [--firm] [--converge] [--certify] < FILE",
        EXPLAIN_HELP,
    )
    .arg(json)?;
    let with_firm = with_json.arg(firm)?;
    let with_converge = with_firm.arg(converge)?;
    with_converge.arg(certify)
}

fn rows_command<'a>(alloc: Global) -> Result<Command<'a>, AllocError>
    ensures { IfOk result (IsCommand rows_app) }
{
    let firm = flag(alloc, "firm", "Asks whether the cut is firm");
    let converge = flag(alloc, "converge", "Asks whether the cut converges");
    let explain = flag(alloc, "explain", "Tells all that fails at a name");
    let with_firm = plain_command(
        alloc,
        "rows",
        "Audits the stream of rows on standard input, in memory for one row",
        "syncaudit rows [--firm] [--converge] [--explain] < FILE",
        ROWS_HELP,
    )
    .arg(firm)?;
    let with_converge = with_firm.arg(converge)?;
    with_converge.arg(explain)
}

fn run_command<'a>(alloc: Global) -> Result<Command<'a>, AllocError>
    ensures { IfOk result (IsCommand run_app) }
{
    let document = flag(alloc, "document", "Writes the check document of the end");
    let turns = turns_option(alloc);
    let with_document = plain_command(
        alloc,
        "run",
        "Makes the steps of the scenario on standard input, and audits where they lead",
        "syncaudit run [--document] [--turns N] < FILE",
        RUN_HELP,
    )
    .arg(document)?;
    with_document.arg(turns)
}

// The flag that says under which rows a cut is audited.
fn certify_flag<'a>(alloc: Global) -> Arg<'a>
    ensures rule { rule_of result ≡ flag (codes "certify") }
    ensures local { result.global ≡ false }
{
    flag(
        alloc,
        "certify",
        "Audits the cut under the certificate that is made of it",
    )
}

// A flag of this name.
fn flag<'a>(alloc: Global, name: &'a str, help: &'a str) -> Arg<'a>
    ensures rule { rule_of result ≡ flag name.now }
    ensures local { result.global ≡ false }
{
    Arg::new(alloc, name)
        .long(name)
        .action(ArgAction::SetTrue)
        .help(help)
}
