//! The rows of a stream are explained under the winners of their names.
ghost use Rattle.std.specs.Prelude.{◌≡◌, IfOk};
ghost use Rattle.bep_rows_answer.specs.UnderWinners.{EndsUnderWinners, KnowsStandings};
ghost use Rattle.bep_rows_explain.specs.Explained.{Explains, ExplainsFirm, ExplainsRow, ExplainsSettled};
ghost use Rattle.bep_tables.specs.Cut.{tables_of};

use bep_answer::{Firmness, Outcome};
use bep_explain::{explain_firm_under_winners, explain_under_winners};
use bep_lines::Form;
use bep_parts::documents_say_only;
use bep_row::{NameRow, cut_of};
use bep_rows_answer::{Aim, Auditor, RowsOutcome, UnderWinners};
use bep_tables::Cut;
use std::alloc::{AllocError, Global};

/// Explains each name that isn't what is asked, and says of all together whether they are. It is as large for many rows as for
/// one.
#[derive(Drop)]
pub struct Explaining {
    /// What is known of the rows.
    pub under: UnderWinners,
}

impl Explaining {
    /// Of a cut of which this is asked. No row was given yet.
    pub fn of(alloc: Global, aim: Aim) -> Self
        ensures { result.under.aim ≡ aim }
    {
        Explaining {
            under: UnderWinners::of(alloc, aim),
        }
    }
}

impl Auditor for Explaining {
    ghost tells = { λ asked. ExplainsRow asked.under.aim };

    ghost ends = { λ asked. EndsUnderWinners asked.under.aim };

    ghost knows = { λ asked header rows now. KnowsStandings asked.under.aim header rows now.under };

    fn begin(&mut self, alloc: Global, header: &Cut) -> Result<(), AllocError> {
        self.under.begin(alloc, header)
    }

    fn take(&mut self, alloc: Global, header: &Cut, row: &NameRow) -> Result<Vec<u8>, AllocError> {
        documents_say_only();
        let cut = cut_of(alloc, header, row)?;
        let text = explained(alloc, self.under.aim, &cut)?;
        let _first = self.under.take(alloc, header, row)?;
        Ok(text)
    }

    fn end(&self, alloc: Global) -> Result<(RowsOutcome, Vec<u8>), AllocError> {
        self.under.end(alloc)
    }
}

// All that keeps the cut from what is asked, with details; nothing where nothing does.
fn explained(alloc: Global, aim: Aim, cut: &Cut) -> Result<Vec<u8>, AllocError>
    ensures { IfOk result (λ text. Explains aim (tables_of cut.now) text.items) }
{
    match aim {
        Aim::Settled => explained_settled(alloc, cut),
        Aim::Firm => explained_firm(alloc, cut),
    }
}

fn explained_settled(alloc: Global, cut: &Cut) -> Result<Vec<u8>, AllocError>
    ensures { IfOk result (λ text. ExplainsSettled (tables_of cut.now) text.items) }
{
    let (outcome, text) = explain_under_winners(alloc, Form::Text, cut)?;
    match outcome {
        Outcome::Settled => Ok(Vec::new(alloc)),
        _ => Ok(text),
    }
}

fn explained_firm(alloc: Global, cut: &Cut) -> Result<Vec<u8>, AllocError>
    ensures { IfOk result (λ text. ExplainsFirm (tables_of cut.now) text.items) }
{
    let (firmness, text) = explain_firm_under_winners(alloc, Form::Text, cut)?;
    match firmness {
        Firmness::Firm => Ok(Vec::new(alloc)),
        _ => Ok(text),
    }
}
