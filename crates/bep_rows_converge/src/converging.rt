//! The rows of a stream are answered where it is asked whether the cut converges.
ghost use Rattle.std.specs.Prelude.{◌≡◌, IfOk, map};
ghost use Rattle.bep_converge_answer.specs.Lines.{converge_report_text};
ghost use Rattle.bep_rows_converge.specs.Converging.{EndsConverging, KnowsHindrances, TellsHindrance, outcome_of};
ghost use Rattle.bep_rows_converge.specs.Pairs.{pairs_shown};
ghost use Rattle.bep_rows_converge.specs.Standing.{verdict_of};
ghost use Rattle.bep_rows_converge.specs.declared.standing.ConvergeStanding.TheVariants as standings;

use crate::pairs::{FolderPairs, lent, no_pairs, with_more};
use crate::standing::{ConvergeStanding, push_hindrance, standing_of};
use bep_converge_answer::{push_convergence, push_progress};
use bep_converge_check::progress_of;
use bep_converge_parts::converge_verdict_by_parts;
use bep_parts::documents_say_only;
use bep_record::Items;
use bep_row::{NameRow, cut_of};
use bep_rows::rows_make_a_cut;
use bep_rows_answer::{Auditor, RowsOutcome};
use bep_tables::{Cut, Table};
use std::alloc::{AllocError, Global};
use std::mem;

/// Says of each name whether it converges, and of all together. It is as large for many rows as for one.
pub struct Converging {
    /// What is answered of the names so far.
    pub standing: ConvergeStanding,
    /// How far the names of each folder have come.
    pub pairs: Items<FolderPairs>,
}

// By hand: a caller's proof then sees one call where it lets go of one, and not each field (docs/developing.md).
impl Drop for Converging {
    fn drop(self) {
        let Converging {
            standing: _,
            pairs: _,
        } = self;
    }
}

impl Converging {
    /// No row was given yet.
    pub fn new(alloc: Global) -> Self {
        Converging {
            standing: ConvergeStanding::Converging,
            pairs: Items::new(Vec::new(alloc)),
        }
    }

    // The verdict, and how far the names of each folder have come.
    fn ending(&self, alloc: Global) -> Result<Vec<u8>, AllocError>
        ensures { IfOk result (λ text. text.items ≡ converge_report_text (verdict_of self.now.standing) (map pairs_shown self.now.pairs)) }
    {
        let mut text = Vec::new(alloc);
        let verdict = self.standing.verdict();
        push_convergence(&mut text, &verdict)?;
        let folders = lent(alloc, self.pairs.as_slice())?;
        push_progress(&mut text, folders.as_slice())?;
        Ok(text)
    }
}

impl Auditor for Converging {
    ghost tells = { λ _. TellsHindrance };

    ghost ends = { λ _. EndsConverging };

    ghost knows = { λ _. KnowsHindrances };

    fn begin(&mut self, alloc: Global, header: &Cut) -> Result<(), AllocError> {
        let pairs = no_pairs(alloc, header.folders())?;
        self.pairs = Items::new(pairs);
        self.standing = ConvergeStanding::Converging;
        Ok(())
    }

    fn take(&mut self, alloc: Global, header: &Cut, row: &NameRow) -> Result<Vec<u8>, AllocError> {
        documents_say_only();
        let cut = cut_of(alloc, header, row)?;
        let table = Table::of(alloc, &cut)?;
        let here = standing_of(alloc, &cut, &table)?;
        let mut text = Vec::new(alloc);
        push_hindrance(&mut text, &here)?;
        let progress = progress_of(&cut, &table, &row.folder);
        let pairs = with_more(alloc, self.pairs.as_slice(), &progress)?;
        let before = mem::replace(&mut self.standing, ConvergeStanding::Converging);
        self.standing = before.joined(here);
        self.pairs = Items::new(pairs);
        Ok(text)
    }

    fn end(&self, alloc: Global) -> Result<(RowsOutcome, Vec<u8>), AllocError> {
        rows_make_a_cut();
        converge_verdict_by_parts();
        let text = self.ending(alloc)?;
        Ok((outcome_of(&self.standing), text))
    }
}

// The outcome of what is answered of all names.
fn outcome_of(standing: &ConvergeStanding) -> RowsOutcome
    ensures { result ≡ outcome_of (verdict_of standing.now) }
{
    match standing {
        ConvergeStanding::Converging => RowsOutcome::Met,
        ConvergeStanding::Not(..) => RowsOutcome::NotMet,
    }
}
