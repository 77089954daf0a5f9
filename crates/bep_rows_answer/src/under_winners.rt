//! The rows of a stream are answered under the winners of their names.
ghost use Rattle.std.specs.Prelude.{◌≡◌, ◌++◌, IfOk};
ghost use Rattle.std.specs.List.{flat_map};
ghost use Rattle.bep_rows_answer.specs.Counts.{count_line};
ghost use Rattle.bep_rows_answer.specs.Lines.{verdict_line_of};
ghost use Rattle.bep_rows_answer.specs.UnderWinners.{EndsUnderWinners, KnowsStandings, TellsStanding};

use crate::auditor::Auditor;
use crate::counts::{FolderCount, counted, no_counts, push_counts};
use crate::lines::{push_standing, push_verdict};
use crate::outcome::RowsOutcome;
use bep_parts::{documents_say_only, verdict_by_parts};
use bep_record::Items;
use bep_row::NameRow;
use bep_rows::{Aim, Stream, rows_make_a_cut, standing_beside};
use bep_tables::Cut;
use std::alloc::{AllocError, Global};

/// Says of each name whether it is what is asked, and of all together. It is as large for many rows as for one.
pub struct UnderWinners {
    /// What is asked of the cut.
    pub aim: Aim,
    /// What is answered of the names so far.
    pub stream: Stream,
    /// How many names there are in each folder.
    pub counts: Items<FolderCount>,
}

// By hand: a caller's proof then sees one call where it lets go of one, and not each field (docs/developing.md).
impl Drop for UnderWinners {
    fn drop(self) {
        let UnderWinners {
            aim: _,
            stream: _,
            counts: _,
        } = self;
    }
}

impl UnderWinners {
    /// Of a cut of which this is asked. No row was given yet.
    pub fn of(alloc: Global, aim: Aim) -> Self
        ensures { result.aim ≡ aim }
    {
        UnderWinners {
            aim,
            stream: Stream::new(),
            counts: Items::new(Vec::new(alloc)),
        }
    }

    // The verdict and the counts.
    fn ending(&self, alloc: Global) -> Result<Vec<u8>, AllocError>
        ensures { IfOk result (λ text. text.items ≡ (verdict_line_of self.now.aim self.now.stream.standing ++ flat_map count_line self.now.counts)) }
    {
        let mut text = Vec::new(alloc);
        push_verdict(&mut text, self.aim, self.stream.standing())?;
        push_counts(&mut text, self.counts.as_slice())?;
        Ok(text)
    }
}

impl Auditor for UnderWinners {
    ghost tells = { λ asked. TellsStanding asked.aim };

    ghost ends = { λ asked. EndsUnderWinners asked.aim };

    ghost knows = { λ asked. KnowsStandings asked.aim };

    fn begin(&mut self, alloc: Global, header: &Cut) -> Result<(), AllocError> {
        let counts = no_counts(alloc, header.folders())?;
        self.counts = Items::new(counts);
        self.stream = Stream::new();
        Ok(())
    }

    fn take(&mut self, alloc: Global, header: &Cut, row: &NameRow) -> Result<Vec<u8>, AllocError> {
        documents_say_only();
        let here = standing_beside(alloc, self.aim, header, row)?;
        let mut text = Vec::new(alloc);
        push_standing(&mut text, &here)?;
        let counts = counted(alloc, self.counts.as_slice(), row)?;
        let (folder, name) = (row.folder.copy(alloc)?, row.name.copy(alloc)?);
        match self.stream.take(folder, name, here) {
            Ok(()) => {
                self.counts = Items::new(counts);
                Ok(text)
            }
            // No stream comes here: its names rise.
            Err(_) => Ok(text),
        }
    }

    fn end(&self, alloc: Global) -> Result<(RowsOutcome, Vec<u8>), AllocError> {
        rows_make_a_cut();
        verdict_by_parts();
        let text = self.ending(alloc)?;
        Ok((RowsOutcome::of(self.stream.standing()), text))
    }
}
