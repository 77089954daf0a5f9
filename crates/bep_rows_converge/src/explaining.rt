//! The rows of a stream are explained where it is asked whether the cut converges.
ghost use Rattle.std.specs.Prelude.{◌≡◌, IfOk};
ghost use Rattle.bep_rows_converge.specs.Converging.{EndsConverging, KnowsHindrances};
ghost use Rattle.bep_rows_converge.specs.Explained.{ExplainsConverging, ExplainsHindrances};
ghost use Rattle.bep_tables.specs.Cut.{tables_of};

use crate::converging::Converging;
use bep_converge_answer::Convergence;
use bep_converge_explain::explain_convergence;
use bep_lines::Form;
use bep_parts::documents_say_only;
use bep_row::{NameRow, cut_of};
use bep_rows_answer::{Auditor, RowsOutcome};
use bep_tables::Cut;
use std::alloc::{AllocError, Global};

/// Explains each name that doesn't converge, and says of all together whether they do. It is as large for many rows as for one.
#[derive(Drop)]
pub struct ConvergeExplaining {
    /// What is known of the rows.
    pub under: Converging,
}

impl ConvergeExplaining {
    /// No row was given yet.
    pub fn new(alloc: Global) -> Self {
        ConvergeExplaining {
            under: Converging::new(alloc),
        }
    }
}

impl Auditor for ConvergeExplaining {
    ghost tells = { λ _. ExplainsHindrances };

    ghost ends = { λ _. EndsConverging };

    ghost knows = { λ _ header rows now. KnowsHindrances header rows now.under };

    fn begin(&mut self, alloc: Global, header: &Cut) -> Result<(), AllocError> {
        self.under.begin(alloc, header)
    }

    fn take(&mut self, alloc: Global, header: &Cut, row: &NameRow) -> Result<Vec<u8>, AllocError> {
        documents_say_only();
        let cut = cut_of(alloc, header, row)?;
        let text = explained(alloc, &cut)?;
        let _first = self.under.take(alloc, header, row)?;
        Ok(text)
    }

    fn end(&self, alloc: Global) -> Result<(RowsOutcome, Vec<u8>), AllocError> {
        self.under.end(alloc)
    }
}

// All that keeps the cut from converging, with details; nothing where nothing does.
fn explained(alloc: Global, cut: &Cut) -> Result<Vec<u8>, AllocError>
    ensures { IfOk result (λ text. ExplainsConverging (tables_of cut.now) text.items) }
{
    let (convergence, text) = explain_convergence(alloc, Form::Text, cut)?;
    match convergence {
        Convergence::Converging => Ok(Vec::new(alloc)),
        _ => Ok(text),
    }
}
