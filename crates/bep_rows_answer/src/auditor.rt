//! Who answers the rows of a stream, one by one.
ghost use Rattle.std.specs.Prelude.{◌++◌, ◌∷◌, [], ℕ, List, IfOk, OnOk};
ghost use Rattle.bep_row.specs.Fits.{AreQuiet, Fits};
ghost use Rattle.bep_row.specs.declared.row.NameRow.{NameRow as NameRowOf};
ghost use Rattle.bep_tables.specs.declared.cut.CutParts.{CutParts};
ghost use Rattle.bep_rows_answer.specs.Auditor.{IsNextRow};
ghost use Rattle.bep_rows_answer.specs.declared.outcome.RowsOutcome.{RowsOutcome as RowsOutcomeOf};

use crate::outcome::RowsOutcome;
use bep_row::NameRow;
use bep_tables::Cut;
use std::alloc::{AllocError, Global};

/// Who is given the rows of a stream, one by one, and answers each; and all of them together, once no more come.
pub trait Auditor {
    /// That this is written to a row behind a header.
    ghost tells: { Self → CutParts → NameRowOf → List ℕ → Type 0 };

    /// That this is the outcome, and written behind the last of these rows.
    ghost ends: { Self → CutParts → List NameRowOf → RowsOutcomeOf → List ℕ → Type 0 };

    /// What is known once these rows were given to the first: it is the second then.
    ghost knows: { Self → CutParts → List NameRowOf → Self → Type 0 };

    /// Is given the header.
    fn begin(&mut self, alloc: Global, header: &Cut) -> Result<(), AllocError>
        ensures { OnOk result (knows self.old header.now [] self.new) };

    /// Is given the next row, which fits the header. The text of its answer, or want of memory.
    fn take(&mut self, alloc: Global, header: &Cut, row: &NameRow) -> Result<Vec<u8>, AllocError>
        requires { Fits header.now row.now }
        ensures { IfOk result (λ text. (asked : Self) (rows : List NameRowOf) → IsNextRow rows row.now → knows asked header.now rows self.old →
            tells asked header.now row.now text.items × knows asked header.now (rows ++ row.now ∷ []) self.new) };

    /// The outcome of all rows, and the text behind their answers; or want of memory.
    fn end(&self, alloc: Global) -> Result<(RowsOutcome, Vec<u8>), AllocError>
        ensures { IfOk result (λ told. (asked : Self) (header : CutParts) (rows : List NameRowOf) → AreQuiet header.links → knows asked header rows self.now →
            ends asked header rows told.0 told.1.items) };
}
