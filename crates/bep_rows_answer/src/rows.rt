//! What is known of a stream of rows so far.
ghost use Rattle.std.specs.Prelude.{◌≡◌, ◌++◌, ◌∷◌, [], List, IfErr, IfOk, OnOk};
ghost use Rattle.bep_document.specs.declared.error.DocError.TheVariants.{Refused};
ghost use Rattle.bep_row.specs.Fits.{Fits};
ghost use Rattle.bep_row.specs.declared.row.NameRow.{NameRow as NameRowOf};
ghost use Rattle.bep_rows_answer.specs.Auditor.{last_of};
ghost use Rattle.bep_rows_answer.specs.Rows.{IsFirstUnfit, IsHeaderRefusal, IsHeading, IsRowRefusal, IsSequenceFault, IsTaken};

use crate::auditor::Auditor;
use crate::header::read_header;
use bep_document::{DocError, DocFault, Fault};
use bep_json::DocVersion;
use bep_record::{DeviceId, FolderName, Name};
use bep_row::{NameRow, is_said_fit, row_fits};
use bep_row_document::read_row;
use bep_tables::{Cut, Share};
use bep_tree::Scratch;
use std::alloc::{AllocError, Global};

/// What is known of a stream of rows once some were read. It is as large for many rows as for one.
pub struct Rows {
    /// The version of the stream.
    pub version: DocVersion,
    /// The header.
    pub header: Cut,
    /// The name of the last row, if there was one.
    pub last: Option<(FolderName, Name)>,
    /// The memory that reading a row needs.
    pub scratch: Scratch,
}

// By hand: a caller's proof then sees one call where it lets go of one, and not each field (docs/developing.md).
impl Drop for Rows {
    fn drop(self) {
        let Rows {
            version: _,
            header: _,
            last: _,
            scratch: _,
        } = self;
    }
}

impl Rows {
    // No row yet, behind a header, which the auditor is given; or the fault for which this is refused.
    pub(crate) fn behind<A: Auditor>(
        alloc: Global,
        auditor: &mut A,
        line: &[u8],
    ) -> Result<Rows, DocError>
        ensures ok { IfOk result (IsHeading line.now) }
        ensures begun { IfOk result (λ rows. A.knows auditor.old rows.header [] auditor.new) }
        ensures err { IfErr result (IsHeaderRefusal line.now) }
    {
        let (version, header) = read_header(alloc, line)?;
        auditor.begin(alloc, &header)?;
        Ok(Rows {
            version,
            header,
            last: None,
            scratch: Scratch::new(alloc),
        })
    }

    // Takes the row of the next line, which the auditor is given, and gives its answer; or the fault for which the row is refused.
    pub(crate) fn take<A: Auditor>(
        &mut self,
        alloc: Global,
        auditor: &mut A,
        line: &[u8],
    ) -> Result<Vec<u8>, DocError>
        ensures ok { IfOk result (λ text. (row : NameRowOf) × IsTaken line.now row self.old self.new
            × ((asked : A) (rows : List NameRowOf) → self.old.last ≡ last_of None rows → A.knows asked self.old.header rows auditor.old
            → A.tells asked self.old.header row text.items × A.knows asked self.old.header (rows ++ row ∷ []) auditor.new)) }
        ensures err { IfErr result (IsRowRefusal line.now self.old) }
    {
        let row = read_row(
            alloc,
            &mut self.scratch,
            self.version,
            &self.header,
            &self.last,
            line,
        )?;
        if !row_fits(&self.header, &row) {
            return Err(DocError::Refused(unfit(alloc, &self.header, &row)?));
        }
        let text = auditor.take(alloc, &self.header, &row)?;
        let (folder, name) = (row.folder.copy(alloc)?, row.name.copy(alloc)?);
        self.last = Some((folder, name));
        Ok(text)
    }
}

// The fault of a row that doesn't fit the header: at the first device where what it says can't stand.
fn unfit(alloc: Global, header: &Cut, row: &NameRow) -> Result<DocFault, AllocError>
    requires { ¬ Fits header.now row.now }
    ensures { IfOk result (λ fault. IsSequenceFault header.now row.now (Refused fault)) }
{
    let device = first_unfit(row, header.shares(&row.folder));
    Ok(DocFault {
        fault: Fault::SequenceBad,
        folder: Some(row.folder.copy(alloc)?),
        device,
        name: Some(row.name.copy(alloc)?),
    })
}

// The first of these devices where what the row says can't stand.
fn first_unfit(row: &NameRow, shares: &[Share]) -> Option<DeviceId>
    ensures { IsFirstUnfit row.now shares.now result }
{
    for share in shares {
        if !is_said_fit(row, share) {
            return Some(share.device);
        }
    }
    None
}
