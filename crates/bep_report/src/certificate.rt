//! The lines of a certificate. Each function appends to a text; it fails for memory alone, and then the text is as before.
ghost use Rattle.std.specs.Prelude.{◌≡◌};
ghost use Rattle.bep_report.specs.Certificate as spec;
ghost use Rattle.bep_lines.specs.Text.{AppendsWhole, piece_text};

use bep_audit::Certificate;
use bep_lines::{Piece, or_as_before, push_pieces};
use bep_model::Row;
use bep_record::Kind;
use std::alloc::AllocError;

/// Appends the certificate, a line a row: `<folder> <name> <device> <type> <present or deleted> <version>`, the version
/// as `1:2,3:1`, or `-` where it is empty.
pub fn push_certificate(text: &mut Vec<u8>, certificate: &Certificate) -> Result<(), AllocError>
    ensures { AppendsWhole result text.old.items text.new.items (spec.certificate_lines certificate.now) }
{
    let len = text.len();
    for row in certificate.rows() {
        let pushed = push_row(text, row);
        or_as_before(text, len, pushed)?;
    }
    Ok(())
}

/// Appends the certificate as `push_certificate` does, with one word more in each line: the record's block size.
pub fn push_certificate_2(text: &mut Vec<u8>, certificate: &Certificate) -> Result<(), AllocError>
    ensures { AppendsWhole result text.old.items text.new.items (spec.certificate_lines_2 certificate.now) }
{
    let len = text.len();
    for row in certificate.rows() {
        let pushed = push_row_2(text, row);
        or_as_before(text, len, pushed)?;
    }
    Ok(())
}

fn push_row(text: &mut Vec<u8>, row: &Row) -> Result<(), AllocError>
    ensures { AppendsWhole result text.old.items text.new.items (spec.row_line row.now) }
{
    let len = text.len();
    push_words(text, row)?;
    let pushed = push_pieces(text, &[Piece::Text("\n")]);
    or_as_before(text, len, pushed)
}

fn push_row_2(text: &mut Vec<u8>, row: &Row) -> Result<(), AllocError>
    ensures { AppendsWhole result text.old.items text.new.items (spec.row_line_2 row.now) }
{
    let len = text.len();
    push_words(text, row)?;
    let block_size = Piece::Number(u64::from(row.entry.entry().block_size));
    let pushed = push_pieces(text, &[Piece::Text(" "), block_size, Piece::Text("\n")]);
    or_as_before(text, len, pushed)
}

// Appends the words that each line of a row has.
fn push_words(text: &mut Vec<u8>, row: &Row) -> Result<(), AllocError>
    ensures { AppendsWhole result text.old.items text.new.items (spec.row_words row.now) }
{
    let len = text.len();
    let entry = row.entry.entry();
    let space = Piece::Text(" ");
    let pieces = [
        Piece::Text(row.folder.as_str()),
        space,
        Piece::Name(entry.name.as_bytes()),
        space,
        Piece::Number(row.device.number()),
        space,
        type_of(entry.kind),
        space,
        state_of(entry.deleted),
        space,
    ];
    push_pieces(text, &pieces)?;
    let pushed = push_version(text, entry.version.counters());
    or_as_before(text, len, pushed)
}

// The number by which the protocol tells the kind.
fn type_of(kind: Kind) -> Piece<'static>
    ensures { piece_text result ≡ spec.type_text kind }
{
    match kind {
        Kind::File => Piece::Text("0"),
        Kind::Directory => Piece::Text("1"),
        Kind::Symlink => Piece::Text("4"),
    }
}

// Whether the record is of a deletion.
fn state_of(deleted: bool) -> Piece<'static>
    ensures { piece_text result ≡ spec.state_text deleted }
{
    if deleted {
        Piece::Text("deleted")
    } else {
        Piece::Text("present")
    }
}

fn push_version(text: &mut Vec<u8>, counters: &[(u64, u64)]) -> Result<(), AllocError>
    ensures { AppendsWhole result text.old.items text.new.items (spec.version_text counters.now) }
{
    let [(id, value), more @ ..] = counters else {
        return push_pieces(text, &[Piece::Text("-")]);
    };
    let len = text.len();
    push_pieces(
        text,
        &[Piece::Number(*id), Piece::Text(":"), Piece::Number(*value)],
    )?;
    let pushed = push_further(text, more);
    or_as_before(text, len, pushed)
}

// Appends each of these counters after a comma.
fn push_further(text: &mut Vec<u8>, counters: &[(u64, u64)]) -> Result<(), AllocError>
    ensures { AppendsWhole result text.old.items text.new.items (spec.further_text counters.now) }
{
    let len = text.len();
    for counter in counters {
        let (id, value) = (Piece::Number(counter.0), Piece::Number(counter.1));
        let pushed = push_pieces(text, &[Piece::Text(","), id, Piece::Text(":"), value]);
        or_as_before(text, len, pushed)?;
    }
    Ok(())
}
