//! What a line is made of, and how it comes to a text: as a whole, or not at all where memory runs out.
ghost use Rattle.std.specs.Prelude.{◌≡◌, ◌++◌, ◌<◌, take, OnOk, OnErr};
ghost use Rattle.std.specs.Char.{digit_char};
ghost use Rattle.std.specs.Fmt.{decimal};
ghost use Rattle.bep_lines.specs.Text as spec;
ghost use Rattle.bep_lines.specs.Text.{AppendsWhole};

use std::alloc::AllocError;

/// A piece of a line.
#[derive(Clone, Copy)]
pub enum Piece<'a> {
    /// A text as it is.
    Text(&'a str),
    /// A number in decimal.
    Number(u64),
    /// The name of a file.
    Name(&'a [u8]),
}

/// Appends these pieces, one after the other. Where memory runs out the text is as before.
pub fn push_pieces(text: &mut Vec<u8>, pieces: &[Piece<'_>]) -> Result<(), AllocError>
    ensures { AppendsWhole result text.old.items text.new.items (spec.pieces_text pieces.now) }
{
    let len = text.len();
    for piece in pieces {
        let pushed = push_piece(text, piece);
        or_as_before(text, len, pushed)?;
    }
    Ok(())
}

fn push_piece(text: &mut Vec<u8>, piece: &Piece<'_>) -> Result<(), AllocError>
    ensures { AppendsWhole result text.old.items text.new.items (spec.piece_text piece.now) }
{
    match *piece {
        Piece::Text(part) => text.extend_from_slice(part.as_bytes()),
        Piece::Number(number) => push_number(text, number),
        Piece::Name(name) => push_printed(text, name),
    }
}

/// What was answered, after the text was cut back to so many bytes if that is an error.
pub fn or_as_before(
    text: &mut Vec<u8>,
    len: usize,
    pushed: Result<(), AllocError>,
) -> Result<(), AllocError>
    ensures same { result ≡ pushed }
    ensures ok { OnOk result (text.new.items ≡ text.old.items) }
    ensures err { OnErr result (text.new.items ≡ take len text.old.items) }
{
    if pushed.is_err() {
        text.truncate(len);
    }
    pushed
}

// Appends a number in decimal.
#[tactic(auto, using(std::proofs::lemmas::Fmt::decimal_digit, std::proofs::lemmas::Fmt::decimal_step))]
fn push_number(text: &mut Vec<u8>, number: u64) -> Result<(), AllocError>
    ensures { AppendsWhole result text.old.items text.new.items (decimal number) }
{
    let last_digit = [b'0' + (number % 10) as u8];
    if number < 10 {
        return text.extend_from_slice(&last_digit);
    }
    let len = text.len();
    push_number(text, number / 10)?;
    let pushed = text.extend_from_slice(&last_digit);
    or_as_before(text, len, pushed)?;
    Ok(())
}

/// Appends a name as it is printed: each byte below 0x21, `\` and 0x7f is `\x` and its two hexadecimal digits in lower
/// case, every other byte stands as it is. Fails for memory alone, and then the text is as before.
pub fn push_printed(text: &mut Vec<u8>, name: &[u8]) -> Result<(), AllocError>
    ensures { AppendsWhole result text.old.items text.new.items (spec.printed name.now) }
{
    let len = text.len();
    for byte in name {
        let pushed = push_printed_byte(text, *byte);
        or_as_before(text, len, pushed)?;
    }
    Ok(())
}

// Appends a byte as it is printed.
fn push_printed_byte(text: &mut Vec<u8>, byte: u8) -> Result<(), AllocError>
    ensures { AppendsWhole result text.old.items text.new.items (spec.printed_byte byte) }
{
    if is_escaped(byte) {
        text.extend_from_slice(&[b'\\', b'x', hex_digit(byte / 16), hex_digit(byte % 16)])
    } else {
        text.extend_from_slice(&[byte])
    }
}

// Whether a byte isn't printed as it is.
fn is_escaped(byte: u8) -> bool
    ensures { result ≡ spec.is_escaped byte }
{
    byte < 0x21 || byte == b'\\' || byte == 0x7f
}

// The hexadecimal digit of a number below 16.
fn hex_digit(number: u8) -> u8
    requires { number < 16 }
    ensures { result ≡ digit_char number }
{
    if number < 10 {
        b'0' + number
    } else {
        b'a' + (number - 10)
    }
}
