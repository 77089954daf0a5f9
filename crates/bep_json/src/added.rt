//! JSON that is written part by part, so that no tree of the whole is made: members of objects, and the text of it all.
//! A caller writes an object so:
//!
//!     out.begin_object()?;
//!     add_number(out, "size", 5)?;
//!     add_text(out, "target", "a")?;
//!     out.end_object()?;
ghost use Rattle.std.specs.Prelude.{◌≡◌, [], OnOk, string_bytes};
ghost use Rattle.serde_json.specs.Data.{null, string, boolean};
ghost use Rattle.bep_json.specs.Added.{Adds, AddsMember, TellsWhatWasAdded};
ghost use Rattle.bep_json.specs.Written.{whole, signed};

use json::Writer;
use std::alloc::AllocError;

/// Writes a member with a number.
pub fn add_number(out: &mut Writer, name: &str, number: u64) -> Result<(), AllocError>
    ensures { OnOk result (AddsMember name.now (whole number) out.old out.new) }
{
    out.key(name)?;
    write_number(out, number)?;
    Ok(())
}

/// Writes a member with a signed number.
pub fn add_signed(out: &mut Writer, name: &str, number: i64) -> Result<(), AllocError>
    ensures { OnOk result (AddsMember name.now (signed number) out.old out.new) }
{
    out.key(name)?;
    write_signed(out, number)?;
    Ok(())
}

/// Writes a member with a flag.
pub fn add_flag(out: &mut Writer, name: &str, flag: bool) -> Result<(), AllocError>
    ensures { OnOk result (AddsMember name.now (boolean flag) out.old out.new) }
{
    out.key(name)?;
    write_flag(out, flag)?;
    Ok(())
}

/// Writes a member with a text.
pub fn add_text(out: &mut Writer, name: &str, text: &str) -> Result<(), AllocError>
    ensures { OnOk result (AddsMember name.now (string text.now) out.old out.new) }
{
    out.key(name)?;
    write_text(out, text)?;
    Ok(())
}

/// Writes a number.
pub fn write_number(out: &mut Writer, number: u64) -> Result<(), AllocError>
    ensures { OnOk result (Adds (whole number) out.old out.new) }
{
    out.u64(number)?;
    Ok(())
}

/// Writes a text.
pub fn write_text(out: &mut Writer, text: &str) -> Result<(), AllocError>
    ensures { OnOk result (Adds (string text.now) out.old out.new) }
{
    out.string(text)?;
    Ok(())
}

/// Writes null.
pub fn write_null(out: &mut Writer) -> Result<(), AllocError>
    ensures { OnOk result (Adds null out.old out.new) }
{
    out.null()?;
    Ok(())
}

fn write_signed(out: &mut Writer, number: i64) -> Result<(), AllocError>
    ensures { OnOk result (Adds (signed number) out.old out.new) }
{
    out.i64(number)?;
    Ok(())
}

fn write_flag(out: &mut Writer, flag: bool) -> Result<(), AllocError>
    ensures { OnOk result (Adds (boolean flag) out.old out.new) }
{
    out.boolean(flag)?;
    Ok(())
}

/// The text of what was written, where nothing stood before it.
pub fn text_of(out: Writer) -> String
    requires { out.before ≡ [] }
    ensures { TellsWhatWasAdded out (string_bytes result) }
{
    let bytes = out.into_inner();
    match String::from_utf8(bytes) {
        Ok(text) => text,
        Err(_) => unreachable!(),
    }
}
