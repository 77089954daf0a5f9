//! A refusal as JSON.
ghost use Rattle.std.specs.Prelude.{◌≡◌, IfOk, OnOk};
ghost use Rattle.std.specs.Option.{option_copied};
ghost use Rattle.bep_json.specs.Added.{Adds};
ghost use Rattle.bep_explain.specs.Annotated.{IsJsonLine};
ghost use Rattle.bep_explain.specs.document.Explained.{refusal_tree, text_tree};

use crate::as_json::{line_of, write_device};
use bep_document::DocFault;
use bep_json::{add_number, add_text, write_null, write_text};
use json::Writer;
use std::alloc::{AllocError, Global};

/// The fault for which a document is refused as a JSON document.
pub(crate) fn refusal_json(alloc: Global, fault: &DocFault) -> Result<Vec<u8>, AllocError>
    ensures { IfOk result (λ text. IsJsonLine (refusal_tree fault.now) text.items) }
{
    let mut out = Writer::new(Vec::new(alloc));
    write_refusal(&mut out, fault)?;
    let text = line_of(out)?;
    Ok(text)
}

fn write_refusal(out: &mut Writer, fault: &DocFault) -> Result<(), AllocError>
    ensures { OnOk result (Adds (refusal_tree fault.now) out.old out.new) }
{
    out.begin_object()?;
    out.key("refused")?;
    out.begin_object()?;
    out.key("device")?;
    write_device(out, fault.device)?;
    add_text(out, "fault", fault.fault.name())?;
    out.key("folder")?;
    write_text_or_null(out, fault.folder.as_ref().map(|folder| folder.as_str()))?;
    out.key("name")?;
    write_text_or_null(out, fault.name.as_ref().map(|name| name.as_str()))?;
    add_number(out, "number", u64::from(fault.fault.number()))?;
    out.end_object()?;
    out.end_object()?;
    Ok(())
}

// Writes the text, null where there is none.
fn write_text_or_null(out: &mut Writer, text: Option<&str>) -> Result<(), AllocError>
    ensures { OnOk result (Adds (text_tree (option_copied text.entry)) out.old out.new) }
{
    match text {
        Some(text) => write_text(out, text),
        None => write_null(out),
    }
}
