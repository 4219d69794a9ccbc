//! Field lines that the gateway adds.
ghost use Rattle.std.specs.Prelude.{◌≡◌, ◌++◌, ◌∷◌, [], IfOk, OnOk, codes};
ghost use Rattle.gw_fields.specs.Order.{lines_of};
ghost use Rattle.gw_proxy.specs.Lines.{coding_fields, length_fields};
ghost use Rattle.gw_proxy.specs.Texts.{text_fields};

use crate::error::NoMemory;
use gw_fields::Lines;
use gw_head::Framing;
use std::alloc::Global;

/// The text of a length, where there is one.
pub(crate) fn length_text(alloc: Global, length: Option<u64>) -> Result<Option<String>, NoMemory>
    ensures { IfOk result (λ text. text_fields text ≡ length_fields length) }
{
    match length {
        Some(length) => Ok(Some(length.to_string(alloc)?)),
        None => Ok(None),
    }
}

/// Adds the Content-Length with this text, where there is one.
pub(crate) fn push_length<'a>(
    lines: &mut Lines<'a>,
    text: &'a Option<String>,
) -> Result<(), NoMemory>
    ensures { OnOk result (lines.new ≡ lines.old ++ text_fields text.now) }
{
    match text {
        Some(text) => lines.push(b"content-length", text.as_bytes()),
        None => Ok(()),
    }
}

/// Says that the body is in chunks, where it is.
pub(crate) fn push_coding(lines: &mut Lines<'_>, framing: Framing) -> Result<(), NoMemory>
    ensures { OnOk result (lines.new ≡ lines.old ++ coding_fields framing) }
{
    match framing {
        Framing::Chunked => lines.push(b"transfer-encoding", b"chunked"),
        Framing::None | Framing::Length(_) | Framing::ToEnd => Ok(()),
    }
}

/// Appends the lines and the empty line that ends a head.
pub(crate) fn push_section(lines: &Lines<'_>, out: &mut Vec<u8>) -> Result<(), NoMemory>
    ensures { OnOk result (out.new.items ≡ out.old.items ++ (lines_of lines.now ++ codes "\r\n")) }
{
    lines.write(out)?;
    out.extend_from_slice(b"\r\n")
}
