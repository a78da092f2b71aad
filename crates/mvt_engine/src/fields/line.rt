//! The line of a message's fields, written field by field into one text.
ghost use Rattle.std.specs.Prelude.{◌≡◌, List, [], ◌++◌, codes, if◌then◌else◌, IfOk, OnOk, string_bytes};
ghost use Rattle.mvt_wire.specs.Field.{Entry, entry_of};
ghost use Rattle.mvt_wire.specs.Message.{IsMessage};
ghost use Rattle.mvt_engine.specs.FieldsLine.{field_text, fields_line, fields_text, opening, payload_text, varint_text};

use mvt_wire::{Body, Field, Fields};
use std::alloc::{AllocError, Global};
use std::fmt::Write;

/// The line of the fields of a whole message, with its LF. The bytes are walked once.
pub fn fields_line(alloc: Global, input: &[u8]) -> Result<String, AllocError>
    requires { (entries : List Entry) × IsMessage input.now 0 entries }
    ensures { IfOk result (λ line. (entries : List Entry)
        × IsMessage input.now 0 entries × (string_bytes line ≡ fields_line entries)) }
{
    let mut line = String::from_str(alloc, "{\"fields\":[")?;
    push_fields(&mut line, input)?;
    line.push_str("]}\n")?;
    Ok(line)
}

/// Writes the fields of a whole message after the line's opening.
fn push_fields(line: &mut String, input: &[u8]) -> Result<(), AllocError>
    requires whole { (entries : List Entry) × IsMessage input.now 0 entries }
    requires opened { string_bytes line.old ≡ opening }
    ensures { OnOk result ((entries : List Entry) × IsMessage input.now 0 entries
        × (string_bytes line.new ≡ opening ++ fields_text entries)) }
{
    let mut fields = Fields::new(input, 0, input.len());
    let mut is_first = true;
    'walk: while let Some(item) = fields.next_field() {
        match item {
            Ok(field) => push_field(line, field, is_first)?,
            // a whole message has no defect
            Err(_cause) => unreachable!(),
        }
        is_first = false;
    }
    Ok(())
}

/// Writes a field after the fields before it.
fn push_field(line: &mut String, field: Field, is_first: bool) -> Result<(), AllocError>
    ensures { OnOk result (string_bytes line.new
        ≡ string_bytes line.old ++ (if is_first then [] else codes ",") ++ field_text
        (entry_of field.entry)) }
{
    if !is_first {
        line.push_str(",")?;
    }
    let Field { at, number, body } = field;
    match body {
        Body::Varint { value, .. } => push_varint(line, at, number, value),
        Body::Fixed64(_) => push_payload(line, at, 8, number, 1),
        Body::Bytes { slice, .. } => push_payload(line, at, slice.len(), number, 2),
        Body::Fixed32(_) => push_payload(line, at, 4, number, 5),
    }
}

fn push_varint(line: &mut String, at: usize, number: u32, value: u64) -> Result<(), AllocError>
    ensures { OnOk result (string_bytes line.new
        ≡ string_bytes line.old ++ varint_text at number value) }
{
    write!(
        line,
        "{{\"at\":{at},\"number\":{number},\"type\":0,\"value\":{value}}}"
    )
}

fn push_payload(
    line: &mut String,
    at: usize,
    length: usize,
    number: u32,
    wire_type: u8,
) -> Result<(), AllocError>
    ensures { OnOk result (string_bytes line.new
        ≡ string_bytes line.old ++ payload_text at length number wire_type) }
{
    write!(
        line,
        "{{\"at\":{at},\"length\":{length},\"number\":{number},\"type\":{wire_type}}}"
    )
}
