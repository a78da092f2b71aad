//! The texts and values of a layer as JSON.
ghost use Rattle.std.specs.Prelude.{◌≡◌, ◌++◌, codes, OnOk, string_bytes};
ghost use Rattle.hex.specs.Hex.{encode_lower};
ghost use Rattle.serde_json.specs.Data.{string};
ghost use Rattle.serde_json.specs.Written.{compact_text};
ghost use Rattle.mvt_engine.specs.Dump.{value_data};
ghost use Rattle.mvt_tile.specs.View.{value_of};

use super::part::Part;
use mvt_tile::Value;
use serde_json::Value as Json;
use std::alloc::{AllocError, Global};
use std::fmt::Write;

impl<'a> Part for &'a str {
    ghost part_data = { λ key. string key.now };

    fn push_to(&self, alloc: Global, text: &mut String) -> Result<(), AllocError> {
        push_string(alloc, text, self)
    }
}

/// Writes a string as JSON after a text, with quotes and escapes.
pub fn push_string(alloc: Global, text: &mut String, content: &str) -> Result<(), AllocError>
    ensures { OnOk result (string_bytes text.new
        ≡ string_bytes text.old ++ compact_text (string content.now)) }
{
    let quoted = Json::String(String::from_str(alloc, content)?).to_string(alloc)?;
    text.push_str(&quoted)
}

impl<'a> Part for Value<'a> {
    ghost part_data = { λ value. value_data (value_of value) };

    fn push_to(&self, alloc: Global, text: &mut String) -> Result<(), AllocError> {
        match *self {
            Value::Text(content) => push_keyed(alloc, text, "{\"string\":", content),
            Value::Float(bytes) => push_bytes(alloc, text, "{\"float\":", bytes),
            Value::Double(bytes) => push_bytes(alloc, text, "{\"double\":", bytes),
            Value::Int(number) => write!(text, "{{\"int\":{number}}}"),
            Value::Uint(number) => write!(text, "{{\"uint\":{number}}}"),
            Value::Sint(number) => write!(text, "{{\"sint\":{number}}}"),
            Value::Bool(truth) => write!(text, "{{\"bool\":{truth}}}"),
        }
    }
}

/// Writes what an object begins with, a string as its content, and the brace after it.
fn push_keyed(
    alloc: Global,
    text: &mut String,
    opening: &str,
    content: &str,
) -> Result<(), AllocError>
    ensures { OnOk result (string_bytes text.new ≡ string_bytes text.old
        ++ (opening.now ++ (compact_text (string content.now) ++ codes "}"))) }
{
    text.push_str(opening)?;
    push_string(alloc, text, content)?;
    text.push_str("}")
}

/// The same of bytes, as a string of hexadecimal digits.
fn push_bytes(
    alloc: Global,
    text: &mut String,
    opening: &str,
    bytes: &[u8],
) -> Result<(), AllocError>
    ensures { OnOk result (string_bytes text.new ≡ string_bytes text.old
        ++ (opening.now ++ (compact_text (string (encode_lower bytes.now)) ++ codes "}"))) }
{
    text.push_str(opening)?;
    push_digits(alloc, text, bytes)?;
    text.push_str("}")
}

/// Writes bytes as a string of hexadecimal digits.
fn push_digits(alloc: Global, text: &mut String, bytes: &[u8]) -> Result<(), AllocError>
    ensures { OnOk result (string_bytes text.new
        ≡ string_bytes text.old ++ compact_text (string (encode_lower bytes.now))) }
{
    let digits = hex::encode(alloc, bytes)?;
    push_string(alloc, text, &digits)
}
