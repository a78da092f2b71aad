//! The payloads of fields whose wire type is known (Protocol Buffers encoding, "Message Structure").
ghost use Rattle.std.specs.Prelude.{◌≡◌, ℕ, ◌<◌, ◌^◌, List, ◌==◌, not, option_map, IsUtf8};
ghost use Rattle.std.specs.Int.{cast_signed, w64};
ghost use Rattle.mvt_wire.specs.Field.{content_of, delimited, eight_bytes, four_bytes, wire_type_of};
ghost use Rattle.mvt_wire.specs.Number.{zigzag};
ghost use Rattle.mvt_wire.specs.Payload.{Span, span_of, bytes_in, number_in};

use crate::field::Body;
use crate::utf8::text;
use crate::zigzag::unzigzag64;

/// The number of a varint.
pub fn number_in(body: Body) -> u64
    requires { wire_type_of (content_of body) ≡ 0 }
    ensures { number_in (content_of body.entry) ≡ Some result }
{
    match body {
        Body::Varint { value, .. } => value,
        _ => unreachable!(),
    }
}

/// The number of a varint in two's complement (Protocol Buffers encoding, "Signed Integers").
pub fn int_in(body: Body) -> i64
    requires { wire_type_of (content_of body) ≡ 0 }
    ensures { option_map (cast_signed w64) (number_in (content_of body.entry)) ≡ Some result }
{
    number_in(body).cast_signed()
}

/// The number that a varint is the zigzag form of (Protocol Buffers encoding, "Signed Integers").
pub fn sint_in(body: Body) -> i64
    requires { wire_type_of (content_of body) ≡ 0 }
    ensures { number_in (content_of body.entry) ≡ Some (zigzag result) }
{
    unzigzag64(number_in(body))
}

/// The truth value of a varint: true where it isn't 0.
pub fn truth_in(body: Body) -> bool
    requires { wire_type_of (content_of body) ≡ 0 }
    ensures { option_map (λ n. not (n == 0)) (number_in (content_of body.entry)) ≡ Some result }
{
    number_in(body) != 0
}

/// The text after a length.
pub fn text_in(body: Body<'_>) -> &str
    requires own { wire_type_of (content_of body) ≡ 2 }
    requires utf8 { (from : ℕ) (part : List ℕ) → content_of body ≡ delimited from part
        → IsUtf8 part }
    ensures { bytes_in (content_of body.entry) ≡ Some result.now }
{
    match body {
        Body::Bytes { slice, .. } => text_of(slice),
        _ => unreachable!(),
    }
}

/// The bytes after a length.
pub fn bytes_in(body: Body<'_>) -> &[u8]
    requires { wire_type_of (content_of body) ≡ 2 }
    ensures { bytes_in (content_of body.entry) ≡ Some result.now }
{
    match body {
        Body::Bytes { slice, .. } => slice,
        _ => unreachable!(),
    }
}

/// Bytes that are UTF-8, as a text.
fn text_of(bytes: &[u8]) -> &str
    requires { IsUtf8 bytes.now }
    ensures { result.now ≡ bytes.now }
{
    match text(bytes) {
        Some(text) => text,
        None => unreachable!(),
    }
}

/// The eight bytes of a payload.
pub fn eight_bytes_in(body: Body<'_>) -> &[u8]
    requires { wire_type_of (content_of body) ≡ 1 }
    ensures { content_of body.entry ≡ eight_bytes result.now }
{
    match body {
        Body::Fixed64(slice) => slice,
        _ => unreachable!(),
    }
}

/// The four bytes of a payload.
pub fn four_bytes_in(body: Body<'_>) -> &[u8]
    requires { wire_type_of (content_of body) ≡ 5 }
    ensures { content_of body.entry ≡ four_bytes result.now }
{
    match body {
        Body::Fixed32(slice) => slice,
        _ => unreachable!(),
    }
}

/// Where the bytes after a length lie: the offset of the first, and that after the last.
pub fn payload_span(body: Body) -> (usize, usize)
    requires own { wire_type_of (content_of body) ≡ 2 }
    requires below { (span : Span) → span_of (content_of body) ≡ Some span → span.to < 2 ^ 64 }
    ensures { span_of (content_of body.entry) ≡ Some (record { from = result.0; to = result.1 }) }
{
    match body {
        Body::Bytes { from, slice } => (from, from + slice.len()),
        _ => unreachable!(),
    }
}
