//! Texts (Protocol Buffers encoding, `string`).
ghost use Rattle.std.specs.Prelude.{◌≡◌, ◌↔◌, IsSome, IsTrue, IfSome, IsUtf8};

mod ascii;

use ascii::is_ascii;

/// The bytes as a text (Protocol Buffers encoding, `string`), or None exactly where they aren't
/// UTF-8.
pub fn text(bytes: &[u8]) -> Option<&str>
    ensures utf8 { IsSome result ↔ IsUtf8 bytes.now }
    ensures same { IfSome result (λ text. text.now ≡ bytes.now) }
{
    simdutf8::basic::from_utf8(bytes).ok()
}

/// Whether the bytes are UTF-8. Most texts are ASCII, which is quicker to see.
#[inline(never)]
pub fn is_text(part: &[u8]) -> bool
    ensures { IsTrue result ↔ IsUtf8 part.now }
{
    is_ascii(part) || is_utf8(part)
}

/// The same of other texts.
#[inline(never)]
fn is_utf8(part: &[u8]) -> bool
    ensures { IsTrue result ↔ IsUtf8 part.now }
{
    text(part).is_some()
}
