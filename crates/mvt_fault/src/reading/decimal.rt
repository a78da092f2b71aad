//! Whole numbers as strings of decimal digits.

ghost use Rattle.std.specs.Prelude.{◌≡◌, ◌↔◌, List, ℕ, ℤ, Some, IsTrue, MatchOption, EachIndex, slice_index};
ghost use Rattle.std.specs.Int.{IsInRange};
ghost use Rattle.serde_json.specs.Data.{string};
ghost use Rattle.serde_json.specs.Find.{get};
ghost use Rattle.serde_json.specs.View.{view};
ghost use Rattle.mvt_fault.specs.Reading.{IsPositiveNumeral, HasDecimalForm, Writes};
ghost use Rattle.mvt_fault.specs.Text.{HasWidth};

use super::candidate::text_at;
use serde_json::Value;

/// The string at the key, in decimal form. Where there is none it is "0", from which the
/// candidate's object differs.
pub(super) fn decimal_at<'a>(value: &'a Value, key: &str) -> &'a str
    ensures form { HasDecimalForm result.now }
    ensures found { (s : List ℕ) → HasDecimalForm s → get key.now (view value.now) ≡ Some (string s)
        → result.now ≡ s }
{
    let text = text_at(value, key);
    if has_decimal_form(text) { text } else { "0" }
}

/// The number that a string in decimal form writes, where it has 128 bits.
pub(super) fn number_of(decimal: &str) -> Option<i128>
    requires { HasDecimalForm decimal.now }
    ensures { MatchOption result ((z : ℤ) → Writes decimal.now z
        → ¬ HasWidth z) (λ z. Writes decimal.now z × HasWidth z) }
{
    decimal.parse().ok()
}

fn has_decimal_form(text: &str) -> bool
    ensures { IsTrue result ↔ HasDecimalForm text.now }
{
    match text.as_bytes() {
        [b'0'] => true,
        [b'-', digits @ ..] => is_positive_numeral(digits),
        digits => is_positive_numeral(digits),
    }
}

fn is_positive_numeral(digits: &[u8]) -> bool
    ensures { IsTrue result ↔ IsPositiveNumeral digits.now }
{
    digits.first().is_some_and(|first| *first > b'0') && is_all_digits(digits)
}

fn is_all_digits(text: &[u8]) -> bool
    ensures { IsTrue result ↔ EachIndex text.now (λ k. IsInRange 48 57 (slice_index text.now k)) }
{
    text.iter().all(|byte| byte.is_ascii_digit())
}
