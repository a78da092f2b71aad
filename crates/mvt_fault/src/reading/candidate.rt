//! What a value is, if it is the object of a fault; and its numbers.

ghost use Rattle.std.specs.Prelude.{◌≡◌, List, ℕ, Some};
ghost use Rattle.serde_json.specs.Data.{string};
ghost use Rattle.serde_json.specs.Find.{get};
ghost use Rattle.serde_json.specs.View.{view};
ghost use Rattle.mvt_fault.specs.Text.{whole_number};

use crate::fault::Fault;
use serde_json::Value;

/// The object that a value is, if it is that of a fault: it is built of what the value has at the
/// keys of its code, and so it differs from a value of another shape. And the fault, or none where
/// a number is out of range.
#[derive(Drop)]
pub(super) struct Candidate {
    pub object: Value,
    pub fault: Option<Fault>,
}

/// The whole number at the key. Where there is none it is 0, from which the candidate's object
/// differs.
pub(super) fn number_at(value: &Value, key: &str) -> u64
    ensures { (n : ℕ) → get key.now (view value.now) ≡ Some (whole_number n) → result ≡ n }
{
    value.get(key).and_then(Value::as_u64).unwrap_or(0)
}

pub(super) fn ordinal_at(value: &Value, key: &str) -> usize
    ensures { (n : ℕ) → get key.now (view value.now) ≡ Some (whole_number n) → result ≡ n }
{
    number_at(value, key) as usize
}

/// The string at the key. Where there is none it is empty, as no string of a fault is.
pub(super) fn text_at<'a>(value: &'a Value, key: &str) -> &'a str
    ensures { (s : List ℕ) → get key.now (view value.now) ≡ Some (string s) → result.now ≡ s }
{
    value.get(key).and_then(Value::as_str).unwrap_or("")
}
