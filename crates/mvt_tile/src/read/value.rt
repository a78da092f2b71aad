ghost use Rattle.std.specs.Prelude.{◌≡◌, true, false, is_some, IfSome, IfNone};
ghost use Rattle.mvt_wire.specs.Field.{content_of, entry_of};
ghost use Rattle.mvt_wire.specs.Schema.{rule_of};
ghost use Rattle.mvt_rules.specs.Tile.{ValueRecord, IsValue, Says};
ghost use Rattle.mvt_rules.specs.Parts.Fields.{FitsRule};
ghost use Rattle.mvt_wire.specs.declared.schema.Message.TheVariants as messages;
ghost use Rattle.mvt_wire.specs.Embedded.{Holds};
ghost use Rattle.mvt_tile.specs.View.{value_of};

use crate::record::Value;
use mvt_wire::field_number::{
    BOOL_VALUE, DOUBLE_VALUE, FLOAT_VALUE, INT_VALUE, SINT_VALUE, STRING_VALUE, UINT_VALUE,
};
use mvt_wire::payload::{
    eight_bytes_in, four_bytes_in, int_in, number_in, sint_in, text_in, truth_in,
};
use mvt_wire::{Field, Fields, Part};

/// The value that a part of the bytes holds: what its one known field says (Mapbox Vector Tile
/// Specification 2.1, section 4.4).
pub(crate) fn read_value(part: Part<'_>) -> Value<'_>
    requires { (value : ValueRecord) × Holds IsValue part value }
    ensures { Holds IsValue part.entry (value_of result) }
{
    let mut fields = Fields::new(part.bytes, part.from, part.to);
    'walk: while let Some(field) = fields.next_whole() {
        if let Some(value) = value_in(field) {
            return value;
        }
    }
    unreachable!()
}

/// What a field of a value says, or None where a value doesn't know its number.
fn value_in(field: Field<'_>) -> Option<Value<'_>>
    requires { FitsRule messages.Value (entry_of field) }
    ensures known { IfSome result (λ _. is_some (rule_of messages.Value field.entry.number)
        ≡ true) }
    ensures says { IfSome result (λ value.
        Says field.entry.number (content_of field.entry.body) (value_of value)) }
    ensures unknown { IfNone result (is_some (rule_of messages.Value field.entry.number) ≡ false) }
{
    match field.number {
        STRING_VALUE => Some(Value::Text(text_in(field.body))),
        FLOAT_VALUE => Some(Value::Float(four_bytes_in(field.body))),
        DOUBLE_VALUE => Some(Value::Double(eight_bytes_in(field.body))),
        INT_VALUE => Some(Value::Int(int_in(field.body))),
        UINT_VALUE => Some(Value::Uint(number_in(field.body))),
        SINT_VALUE => Some(Value::Sint(sint_in(field.body))),
        BOOL_VALUE => Some(Value::Bool(truth_in(field.body))),
        _ => None,
    }
}
