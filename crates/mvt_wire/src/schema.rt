//! The messages of a tile and the fields that they know, as tables (Mapbox Vector Tile
//! Specification 2.1, section 4 and its `vector_tile.proto`). The definitions have these tables
//! once more, written out to be read, and the contracts of `Message` compare the two.
ghost use Rattle.std.specs.Prelude.{◌≡◌};
ghost use Rattle.mvt_wire.specs.Schema.{rules_of, rule_of, find_rule, is_own, is_out_of_range, is_singular, is_required};

use crate::field_number;

/// A message of a tile.
#[derive(Clone, Copy, Debug, PartialEq, Eq)]
pub enum Message {
    /// Section 4.
    Tile,
    /// Section 4.1.
    Layer,
    /// Section 4.4.
    Value,
    /// Section 4.2.
    Feature,
}

/// What the payload of a field is, and so which wire types are its own.
#[derive(Clone, Copy, Debug, PartialEq, Eq)]
pub enum Shape {
    /// An embedded message: wire type 2.
    Embedded,
    /// A text in UTF-8: wire type 2.
    Text,
    /// Four bytes: wire type 5.
    FourBytes,
    /// Eight bytes: wire type 1.
    EightBytes,
    /// Any varint, as a number of 64 bits has it: wire type 0.
    Uint64,
    /// A number of 32 bits: wire type 0.
    Uint32,
    /// A geometry type, from 0 to 3: wire type 0.
    GeometryType,
    /// Numbers of 32 bits: wire type 2 where they are packed, 0 where the field states one.
    Numbers,
}

/// How often a field occurs in its message.
#[derive(Clone, Copy, Debug, PartialEq, Eq)]
pub enum Occurrence {
    /// Never, once or several times.
    AnyNumber,
    /// Once or several times.
    AtLeastOnce,
    /// Never or once.
    AtMostOnce,
    /// Once, and not again.
    Once,
}

/// What a message requires of the fields of one number.
#[derive(Clone, Copy, Debug, PartialEq, Eq)]
pub struct FieldRule {
    /// The field number, from 1 to 15.
    pub number: u32,
    /// What the payload is.
    pub shape: Shape,
    /// How often the field occurs in its message.
    pub occurrence: Occurrence,
}

macro_rules! rules {
    ($($number:ident $shape:ident $occurrence:ident,)*) => {
        [$(FieldRule {
            number: field_number::$number,
            shape: Shape::$shape,
            occurrence: Occurrence::$occurrence,
        }),*]
    };
}

/// The fields of a tile (section 4).
pub const TILE_FIELDS: [FieldRule; 1] = rules![
    LAYERS Embedded AnyNumber,
];

/// The fields of a layer (section 4.1).
pub const LAYER_FIELDS: [FieldRule; 6] = rules![
    LAYER_NAME Text Once,
    FEATURES Embedded AnyNumber,
    KEYS Text AnyNumber,
    VALUES Embedded AnyNumber,
    EXTENT Uint32 AtMostOnce,
    VERSION Uint32 Once,
];

/// The fields of a value, of which it has just one (section 4.4).
pub const VALUE_FIELDS: [FieldRule; 7] = rules![
    STRING_VALUE Text AtMostOnce,
    FLOAT_VALUE FourBytes AtMostOnce,
    DOUBLE_VALUE EightBytes AtMostOnce,
    INT_VALUE Uint64 AtMostOnce,
    UINT_VALUE Uint64 AtMostOnce,
    SINT_VALUE Uint64 AtMostOnce,
    BOOL_VALUE Uint64 AtMostOnce,
];

/// The fields of a feature (section 4.2).
pub const FEATURE_FIELDS: [FieldRule; 4] = rules![
    FEATURE_ID Uint64 AtMostOnce,
    TAGS Numbers AnyNumber,
    GEOMETRY_TYPE GeometryType Once,
    GEOMETRY Numbers AtLeastOnce,
];

impl Shape {
    /// Whether a wire type, from 0 to 7, is the shape's own.
    #[inline(always)]
    pub fn is_own(self, wire_type: u8) -> bool
        ensures { result ≡ is_own self wire_type }
    {
        let usual = match self {
            Shape::Embedded | Shape::Text | Shape::Numbers => 2,
            Shape::FourBytes => 5,
            Shape::EightBytes => 1,
            Shape::Uint64 | Shape::Uint32 | Shape::GeometryType => 0,
        };
        wire_type == usual || wire_type == 0 && matches!(self, Shape::Numbers)
    }

    /// Whether a number that a field of the shape states is out of the field's range: above
    /// 4294967295, or above 3 for a geometry type.
    #[inline(always)]
    pub fn is_out_of_range(self, number: u64) -> bool
        ensures { result ≡ is_out_of_range self number }
    {
        let greatest = match self {
            Shape::Uint32 | Shape::Numbers => u64::from(u32::MAX),
            Shape::GeometryType => 3,
            Shape::Embedded | Shape::Text | Shape::FourBytes | Shape::EightBytes | Shape::Uint64 =>
                u64::MAX,
        };
        number > greatest
    }
}

impl Occurrence {
    /// Whether the field occurs at most once.
    pub fn is_singular(self) -> bool
        ensures { result ≡ is_singular self }
    {
        matches!(self, Occurrence::AtMostOnce | Occurrence::Once)
    }

    /// Whether the field occurs at least once.
    pub fn is_required(self) -> bool
        ensures { result ≡ is_required self }
    {
        matches!(self, Occurrence::AtLeastOnce | Occurrence::Once)
    }
}

impl Message {
    /// The fields that the message knows.
    #[inline(always)]
    pub fn rules(self) -> &'static [FieldRule]
        ensures { result.now ≡ rules_of self }
    {
        match self {
            Message::Tile => &TILE_FIELDS,
            Message::Layer => &LAYER_FIELDS,
            Message::Value => &VALUE_FIELDS,
            Message::Feature => &FEATURE_FIELDS,
        }
    }

    /// What the message requires of the fields of a number, or None where it doesn't know the
    /// number.
    #[inline(always)]
    pub fn rule(self, number: u32) -> Option<FieldRule>
        ensures { result ≡ rule_of self number }
    {
        find_rule(self.rules(), number)
    }
}

/// The first of the rules that is about a number.
#[inline(always)]
fn find_rule(rules: &[FieldRule], number: u32) -> Option<FieldRule>
    ensures { result ≡ find_rule rules.now number }
{
    for &rule in rules {
        if rule.number == number {
            return Some(rule);
        }
    }
    None
}
