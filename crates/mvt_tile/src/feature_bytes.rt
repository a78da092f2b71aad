//! A feature as it stands in the bytes of a tile.
ghost use Rattle.std.specs.Prelude.{◌≡◌, ◌<◌, ◌^◌, ℕ, true, List, [], ◌∷◌, ◌++◌};
ghost use Rattle.mvt_wire.specs.Field.{Entry, IsField, entry_of};
ghost use Rattle.mvt_rules.specs.Tile.{FeatureRecord, IsFeature};
ghost use Rattle.mvt_rules.specs.Parts.Fields.{FitsRule};
ghost use Rattle.mvt_wire.specs.declared.schema.Message.TheVariants as messages;
ghost use Rattle.mvt_wire.specs.NumberSources.{AreLeft, most_bytes, StandIn};
ghost use Rattle.mvt_wire.specs.Embedded.{Holds};
ghost use Rattle.mvt_tile.specs.View.{kind_number};

mod scan;

use crate::record::Kind;
use mvt_wire::field_number::{FEATURE_ID, GEOMETRY, GEOMETRY_TYPE, TAGS};
use mvt_wire::payload::number_in;
use mvt_wire::{Field, Fields, NumberSpan, Part, WholeNumbers};

/// What an id, tags, a type and a geometry begin with: the field's number and its wire type.
const USUAL_KEYS: [u8; 4] = [0x12, 0x18, 0x22, 0x08];

/// A feature of a tile without wire fault (Mapbox Vector Tile Specification 2.1, section 4.2), as
/// it stands in the tile's bytes: its numbers are decoded from them, and no list of them is made.
#[derive(Clone, Copy)]
pub struct FeatureBytes<'a> {
    /// The bytes up to the feature's end.
    bytes: &'a [u8],
    parts: FeatureParts,
    ghost tags_stand: { StandIn bytes.now 2 parts.tags },
    ghost geometry_stands: { StandIn bytes.now 4 parts.geometry },
}

impl<'a> FeatureBytes<'a> {
    ghost use Rattle.mvt_tile.specs.FeatureBytes.{Encodes};

    /// The feature that a part of the bytes holds.
    #[inline(never)]
    pub fn new(part: Part<'a>) -> FeatureBytes<'a>
        requires { (feature_record : FeatureRecord) × Holds IsFeature part feature_record }
        ensures { (feature_record : FeatureRecord) → Holds IsFeature part.entry feature_record
            → Encodes result feature_record }
    {
        let mut parts = FeatureParts::none(part.from);
        let mut fields = Fields::new(part.bytes, part.from, part.to);
        'walk: while let Some(field) = fields.next_usual(USUAL_KEYS) {
            parts.add(&field, fields.at());
        }
        let bytes = &part.bytes[..part.to];
        FeatureBytes { bytes, parts }
    }

    /// The feature's id, any number of 64 bits, where it has one (section 4.2).
    pub(crate) fn id(&self) -> Option<u64>
        ensures { (feature_record : FeatureRecord) → Encodes self.now feature_record
            → result ≡ feature_record.id }
    {
        self.parts.id
    }

    /// What the feature's geometry is (section 4.3.4).
    pub fn kind(&self) -> Kind
        ensures { (feature_record : FeatureRecord) → Encodes self.now feature_record
            → kind_number result ≡ feature_record.kind }
    {
        self.parts.kind
    }

    /// The index of a key, that of its value, and so on (section 4.4), of all the feature's fields
    /// of tags.
    pub(crate) fn tags(&self) -> WholeNumbers<'a>
        ensures all { (feature_record : FeatureRecord) → Encodes self.now feature_record
            → AreLeft result feature_record.tags }
        ensures few { most_bytes result < 2 ^ 63 }
    {
        WholeNumbers::new(self.bytes, self.parts.tags, TAGS)
    }

    /// Whether the feature has no tags.
    #[inline(always)]
    pub(crate) fn has_no_tag(&self) -> bool
        ensures { result ≡ true → (feature_record : FeatureRecord) → Encodes self.now feature_record
            → feature_record.tags ≡ [] }
    {
        self.parts.tags.at == self.parts.tags.last
    }

    /// Command and parameter integers (section 4.3), of all the feature's geometry fields.
    pub fn geometry(&self) -> WholeNumbers<'a>
        ensures encodes { (feature_record : FeatureRecord) × Encodes self.now feature_record }
        ensures all { (feature_record : FeatureRecord) → Encodes self.now feature_record
            → AreLeft result feature_record.geometry }
        ensures few { most_bytes result < 2 ^ 63 }
    {
        WholeNumbers::new(self.bytes, self.parts.geometry, GEOMETRY)
    }
}

/// What is kept of the fields of a feature.
#[derive(Clone, Copy)]
struct FeatureParts {
    id: Option<u64>,
    kind: Kind,
    tags: NumberSpan,
    geometry: NumberSpan,
}

impl FeatureParts {
    ghost use Rattle.mvt_tile.specs.Calls.FeatureBytes.{GivesParts};

    /// No field was passed of a feature that begins at an offset.
    fn none(from: usize) -> FeatureParts
        ensures { (message : List ℕ) → GivesParts message from [] from result }
    {
        FeatureParts {
            id: None,
            kind: Kind::Unknown,
            tags: NumberSpan::none(from),
            geometry: NumberSpan::none(from),
        }
    }

    /// Passes one more field, which ends at an offset.
    #[inline(always)]
    fn add(&mut self, field: &Field<'_>, to: usize)
        requires { FitsRule messages.Feature (entry_of field.now) }
        ensures { (message : List ℕ) (from : ℕ) (entries : List Entry)
            → IsField message to (entry_of field.now)
            → GivesParts message from entries field.now.at self.old
            → GivesParts message from (entries ++ entry_of field.now ∷ []) to self.new }
    {
        match field.number {
            FEATURE_ID => self.id = Some(number_in(field.body)),
            TAGS => self.tags.add(field.body, to),
            GEOMETRY_TYPE => self.kind = kind_of(number_in(field.body)),
            GEOMETRY => self.geometry.add(field.body, to),
            _ => {}
        }
    }
}

/// The geometry type with a number (section 4.3.4).
fn kind_of(number: u64) -> Kind
    requires { number < 4 }
    ensures { kind_number result ≡ number }
{
    match number {
        0 => Kind::Unknown,
        1 => Kind::Point,
        2 => Kind::LineString,
        3 => Kind::Polygon,
        _ => unreachable!(),
    }
}
