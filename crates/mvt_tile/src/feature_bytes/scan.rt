//! A feature of a message that isn't known to have no fault.
ghost use Rattle.std.specs.Prelude.{◌≤◌, ◌<◌, ℕ, length, IfSome};
ghost use Rattle.mvt_rules.specs.Tile.{FeatureRecord, IsFeature};
ghost use Rattle.mvt_wire.specs.Embedded.{Holds, span_in};
ghost use Rattle.mvt_wire.specs.declared.schema.Message.TheVariants as messages;
ghost use Rattle.mvt_tile.specs.Calls.Embedded.{HasNone};
ghost use Rattle.mvt_tile.specs.Calls.FeatureBytes.{PassesParts};

use crate::feature_bytes::{FeatureBytes, FeatureParts};
use crate::wire::scan::FieldScan;
use mvt_wire::{Message, Part};

impl<'a> FeatureBytes<'a> {
    ghost use Rattle.mvt_tile.specs.FeatureBytes.{Encodes};

    /// The feature that a part of the bytes holds, if it has no wire fault. Its fields are read once
    /// where they are an id, tags, a type and a geometry in this order, as most writers have them;
    /// else once more, from the first one on.
    #[inline(always)]
    pub(crate) fn scan(part: Part<'a>) -> Option<FeatureBytes<'a>>
        ensures wire { IfSome result (λ _. (ordinal : ℕ)
            → HasNone messages.Feature part.entry.bytes.now ordinal (span_in part.entry)) }
        ensures encodes { IfSome result (λ feature. (feature_record : FeatureRecord)
            → Holds IsFeature part.entry feature_record → Encodes feature feature_record) }
    {
        let bytes = &part.bytes[..part.to];
        let mut scan = FieldScan::new();
        let mut parts = FeatureParts::none(part.from);
        let after_id = pass_part(&mut scan, &mut parts, bytes, part.from, 0x08);
        let after_tags = pass_part(&mut scan, &mut parts, bytes, after_id, 0x12);
        let after_type = pass_part(&mut scan, &mut parts, bytes, after_tags, 0x18);
        let after_geometry = pass_part(&mut scan, &mut parts, bytes, after_type, 0x22);
        if after_geometry != part.to {
            // (into room of its own, so that the feature of the quick pass stays in registers)
            let feature = FeatureBytes::scan_any(part)?;
            return Some(feature);
        }
        if scan.end_fault(Message::Feature, part.to).is_some() {
            return None;
        }
        Some(FeatureBytes { bytes, parts })
    }

    /// The same, whatever the order of the fields.
    #[inline(never)]
    fn scan_any(part: Part<'a>) -> Option<FeatureBytes<'a>>
        ensures wire { IfSome result (λ _. (ordinal : ℕ)
            → HasNone messages.Feature part.entry.bytes.now ordinal (span_in part.entry)) }
        ensures encodes { IfSome result (λ feature. (feature_record : FeatureRecord)
            → Holds IsFeature part.entry feature_record → Encodes feature feature_record) }
    {
        let bytes = &part.bytes[..part.to];
        let mut scan = FieldScan::new();
        let mut parts = FeatureParts::none(part.from);
        let mut at = part.from;
        'walk: while let Some((field, next)) = scan.pass_usual::<8>(Message::Feature, bytes, at) {
            parts.add(&field, next);
            at = next;
        }
        if at != part.to || scan.end_fault(Message::Feature, part.to).is_some() {
            return None;
        }
        Some(FeatureBytes { bytes, parts })
    }
}

/// Passes the field at an offset, if it begins with a key and has no fault. Returns the offset after
/// it, or else the same.
#[inline(always)]
fn pass_part(
    scan: &mut FieldScan,
    parts: &mut FeatureParts,
    bytes: &[u8],
    at: usize,
    key: u8,
) -> usize
    requires within { at ≤ length bytes.now }
    requires passed { (from : ℕ) × PassesParts bytes.now from at scan.old parts.old }
    requires numbered { 8 ≤ key }
    requires short { key < 128 }
    ensures within { result ≤ length bytes.now }
    ensures passes { (from : ℕ) → PassesParts bytes.now from at scan.old parts.old
        → PassesParts bytes.now from result scan.new parts.new }
{
    match scan.pass_of(Message::Feature, bytes, at, key) {
        Some((field, next)) => {
            parts.add(&field, next);
            next
        }
        None => at,
    }
}
