//! A layer of a tile in one walk (Mapbox Vector Tile Specification 2.1, section 4.1).
ghost use Rattle.std.specs.Prelude.{◌≤◌, IfOk, IfSome, IsTrue, OnOk};
ghost use Rattle.mvt_wire.specs.Embedded.{LiesIn, span_in};
ghost use Rattle.mvt_wire.specs.Field.{entry_of};
ghost use Rattle.mvt_wire.specs.declared.schema.Message.TheVariants as messages;
ghost use Rattle.mvt_rules.specs.Parts.Fields.{FitsRule};
ghost use Rattle.mvt_rules.specs.Tile.{FeatureRecord};
ghost use Rattle.mvt_tile.specs.Calls.OneWalk.{IsRightLayer, IsSeenIn, PassesField};

use super::feature::{FeatureTest, passes_feature};
use super::value::is_one_field;
use crate::rules::{FeatureBuffer, LayerSummary, TagNeeds, add_field, empty_summary};
use crate::seen::Seen;
use crate::wire::scan::FieldScan;
use mvt_wire::field_number::{FEATURES, VALUES};
use mvt_wire::payload::payload_span;
use mvt_wire::{Field, Message, Part};
use std::alloc::AllocError;

/// The summary of the layer that a part of the bytes holds, if it is known to have no wire fault, and
/// features without fault of their tags that keep the further rule. None may be said of any layer,
/// with the offset in front of which nothing is wrong with its values and features. The only error is
/// that memory was refused.
///
/// Its keys and values may come after its features, so tags are checked as if the layer had as many
/// of both as it has bytes. At its end it has to have as many as they need.
pub(crate) fn walk_layer<'a, T: FeatureTest>(
    part: Part<'a>,
    test: &mut T,
    buffer: &mut FeatureBuffer,
    seen: &mut Seen,
) -> Result<Option<LayerSummary<'a>>, AllocError>
    ensures found { IfOk result (λ found. IfSome found (IsRightLayer (T.IsKept test.new)
        part.entry.bytes.now (span_in part.entry))) }
    ensures still { OnOk result ((feature_record : FeatureRecord)
        → T.IsKept test.old feature_record → T.IsKept test.new feature_record) }
    ensures seen { OnOk result (IsSeenIn (T.IsKept test.new) part.entry.bytes.now seen.new
        (span_in part.entry)) }
{
    let front = &part.bytes[..part.to];
    let most = part.to - part.from;
    let mut own = FieldScan::new();
    let mut summary = empty_summary();
    let mut needs = TagNeeds::none();
    let mut at = part.from;
    'walk: while let Some((field, next)) = own.pass_usual::<7>(Message::Layer, front, at) {
        add_field(&mut summary, field);
        if !passes_field(part.bytes, field, test, buffer, most, &mut needs)? {
            *seen = Seen { to: next, needs };
            return Ok(None);
        }
        at = next;
    }
    *seen = Seen { to: at, needs };
    if at != part.to || own.end_fault(Message::Layer, part.to).is_some() {
        return Ok(None);
    }
    if needs.keys > summary.keys || needs.values > summary.values {
        return Ok(None);
    }
    Ok(Some(summary))
}

/// Whether a field of a layer is known to hold no value that has a wire fault, and no feature that
/// has a fault. Adds what its tags need. The only error is that memory was refused.
#[inline(always)]
fn passes_field<T: FeatureTest>(
    bytes: &[u8],
    field: Field<'_>,
    test: &mut T,
    buffer: &mut FeatureBuffer,
    most: usize,
    needs: &mut TagNeeds,
) -> Result<bool, AllocError>
    requires fits { FitsRule messages.Layer (entry_of field) }
    requires lies { LiesIn bytes.now (entry_of field) }
    ensures no_fewer_keys { needs.old.keys ≤ needs.new.keys }
    ensures no_fewer_values { needs.old.values ≤ needs.new.values }
    ensures passes { IfOk result (λ passes. IsTrue passes → PassesField (T.IsKept test.new)
        bytes.now most needs.new (entry_of field.entry)) }
    ensures still { (feature_record : FeatureRecord) → T.IsKept test.old feature_record
        → T.IsKept test.new feature_record }
{
    if field.number == FEATURES {
        let (from, to) = payload_span(field.body);
        passes_feature(Part { bytes, from, to }, test, buffer, most, needs)
    } else if field.number == VALUES {
        let (from, to) = payload_span(field.body);
        Ok(is_one_field(Part { bytes, from, to }))
    } else {
        Ok(true)
    }
}
