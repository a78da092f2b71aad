//! The text that tells what mending changed.
ghost use Rattle.std.specs.Prelude.{◌≡◌, ◌++◌, codes, decimal, IfOk, OnOk, string_bytes};
ghost use Rattle.serde_json.specs.Written.{compact_text};
ghost use Rattle.mvt_fault.specs.Text.{digits, whole_number};
ghost use Rattle.mvt_mender.specs.Report.{change_data, dropped_data, mended_data, pair_data, report_text};

use crate::mending::{FeatureChange, MendedFeature, WhatChanged};
use mvt_gate::{Part, push_list, push_string};
use std::alloc::{AllocError, Global};
use std::fmt::Write;

/// The changes to a tile as one JSON object, with no space and with the keys of each object in the
/// order of their bytes: `changed`, with an object for each feature that had a fault, and `ok`. Of a
/// feature that was mended it tells twice its area, in square units of the tile's coordinates, as
/// strings of decimal digits, its polygons and its vertices, each before and after, how many
/// crossings of edges were rounded to a position, and how many corners were cut.
pub fn report_text(alloc: Global, changes: &[FeatureChange]) -> Result<String, AllocError>
    ensures { IfOk result (λ text. string_bytes text ≡ report_text changes.now) }
{
    let mut text = String::from_str(alloc, "{\"changed\":")?;
    push_list(alloc, &mut text, changes)?;
    text.push_str(",\"ok\":true}")?;
    Ok(text)
}

impl Part for FeatureChange {
    ghost part_data = { change_data };

    fn push_to(&self, alloc: Global, text: &mut String) -> Result<(), AllocError> {
        match &self.what {
            WhatChanged::Mended(mended) => {
                push_mended(alloc, text, self.layer, self.feature, mended)
            }
            WhatChanged::Dropped => push_dropped(text, self.layer, self.feature),
        }
    }
}

/// Writes what became of a feature that was left out.
fn push_dropped(text: &mut String, layer: usize, feature: usize) -> Result<(), AllocError>
    ensures { OnOk result (string_bytes text.new
        ≡ string_bytes text.old ++ compact_text (dropped_data layer feature)) }
{
    write!(
        text,
        "{{\"feature\":{feature},\"layer\":{layer},\"what\":\"dropped\"}}"
    )
}

/// Writes what became of a feature that was mended.
fn push_mended(
    alloc: Global,
    text: &mut String,
    layer: usize,
    feature: usize,
    mended: &MendedFeature,
) -> Result<(), AllocError>
    ensures { OnOk result (string_bytes text.new
        ≡ string_bytes text.old ++ compact_text (mended_data layer feature mended.now)) }
{
    text.push_str("{\"area\":")?;
    push_areas(
        alloc,
        text,
        mended.before.doubled_area,
        mended.after.doubled_area,
    )?;
    push_work(text, mended.crossings, mended.cuts)?;
    push_ordinals(text, feature, layer)?;
    text.push_str(",\"polygons\":")?;
    push_pair(text, mended.before.polygons, mended.after.polygons)?;
    text.push_str(",\"vertices\":")?;
    push_pair(text, mended.before.vertices, mended.after.vertices)?;
    text.push_str(",\"what\":\"mended\"}")
}

/// Writes what was done.
fn push_work(text: &mut String, crossings: u64, cuts: u64) -> Result<(), AllocError>
    ensures { OnOk result (string_bytes text.new ≡ string_bytes text.old ++
        (codes ",\"crossings\":" ++ (decimal crossings ++ (codes ",\"cuts\":" ++
        decimal cuts)))) }
{
    write!(text, ",\"crossings\":{crossings},\"cuts\":{cuts}")
}

/// Writes which feature it is.
fn push_ordinals(text: &mut String, feature: usize, layer: usize) -> Result<(), AllocError>
    ensures { OnOk result (string_bytes text.new ≡ string_bytes text.old ++
        (codes ",\"feature\":" ++ (decimal feature ++ (codes ",\"layer\":" ++
        decimal layer)))) }
{
    write!(text, ",\"feature\":{feature},\"layer\":{layer}")
}

/// Writes a number before and after.
fn push_pair(text: &mut String, before: usize, after: usize) -> Result<(), AllocError>
    ensures { OnOk result (string_bytes text.new
        ≡ string_bytes text.old ++ compact_text (pair_data (whole_number before) (whole_number after))) }
{
    write!(text, "[{before},{after}]")
}

/// Writes the areas before and after.
fn push_areas(alloc: Global, text: &mut String, before: i128, after: i128) -> Result<(), AllocError>
    ensures { OnOk result (string_bytes text.new
        ≡ string_bytes text.old ++ compact_text (pair_data (digits before) (digits after))) }
{
    text.push_str("[")?;
    push_digits(alloc, text, before)?;
    text.push_str(",")?;
    push_digits(alloc, text, after)?;
    text.push_str("]")
}

/// Writes a number as a string of decimal digits.
fn push_digits(alloc: Global, text: &mut String, number: i128) -> Result<(), AllocError>
    ensures { OnOk result (string_bytes text.new
        ≡ string_bytes text.old ++ compact_text (digits number)) }
{
    let digits = format!(in alloc; "{number}")?;
    push_string(alloc, text, digits.as_str())
}
