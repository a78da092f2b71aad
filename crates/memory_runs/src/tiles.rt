//! Calls on the bytes of a tile or of a fault.
use crate::stop::Stop;
use mvt_fault::{FaultTextError, Profile, fault_from_text, fault_text};
use mvt_gate::{
    advice_text, dump_text, fault_lines, faults_quickly, faults_with, judge, judge_quickly,
    judge_with,
};
use mvt_mender::{Mending, mend_with, report_text};
use mvt_tile::{Advice, ReadFault, Tile, advise, check_layers, check_tags, read_tile, wire_fault};
use std::alloc::Global;

/// A call on bytes.
#[derive(Clone, Copy)]
pub(crate) enum TileCall {
    Judge,
    /// `judge`, and then `judge` again, whatever the first one answered.
    JudgeTwice,
    /// `judge_with` in the profile that keeps the polygons of a feature apart.
    JudgeFeature,
    /// `judge_quickly` in that profile.
    JudgeQuickly,
    /// `faults_with` in that profile.
    Faults,
    /// `faults_quickly` in that profile.
    FaultsQuickly,
    /// `fault_lines` of the faults of `faults_with` in that profile.
    FaultLines,
    /// `mend_with` in the profile that checks each polygon by itself, with no leave to drop.
    Mend,
    /// `mend_with` in the other one, with leave.
    MendOrDrop,
    /// `report_text` of the changes that mending made, as for `MendOrDrop`.
    ReportText,
    ReadTile,
    CheckLayers,
    /// `check_tags` of the first layer's first feature.
    CheckTags,
    Advise,
    /// `advice_text` of the advice on the tile.
    AdviceText,
    DumpText,
    /// `fault_text` of the tile's first wire fault.
    FaultText,
    FaultFromText,
}

impl TileCall {
    /// The call of this name.
    pub(crate) fn named(name: &str) -> Option<TileCall> {
        Some(match name {
            "judge" => TileCall::Judge,
            "judge_twice" => TileCall::JudgeTwice,
            "judge_with_feature" => TileCall::JudgeFeature,
            "judge_quickly" => TileCall::JudgeQuickly,
            "faults_with" => TileCall::Faults,
            "faults_quickly" => TileCall::FaultsQuickly,
            "fault_lines" => TileCall::FaultLines,
            "mend_with" => TileCall::Mend,
            "mend_with_drop" => TileCall::MendOrDrop,
            "report_text" => TileCall::ReportText,
            "read_tile" => TileCall::ReadTile,
            "check_layers" => TileCall::CheckLayers,
            "check_tags" => TileCall::CheckTags,
            "advise" => TileCall::Advise,
            "advice_text" => TileCall::AdviceText,
            "dump_text" => TileCall::DumpText,
            "fault_text" => TileCall::FaultText,
            "fault_from_text" => TileCall::FaultFromText,
            _ => return None,
        })
    }

    /// Makes the call, and prints its answer.
    pub(crate) fn run<R: Print + AllocGlobal>(self, rt: &R, bytes: &[u8]) -> Result<(), Stop> {
        match self {
            TileCall::Judge => {
                let verdict = judge(rt.alloc(), bytes)?;
                println!(rt; "{verdict:?}")?;
            }
            TileCall::JudgeTwice => {
                let first = judge(rt.alloc(), bytes);
                let second = judge(rt.alloc(), bytes);
                println!(rt; "{first:?}, {second:?}")?;
            }
            TileCall::JudgeFeature => {
                let verdict = judge_with(rt.alloc(), Profile::Feature, bytes)?;
                println!(rt; "{verdict:?}")?;
            }
            TileCall::JudgeQuickly => {
                let verdict = judge_quickly(rt.alloc(), Profile::Feature, bytes)?;
                println!(rt; "{verdict:?}")?;
            }
            TileCall::Faults => {
                let faults = faults_with(rt.alloc(), Profile::Feature, bytes)?;
                println!(rt; "{faults:?}")?;
            }
            TileCall::FaultsQuickly => {
                let faults = faults_quickly(rt.alloc(), Profile::Feature, bytes)?;
                println!(rt; "{faults:?}")?;
            }
            TileCall::FaultLines => report_lines(rt, bytes)?,
            TileCall::Mend => {
                let mending = mend_with(rt.alloc(), Profile::Polygon, false, bytes)?;
                println!(rt; "{mending:?}")?;
            }
            TileCall::MendOrDrop => {
                let mending = mend_with(rt.alloc(), Profile::Feature, true, bytes)?;
                println!(rt; "{mending:?}")?;
            }
            TileCall::ReportText => report_changes(rt, bytes)?,
            TileCall::ReadTile => report_tile(rt, bytes)?,
            TileCall::CheckLayers => {
                let fault = check_layers(rt.alloc(), &tile_of(rt.alloc(), bytes)?)?;
                println!(rt; "{fault:?}")?;
            }
            TileCall::CheckTags => report_tags(rt, &tile_of(rt.alloc(), bytes)?)?,
            TileCall::Advise => {
                let advice = advise(rt.alloc(), &tile_of(rt.alloc(), bytes)?)?;
                println!(rt; "{advice:?}")?;
            }
            TileCall::AdviceText => {
                let text = advice_text(rt.alloc(), &advice_of(rt.alloc(), bytes)?)?;
                println!(rt; "{text}")?;
            }
            TileCall::DumpText => {
                let text = dump_text(rt.alloc(), &tile_of(rt.alloc(), bytes)?)?;
                println!(rt; "{text}")?;
            }
            TileCall::FaultText => report_fault(rt, bytes)?,
            TileCall::FaultFromText => match fault_from_text(rt.alloc(), bytes) {
                Err(FaultTextError::Memory) => return Err(Stop::Refused),
                answer => println!(rt; "{answer:?}")?,
            },
        }
        Ok(())
    }
}

/// The tile that a call is made on.
fn tile_of(alloc: Global, bytes: &[u8]) -> Result<Tile<'_>, Stop> {
    match read_tile(alloc, bytes) {
        Ok(tile) => Ok(tile),
        Err(ReadFault::Memory) => Err(Stop::NoInput),
        Err(ReadFault::Wire(_)) => Err(Stop::NoCall),
    }
}

/// The advice that a call is made on.
fn advice_of(alloc: Global, bytes: &[u8]) -> Result<Vec<Advice>, Stop> {
    match advise(alloc, &tile_of(alloc, bytes)?) {
        Ok(advice) => Ok(advice),
        Err(_) => Err(Stop::NoInput),
    }
}

/// Prints what `read_tile` answers.
fn report_tile<R: Print + AllocGlobal>(rt: &R, bytes: &[u8]) -> Result<(), Stop> {
    match read_tile(rt.alloc(), bytes) {
        Err(ReadFault::Memory) => return Err(Stop::Refused),
        Err(ReadFault::Wire(fault)) => println!(rt; "{fault:?}")?,
        Ok(tile) => println!(rt; "{tile:?}")?,
    }
    Ok(())
}

/// Prints the lines of the tile's faults, with no space between them.
fn report_lines<R: Print + AllocGlobal>(rt: &R, bytes: &[u8]) -> Result<(), Stop> {
    let Ok(faults) = faults_with(rt.alloc(), Profile::Feature, bytes) else {
        return Err(Stop::NoInput);
    };
    let lines = fault_lines(rt.alloc(), &faults)?;
    for line in lines.as_str().lines() {
        print!(rt; "{line}")?;
    }
    println!(rt)?;
    Ok(())
}

/// Prints the report on what mending changes in the tile.
fn report_changes<R: Print + AllocGlobal>(rt: &R, bytes: &[u8]) -> Result<(), Stop> {
    let mended = match mend_with(rt.alloc(), Profile::Feature, true, bytes) {
        Ok(Mending::Mended(mended)) => mended,
        Ok(_) => return Err(Stop::NoCall),
        Err(_) => return Err(Stop::NoInput),
    };
    let text = report_text(rt.alloc(), &mended.changes)?;
    println!(rt; "{text}")?;
    Ok(())
}

/// Prints what `check_tags` answers of the first layer's first feature.
fn report_tags<R: Print + AllocGlobal>(rt: &R, tile: &Tile<'_>) -> Result<(), Stop> {
    let Some(layer) = tile.layers.first() else {
        return Err(Stop::NoCall);
    };
    if layer.features.is_empty() {
        return Err(Stop::NoCall);
    }
    let fault = check_tags(rt.alloc(), layer, 0, 0)?;
    println!(rt; "{fault:?}")?;
    Ok(())
}

/// Prints the text of the tile's first wire fault.
fn report_fault<R: Print + AllocGlobal>(rt: &R, bytes: &[u8]) -> Result<(), Stop> {
    let Some(fault) = wire_fault(bytes) else {
        return Err(Stop::NoCall);
    };
    let text = fault_text(rt.alloc(), &fault)?;
    println!(rt; "{text}")?;
    Ok(())
}
