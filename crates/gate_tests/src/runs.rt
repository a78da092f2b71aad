//! Runs of the engines, for tests.
use crate::device::{CALM, Manner, Sink, Source, bytes_of};
use mvt_fault::Profile;
use mvt_gate::{
    CheckOptions, EngineFault, Outcome, Tally, advise_stream, check_stream, check_stream_by,
    check_stream_with, confirm_streams, confirm_streams_with, dump_stream, fields_stream,
};
use std::test::Fail;

mod devices;

/// A polygon whose edges 0 and 2 cross, and its fault.
pub const CROSSED: &str = "1a 16 78 02 0a 01 61 12 0f 18 03 22 0b 09 00 10 1a 14 0f 00 14 13 13 0f";

pub const CROSSING: &str =
    r#"{"code":504,"feature":0,"first":{"edge":0,"ring":0},"layer":0,"polygon":0,"second":{"edge":2,"ring":0},"w":"180","x":"800","y":"800"}"#;

/// An engine.
#[derive(Clone, Copy)]
pub enum Engine {
    Fields,
    Check,
    Dump,
    Confirm,
    /// `check` by a profile.
    CheckBy(Profile),
    /// `check` by a profile, with advice.
    AdviseBy(Profile),
    /// `check` with options.
    CheckOf(CheckOptions),
    /// `confirm` by a profile.
    ConfirmBy(Profile),
}

/// Runs an engine on a tile, and `confirm` on a claim too, with devices of these manners for the
/// tile, for the claim and for the line: its result, and what goes out.
pub(crate) fn run(
    rt: &HostRuntime,
    engine: Engine,
    (tile, claim): (&[u8], &str),
    [of_tile, of_claim, of_writer]: [Manner; 3],
    taken: &mut Vec<u8>,
) -> Result<Outcome, EngineFault> {
    let mut tile = Tally::new(Source::new(tile, of_tile));
    let mut claim = Tally::new(Source::new(claim.as_bytes(), of_claim));
    let mut writer = Tally::new(Sink::new(taken, of_writer));
    match engine {
        Engine::Fields => fields_stream(rt.alloc(), &mut tile, &mut writer),
        Engine::Check => check_stream(rt.alloc(), &mut tile, &mut writer),
        Engine::Dump => dump_stream(rt.alloc(), &mut tile, &mut writer),
        Engine::Confirm => confirm_streams(rt.alloc(), &mut tile, &mut claim, &mut writer),
        Engine::CheckBy(profile) => {
            check_stream_with(rt.alloc(), profile, &mut tile, &mut writer)
        }
        Engine::AdviseBy(profile) => advise_stream(rt.alloc(), profile, &mut tile, &mut writer),
        Engine::CheckOf(options) => { check_stream_by(rt.alloc(), options, &mut tile, &mut writer) }
        Engine::ConfirmBy(profile) => {
            confirm_streams_with(rt.alloc(), profile, &mut tile, &mut claim, &mut writer)
        }
    }
}

/// Whether an engine of one input answers so: its outcome, and the line or lines, which it ends
/// with one LF.
pub(crate) fn writes(rt: &HostRuntime, engine: Engine, bytes: &[u8], line: &str) -> bool {
    let mut taken = Vec::new(rt.alloc());
    let got = run(rt, engine, (bytes, ""), [CALM; 3], &mut taken);
    let is_ended = taken.pop() == Some(b'\n');
    is_ended && got == Ok(outcome_of(line)) && taken.as_slice() == line.as_bytes()
}

/// The outcome that goes with a line.
fn outcome_of(line: &str) -> Outcome {
    if line.starts_with("{\"at\":") || line.starts_with("{\"code\":") {
        Outcome::No
    } else {
        Outcome::Yes
    }
}

/// How many rows of a table hold before the first that does not, if any. A row has bytes in
/// hexadecimal and the line that the engine writes of them.
pub(crate) fn rows_held(rt: &HostRuntime, engine: Engine, rows: &str) -> Result<u32, Fail> {
    let mut held = 0_u32;
    for row in rows.lines() {
        if let Some((text, line)) = row.split_once(" => ") {
            let bytes = bytes_of(rt, text)?;
            if !writes(rt, engine, &bytes, line) {
                break;
            }
            held = held.saturating_add(1);
        }
    }
    Ok(held)
}
