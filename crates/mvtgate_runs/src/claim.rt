//! The run of `confirm`.
ghost use Rattle.std.specs.Prelude.{◌≤◌};

use crate::status::{BAD_DEVICE, end};
use mvt_fault::Profile;
use mvt_gate::{Tally, confirm_streams_with};
use std::rt::Files;
use std::{fs, io};

/// Runs `confirm`. Both files are opened before a byte is read, the tile first.
pub fn run_confirm<R: Files + Input + Print + Eprint + AllocGlobal>(
    rt: &R,
    profile: Profile,
    tile: &str,
    fault: &str,
) -> u8
    ensures { result ≤ 5 }
{
    let Ok(opened_tile) = fs::open(rt, tile) else {
        let _ = eprintln!(rt; "mvtgate: cannot open the tile file");
        return BAD_DEVICE;
    };
    let Ok(opened_fault) = fs::open(rt, fault) else {
        let _ = eprintln!(rt; "mvtgate: cannot open the fault file");
        return BAD_DEVICE;
    };
    let mut tile_reader = Tally::new(opened_tile);
    let mut fault_reader = Tally::new(opened_fault);
    let mut writer = Tally::new(io::writer(rt));
    let answer = confirm_streams_with(
        rt.alloc(),
        profile,
        &mut tile_reader,
        &mut fault_reader,
        &mut writer,
    );
    end(rt, answer)
}
