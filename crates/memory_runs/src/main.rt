//! One call that may ask for memory, on one input, for `tests/memory`, which refuses each of its
//! requests in turn: memory_runs CALL [WORD..]. The input is what standard input holds. It prints
//! one line: the call's answer, or that memory was refused to the call or to what the call is made
//! on. What it does itself takes no memory.
#![tactic(auto)]

mod devices;
mod engines;
mod figures;
mod input;
mod lists;
mod polygons;
mod status;
mod stop;
mod tiles;

use engines::Engine;
use figures::FigureCall;
use input::{ROOM, read_input, word};
use lists::ListCall;
use polygons::PolygonCall;
use std::process::ExitCode;
use std::rt::Env;
use stop::Stop;
use tiles::TileCall;

fn main(rt: HostRuntime) -> ExitCode {
    let line = match run(&rt) {
        Ok(()) => return ExitCode::SUCCESS,
        Err(Stop::Refused) => "memory refused",
        Err(Stop::NoInput) => "no memory for the input",
        Err(Stop::NoCall | Stop::NotPrinted) => return ExitCode::FAILURE,
    };
    match println!(rt; "{line}") {
        Ok(()) => ExitCode::SUCCESS,
        Err(_) => ExitCode::FAILURE,
    }
}

/// Makes the call that the words name, and prints its answer.
fn run<R: Env + Input + Print + AllocGlobal>(rt: &R) -> Result<(), Stop> {
    let mut name = [0u8; 64];
    let mut room = [0u8; ROOM];
    let name = word(rt, 1, &mut name)?;
    if let Some(call) = ListCall::named(name) {
        return call.run(rt);
    }
    let bytes = read_input(rt, &mut room)?;
    if let Some(call) = TileCall::named(name) {
        call.run(rt, bytes)
    } else if let Some(engine) = Engine::named(name) {
        engine.run(rt, bytes)
    } else if let Some(call) = FigureCall::named(name) {
        call.run(rt, bytes)
    } else if let Some(call) = PolygonCall::named(name) {
        call.run(rt, bytes)
    } else {
        Err(Stop::NoCall)
    }
}
