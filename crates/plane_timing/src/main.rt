//! Calls of the plane in a loop, which `bench/plane` times from outside: plane_timing CALL ROUNDS.
//! It prints a sum over the answers, by which its peer shows that it does the same.
#![tactic(auto)]

mod points;
mod rounds;

use rounds::Call;
use std::env;
use std::process::ExitCode;
use std::rt::Env;

fn main(rt: HostRuntime) -> ExitCode {
    let Some(sum) = run(&rt) else {
        return ExitCode::FAILURE;
    };
    match println!(rt; "{sum}") {
        Ok(()) => ExitCode::SUCCESS,
        Err(_) => ExitCode::FAILURE,
    }
}

/// The sum over all rounds of the words' call, or None where the words name none or memory is
/// refused.
fn run<R: Env + AllocGlobal>(rt: &R) -> Option<u64> {
    let mut words = env::args(rt).ok()?;
    words.next()?;
    let call = Call::named(words.next()?.as_str())?;
    let rounds: u32 = words.next()?.parse().ok()?;
    let points = call.points(rt.alloc())?;
    let mut sum = 0_u64;
    for turn in 0..rounds {
        // (no two rounds that follow each other are the same, so none can be left out)
        let first = turn as usize % 16;
        if first < points.len() {
            sum = sum.wrapping_add(call.round(&points[first..]));
        }
    }
    Some(sum)
}
