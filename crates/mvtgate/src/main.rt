//! A gate before the publishing of Mapbox vector tiles: the program.
#![tactic(auto)]

mod mend;
mod run;

use std::process::ExitCode;

fn main(rt: HostRuntime) -> ExitCode {
    ExitCode::from(match run::command_words(&rt) {
        Ok(words) => run::run(&rt, &words),
        Err(status) => status,
    })
}
