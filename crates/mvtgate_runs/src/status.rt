//! The exit status of a run.
ghost use Rattle.std.specs.Prelude.{◌≡◌};
ghost use Rattle.mvtgate_runs.specs.Status.{status_of};

use mvt_gate::{EngineFault, Outcome};

/// The exit status where the words of the command line are no call of the program.
pub const BAD_WORDS: u8 = 2;

/// The exit status of a run whose devices fail.
pub const BAD_DEVICE: u8 = 3;

/// The exit status of a run that memory does not suffice for.
const NO_MEMORY: u8 = 4;

/// The exit status of a run on a fault file that holds no fault.
const BAD_FAULT: u8 = 5;

/// The status of an engine's answer. A fault of the run becomes one line on standard error, and
/// whether that line could be written changes no status.
pub fn end(rt: &impl Eprint, answer: Result<Outcome, EngineFault>) -> u8
    ensures { result ≡ status_of answer }
{
    match answer {
        Ok(Outcome::Yes) => 0,
        Ok(Outcome::No) => 1,
        Err(fault) => {
            let _ = eprintln!(rt; "{fault}");
            match fault {
                EngineFault::Read | EngineFault::TooLarge | EngineFault::Write => BAD_DEVICE,
                EngineFault::NotJson | EngineFault::NotAFault | EngineFault::FaultRange => {
                    BAD_FAULT
                }
                EngineFault::Memory => NO_MEMORY,
            }
        }
    }
}
