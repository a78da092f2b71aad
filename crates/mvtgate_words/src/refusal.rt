//! Why the words of a command line are no call.
ghost use Rattle.std.specs.Prelude.{◌≡◌, ◌≢◌};
ghost use Rattle.clap.specs.Words.{kind_of};

use clap::error::ErrorKind;

/// Why the words make no call.
#[derive(Clone, Copy, Debug, PartialEq, Eq)]
pub enum Refusal {
    /// They ask for help or for the version, which is printed.
    Help,
    /// They are none that the program knows, which was said on standard error.
    Mistake,
    /// Memory was refused.
    OutOfMemory,
}

/// Prints what `clap` has to say: help and the version on standard output, and anything else as an
/// error.
pub fn explain<R: Print + Eprint>(rt: &R, error: &clap::Error) -> Refusal
    ensures help { kind_of error.now ≡ ErrorKind.DisplayHelp → result ≡ Refusal.Help }
    ensures version { kind_of error.now ≡ ErrorKind.DisplayVersion → result ≡ Refusal.Help }
    ensures memory { kind_of error.now ≡ ErrorKind.OutOfMemory → result ≡ Refusal.OutOfMemory }
    ensures mistake { kind_of error.now ≢ ErrorKind.DisplayHelp →
        kind_of error.now ≢ ErrorKind.DisplayVersion →
        kind_of error.now ≢ ErrorKind.OutOfMemory → result ≡ Refusal.Mistake }
{
    if error.kind() == ErrorKind::OutOfMemory {
        return Refusal::OutOfMemory;
    }
    let _ = error.print(rt);
    if error.use_stderr() {
        Refusal::Mistake
    } else {
        Refusal::Help
    }
}
