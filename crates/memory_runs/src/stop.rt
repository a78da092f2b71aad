use std::alloc::AllocError;
use std::io;

/// Why a run prints no answer.
#[derive(Clone, Copy)]
pub(crate) enum Stop {
    /// The words and the input are those of no call.
    NoCall,
    /// Memory was refused to what the call is made on.
    NoInput,
    /// Memory was refused to the call.
    Refused,
    /// The line was not printed.
    NotPrinted,
}

impl From<AllocError> for Stop {
    fn from(_: AllocError) -> Stop {
        Stop::Refused
    }
}

impl From<io::Error> for Stop {
    fn from(_: io::Error) -> Stop {
        Stop::NotPrinted
    }
}
