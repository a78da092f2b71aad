//! The engine of `fields`: the outermost fields of a tile, as one line of JSON.
ghost use Rattle.mvt_engine.specs.Engine.{IsRunOf};
ghost use Rattle.mvt_engine.specs.Fields.{IsFieldsAnswer};

mod defect;
mod line;

use crate::engine;
use crate::engine::{EngineFault, Outcome, Task, fault_line};
use crate::tally::Tally;
use defect::first_defect;
use line::fields_line;
use mvt_fault::{Scope, wire_fault_in};
use std::alloc::{AllocError, Global};
use std::io::{Read, Write};

/// Reads a whole tile, of at most 67,108,864 bytes, and writes the line of its outermost fields
/// (Protocol Buffers encoding, "Message Structure"), or of the fault of their encoding, with one
/// LF. `Read` and `Write` come only where a device failed or the devices were interrupted too
/// often, and `TooLarge` only where the input is too large, as the counts show. The only other
/// error is `Memory`.
pub fn fields_stream<R: Read, W: Write>(
    alloc: Global,
    reader: &mut Tally<R>,
    writer: &mut Tally<W>,
) -> Result<Outcome, EngineFault>
    ensures { IsRunOf IsFieldsAnswer
        R.remaining W.contents reader.old reader.new writer.old writer.new result }
{
    engine::run(alloc, &ListFields, reader, writer)
}

/// To list a tile's outermost fields.
struct ListFields;

impl Task for ListFields {
    ghost IsAnswer = { λ _. IsFieldsAnswer };

    // The message is walked for a defect first, so that a tile with a broken field takes memory for
    // the line of its fault alone.
    fn answer(&self, alloc: Global, input: &[u8]) -> Result<(Outcome, String), AllocError> {
        match first_defect(input) {
            None => Ok((Outcome::Yes, fields_line(alloc, input)?)),
            Some(cause) => {
                let fault = wire_fault_in(Scope::Tile, cause);
                Ok((Outcome::No, fault_line(alloc, &fault)?))
            }
        }
    }
}
