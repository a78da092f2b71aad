//! The engine of `dump`: what a tile holds, as one line of JSON.
ghost use Rattle.mvt_engine.specs.Dump.{IsDumpAnswer};
ghost use Rattle.mvt_engine.specs.Engine.{IsRunOf};

mod feature;
mod part;
mod text;
mod value;

use crate::engine;
use crate::engine::{EngineFault, Outcome, Task, fault_line};
use crate::tally::Tally;
use mvt_tile::{ReadFault, read_tile};
pub use part::{Part, push_list};
use std::alloc::{AllocError, Global};
use std::io::{Read, Write};
pub use text::dump_text;
pub use value::push_string;

/// Reads a whole tile, of at most 67,108,864 bytes, and writes the line of what it holds, with one
/// LF: the text of `dump_text` for a tile by the Mapbox Vector Tile Specification 2.1, section 4,
/// whatever rules between its parts it breaks; or else the JSON text of its first wire fault.
/// `Read` and `Write` come only where a device failed or the devices were interrupted too often,
/// and `TooLarge` only where the input is too large, as the counts show. The only other error is
/// `Memory`.
pub fn dump_stream<R: Read, W: Write>(
    alloc: Global,
    reader: &mut Tally<R>,
    writer: &mut Tally<W>,
) -> Result<Outcome, EngineFault>
    ensures { IsRunOf IsDumpAnswer
        R.remaining W.contents reader.old reader.new writer.old writer.new result }
{
    engine::run(alloc, &DumpTile, reader, writer)
}

/// To dump a tile.
struct DumpTile;

impl Task for DumpTile {
    ghost IsAnswer = { λ _. IsDumpAnswer };

    fn answer(&self, alloc: Global, input: &[u8]) -> Result<(Outcome, String), AllocError> {
        match read_tile(alloc, input) {
            Ok(tile) => {
                let mut line = dump_text(alloc, &tile)?;
                line.push_str("\n")?;
                Ok((Outcome::Yes, line))
            }
            Err(ReadFault::Wire(fault)) => Ok((Outcome::No, fault_line(alloc, &fault)?)),
            Err(ReadFault::Memory) => Err(AllocError),
        }
    }
}
