//! Runs of an engine on one tile.
ghost use Rattle.std.specs.Prelude.{◌≤◌};
ghost use Rattle.mvt_engine.specs.Engine.{IsRunOf};

use crate::status::{BAD_DEVICE, end};
use mvt_gate::{
    CheckOptions, EngineFault, Outcome, Tally, check_stream_by, dump_stream, fields_stream,
};
use mvtgate_devices::NotEmpty;
use std::alloc::Global;
use std::io::{Read, Write};
use std::rt::Files;
use std::{fs, io};

/// What the program does with a tile alone.
#[derive(Clone, Copy)]
pub enum Engine {
    Fields,
    Check(CheckOptions),
    Dump,
}

impl Engine {
    ghost use Rattle.mvtgate_runs.specs.Answer.{IsAnswer};

    fn stream<R: Read, W: Write>(
        self,
        alloc: Global,
        reader: &mut Tally<R>,
        writer: &mut Tally<W>,
    ) -> Result<Outcome, EngineFault>
        ensures { IsRunOf (IsAnswer self)
            R.remaining W.contents reader.old reader.new writer.old writer.new result }
    {
        match self {
            Engine::Fields => fields_stream(alloc, reader, writer),
            Engine::Check(options) => check_stream_by(alloc, options, reader, writer),
            Engine::Dump => dump_stream(alloc, reader, writer),
        }
    }
}

/// Runs an engine on the tile of a file, or of standard input.
pub fn run_engine<R: Files + Input + Print + Eprint + AllocGlobal>(
    rt: &R,
    engine: Engine,
    file: Option<&str>,
    may_be_empty: bool,
) -> u8
    ensures { result ≤ 5 }
{
    let Some(path) = file else {
        return run_on(rt, engine, rt.reader(), may_be_empty);
    };
    let Ok(opened) = fs::open(rt, path) else {
        let _ = eprintln!(rt; "mvtgate: cannot open the tile file");
        return BAD_DEVICE;
    };
    run_on(rt, engine, opened, may_be_empty)
}

/// Runs an engine on an input.
fn run_on<R: Print + Eprint + AllocGlobal, I: Read + Drop>(
    rt: &R,
    engine: Engine,
    input: I,
    may_be_empty: bool,
) -> u8
    ensures { result ≤ 5 }
{
    let mut writer = Tally::new(io::writer(rt));
    if may_be_empty {
        let mut reader = Tally::new(input);
        return end(rt, engine.stream(rt.alloc(), &mut reader, &mut writer));
    }
    let mut input = NotEmpty::new(input);
    let mut reader = Tally::new(&mut input);
    let answer = engine.stream(rt.alloc(), &mut reader, &mut writer);
    if input.is_empty() {
        let _ = eprintln!(rt; "mvtgate: the input is empty");
        return BAD_DEVICE;
    }
    end(rt, answer)
}
