//! The run of `mend`.
ghost use Rattle.std.specs.Prelude.{◌≤◌};

use mvt_gate::Tally;
use mvt_mender::mend_stream;
use mvtgate_devices::{ReportFile, StandardError};
use mvtgate_runs::{BAD_DEVICE, end};
use mvtgate_words::MendWords;
use std::fs::OpenOptions;
use std::io::{Read, Write};
use std::rt::Files;
use std::{fs, io};

/// Runs `mend`. Both files are opened before a byte is read, the tile first.
pub fn run_mend<R: Files + Input + Print + Eprint + AllocGlobal>(
    rt: &R,
    options: MendWords,
    file: Option<&str>,
    report: Option<&str>,
) -> u8
    ensures { result ≤ 5 }
{
    let Some(path) = file else {
        return mend_from(rt, options, rt.reader(), report);
    };
    let Ok(opened) = fs::open(rt, path) else {
        let _ = eprintln!(rt; "mvtgate: cannot open the tile file");
        return BAD_DEVICE;
    };
    mend_from(rt, options, opened, report)
}

/// Runs `mend` on an input.
fn mend_from<R: Files + Print + Eprint + AllocGlobal, I: Read + Drop>(
    rt: &R,
    options: MendWords,
    input: I,
    report: Option<&str>,
) -> u8
    ensures { result ≤ 5 }
{
    let Some(path) = report else {
        return mend_to(rt, options, input, StandardError::new(rt));
    };
    // (it isn't emptied yet: the tile may be in the same file)
    let Ok(opened) = OpenOptions::new().write(true).create(true).open(rt, path) else {
        let _ = eprintln!(rt; "mvtgate: cannot open the report file");
        return BAD_DEVICE;
    };
    mend_to(rt, options, input, ReportFile::new(opened))
}

/// Runs `mend` on an input, with a device for the line that tells what was changed. The line of a
/// fault goes to standard error.
fn mend_to<R: Print + Eprint + AllocGlobal, I: Read + Drop, V: Write + Drop>(
    rt: &R,
    options: MendWords,
    input: I,
    report: V,
) -> u8
    ensures { result ≤ 5 }
{
    let mut reader = Tally::new(input);
    let mut writer = Tally::new(io::writer(rt));
    let mut report = Tally::new(report);
    let mut errors = Tally::new(StandardError::new(rt));
    let answer = mend_stream(
        rt.alloc(),
        options.profile,
        options.drop_unmended,
        &mut reader,
        &mut writer,
        &mut report,
        &mut errors,
    );
    end(rt, answer)
}
