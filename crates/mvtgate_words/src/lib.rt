//! The words that the program knows, what its help says of them, and the call that they make.
#![tactic(auto)]

mod call;
mod refusal;

pub use call::{Call, CheckWords, MendWords, call_of_words};
use clap::{Arg, ArgAction, Command};
pub use refusal::Refusal;
use std::alloc::{AllocError, Global};

/// The version of the program.
const VERSION: &str = "0.1.0";

/// What the help says of exit statuses.
const STATUSES: &str = "\
Exit status:
  0  check: the tile is valid; confirm: the fault is confirmed; dump, fields: the tile is listed; mend: a valid tile is written
  1  check, dump, fields: the line is a fault; confirm: the fault is not confirmed; mend: the line is the fault that stays, and no tile is written
  2  the words of the command line are no call of the program
  3  a file did not open, an input was not read, has more than 64 MiB or (with --not-empty) no byte, or the output failed
  4  out of memory
  5  the fault file holds no fault";

/// The names of the profiles, that by which each polygon is checked by itself first.
static PROFILES: [&str; 2] = ["polygon", "feature"];

/// What the help of a command says of profiles.
const PROFILE_RULES: &str = "\
Profiles:
  polygon  the rings of each polygon neither cross nor touch, and its holes are inside it and not inside each other
  feature  the same, and the polygons of one feature neither cross nor touch, and lie in each other only in a hole";

/// What the help says of the flag that asks for all faults.
const ALL: &str =
    "Writes a line for each fault: the first of each layer and of each feature that has any";

/// What the help says of the flag that asks for a quick verdict.
const QUICK: &str =
    "Answers in bounded time: where edges of a feature meet, any meeting may be named in place of its first fault";

/// What the help says of the flag that asks for advice.
const ADVICE: &str =
    "Adds a line of what may be mistakes: no layer, no feature in a layer, equal keys, equal ids";

/// What the help says of the flag that refuses an input of no bytes.
const NOT_EMPTY: &str =
    "Refuses an input of no bytes, which is a valid tile, and what a broken pipe may leave";

/// What the help says of the flag that leaves features out.
const DROP: &str = "Leaves out the features that cannot be mended";

/// What the help says of the option that names a file for the line of `mend`.
const REPORT: &str =
    "The file for the line that tells what was changed; without it that goes to standard error";

/// The program with its commands.
fn command_line<'a>(alloc: Global) -> Result<Command<'a>, AllocError> {
    let command = with_command(program(alloc), fields_command(alloc))?;
    let command = with_command(command, check_command(alloc))?;
    let command = with_command(command, dump_command(alloc))?;
    let command = with_command(command, mend_command(alloc))?;
    with_command(command, confirm_command(alloc))
}

/// The program with one command more, where memory sufficed to make it.
fn with_command<'a>(
    program: Command<'a>,
    made: Result<Command<'a>, AllocError>,
) -> Result<Command<'a>, AllocError> {
    program.subcommand(made?)
}

/// The program, with no command yet.
fn program<'a>(alloc: Global) -> Command<'a> {
    Command::new(alloc, "mvtgate")
        .version(VERSION)
        .about(
            "A publishing gate for Mapbox vector tiles. Tiles come uncompressed: gunzip them first.",
        )
        .after_help(STATUSES)
        .subcommand_required(true)
}

fn fields_command<'a>(alloc: Global) -> Result<Command<'a>, AllocError> {
    tile_command(alloc, "fields", "Lists the outermost fields of a tile")
}

fn check_command<'a>(alloc: Global) -> Result<Command<'a>, AllocError> {
    let about = "Says whether a tile is valid, and else names its first fault";
    let command = with_profile(alloc, tile_command(alloc, "check", about)?)?;
    let command = with_flag(alloc, command, "all", ALL)?;
    let command = with_flag(alloc, command, "quick", QUICK)?;
    let command = with_flag(alloc, command, "advice", ADVICE)?;
    with_flag(alloc, command, "not-empty", NOT_EMPTY)
}

fn dump_command<'a>(alloc: Global) -> Result<Command<'a>, AllocError> {
    tile_command(alloc, "dump", "Lists what a tile holds")
}

/// The command that writes a tile.
fn mend_command<'a>(alloc: Global) -> Result<Command<'a>, AllocError> {
    let about =
        "Writes a valid tile in place of one with wrong polygons, and tells what was changed";
    let command = with_profile(alloc, tile_command(alloc, "mend", about)?)?;
    let command = with_flag(alloc, command, "drop", DROP)?;
    let report = Arg::new(alloc, "report")
        .long("report")
        .value_name("REPORT")
        .help(REPORT);
    command.arg(report)
}

/// The command that reads a tile and a fault.
fn confirm_command<'a>(alloc: Global) -> Result<Command<'a>, AllocError> {
    let tile = Arg::new(alloc, "FILE").help("The tile").required(true);
    let fault = Arg::new(alloc, "FAULTFILE")
        .help("The fault, as check writes it")
        .required(true);
    let command = Command::new(alloc, "confirm").about("Says whether a fault is true of a tile");
    with_profile(alloc, command.arg(tile)?.arg(fault)?)
}

/// A command that reads one tile.
fn tile_command<'a>(
    alloc: Global,
    name: &'a str,
    about: &'a str,
) -> Result<Command<'a>, AllocError> {
    let file = Arg::new(alloc, "FILE").help("The tile; without it standard input");
    Command::new(alloc, name).about(about).arg(file)
}

/// The command with the option that names a profile.
fn with_profile<'a>(alloc: Global, command: Command<'a>) -> Result<Command<'a>, AllocError> {
    let profile = Arg::new(alloc, "profile")
        .long("profile")
        .value_name("PROFILE")
        .value_parser(PROFILES.as_slice())
        .default_value(PROFILES[0])
        .help("What the polygons of a feature are held against");
    command.after_help(PROFILE_RULES).arg(profile)
}

/// The command with a flag.
fn with_flag<'a>(
    alloc: Global,
    command: Command<'a>,
    name: &'a str,
    help: &'a str,
) -> Result<Command<'a>, AllocError> {
    let flag = Arg::new(alloc, name)
        .long(name)
        .action(ArgAction::SetTrue)
        .help(help);
    command.arg(flag)
}
