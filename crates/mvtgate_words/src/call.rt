//! The call that the words of a command line make.
ghost use Rattle.std.specs.Prelude.{◌≡◌, ◌≢◌, codes, IsTrue, IsFalse, None, Some};
ghost use Rattle.clap.specs.Words.{first_value, found_of, one_text};

use crate::command_line;
use crate::refusal::{Refusal, explain};
use clap::ArgMatches;
use mvt_fault::Profile;

/// The call that the words make, and the files that they name. A tile without a file comes from
/// standard input.
#[derive(Clone, Copy)]
pub enum Call<'a> {
    Fields {
        file: Option<&'a str>,
    },
    Check {
        options: CheckWords,
        file: Option<&'a str>,
    },
    Dump {
        file: Option<&'a str>,
    },
    /// A valid tile in place of one, and where the line goes that tells what was changed: to a file
    /// or to standard error.
    Mend {
        options: MendWords,
        file: Option<&'a str>,
        report: Option<&'a str>,
    },
    /// Whether a fault is true of a tile, each of a file.
    Confirm {
        profile: Profile,
        tile: &'a str,
        fault: &'a str,
    },
}

/// What the words ask `check` for.
#[derive(Clone, Copy)]
pub struct CheckWords {
    /// The rules.
    pub profile: Profile,
    /// Whether any fault serves where the search for the first may take long.
    pub quick: bool,
    /// Whether all faults are listed.
    pub all: bool,
    /// Whether advice is given.
    pub advice: bool,
    /// Whether the input may be of no bytes.
    pub may_be_empty: bool,
}

/// What the words ask `mend` for.
#[derive(Clone, Copy)]
pub struct MendWords {
    /// The rules.
    pub profile: Profile,
    /// Whether features that can't be mended are left out.
    pub drop_unmended: bool,
}

/// The call that the words of a command line make, of which the first is the program's name. Where
/// they make none, what is to be said of it is printed.
pub fn call_of_words<'a, R: Print + Eprint + AllocGlobal>(
    rt: &R,
    words: &'a [String],
) -> Result<Call<'a>, Refusal> {
    let Ok(command) = command_line(rt.alloc()) else {
        return Err(Refusal::OutOfMemory);
    };
    match command.try_get_matches_from(words) {
        // (`clap` itself refuses a command line with no command)
        Ok(matches) => call_of(&matches).ok_or(Refusal::Mistake),
        Err(error) => Err(explain(rt, &error)),
    }
}

/// The call that the words make, and the files that they name.
fn call_of<'a>(matches: &ArgMatches<'a>) -> Option<Call<'a>> {
    let (name, found) = matches.subcommand()?;
    let file = found.get_str("FILE");
    Some(match name {
        "fields" => Call::Fields { file },
        "check" => Call::Check {
            options: check_words(found),
            file,
        },
        "dump" => Call::Dump { file },
        "mend" => Call::Mend {
            options: mend_words(found),
            file,
            report: found.get_str("report"),
        },
        "confirm" => Call::Confirm {
            profile: profile_of(found),
            tile: file?,
            fault: found.get_str("FAULTFILE")?,
        },
        _ => return None,
    })
}

/// The profile that the words name, which `clap` has checked; without one that of polygons.
fn profile_of(found: &ArgMatches<'_>) -> Profile
    ensures feature { first_value (found_of found.now) (codes "profile") ≡ Some (codes "feature")
        → result ≡ Profile.Feature }
    ensures polygon { first_value (found_of found.now) (codes "profile") ≢ Some (codes "feature")
        → result ≡ Profile.Polygon }
{
    match found.get_str("profile") {
        Some("feature") => Profile::Feature,
        _ => Profile::Polygon,
    }
}

/// What the words ask `check` for.
fn check_words(found: &ArgMatches<'_>) -> CheckWords
    ensures feature { first_value (found_of found.now) (codes "profile") ≡ Some (codes "feature")
        → result.profile ≡ Profile.Feature }
    ensures polygon { first_value (found_of found.now) (codes "profile") ≢ Some (codes "feature")
        → result.profile ≡ Profile.Polygon }
    ensures quick { one_text (found_of found.now) (codes "quick") ≡ Some (codes "true")
        → IsTrue result.quick }
    ensures least { one_text (found_of found.now) (codes "quick") ≡ Some (codes "false")
        → IsFalse result.quick }
    ensures least_unasked { one_text (found_of found.now) (codes "quick") ≡ None
        → IsFalse result.quick }
    ensures all { one_text (found_of found.now) (codes "all") ≡ Some (codes "true")
        → IsTrue result.all }
    ensures first { one_text (found_of found.now) (codes "all") ≡ Some (codes "false")
        → IsFalse result.all }
    ensures advice { one_text (found_of found.now) (codes "advice") ≡ Some (codes "true")
        → IsTrue result.advice }
    ensures no_advice { one_text (found_of found.now) (codes "advice") ≡ Some (codes "false")
        → IsFalse result.advice }
    ensures refused { one_text (found_of found.now) (codes "not-empty") ≡ Some (codes "true")
        → IsFalse result.may_be_empty }
    ensures plain { one_text (found_of found.now) (codes "not-empty") ≡ Some (codes "false")
        → IsTrue result.may_be_empty }
    ensures plain_unasked { one_text (found_of found.now) (codes "not-empty") ≡ None
        → IsTrue result.may_be_empty }
{
    CheckWords {
        profile: profile_of(found),
        quick: found.get_flag("quick"),
        all: found.get_flag("all"),
        advice: found.get_flag("advice"),
        may_be_empty: !found.get_flag("not-empty"),
    }
}

/// What the words ask `mend` for.
fn mend_words(found: &ArgMatches<'_>) -> MendWords
    ensures feature { first_value (found_of found.now) (codes "profile") ≡ Some (codes "feature")
        → result.profile ≡ Profile.Feature }
    ensures polygon { first_value (found_of found.now) (codes "profile") ≢ Some (codes "feature")
        → result.profile ≡ Profile.Polygon }
    ensures dropped { one_text (found_of found.now) (codes "drop") ≡ Some (codes "true")
        → IsTrue result.drop_unmended }
    ensures kept { one_text (found_of found.now) (codes "drop") ≡ Some (codes "false")
        → IsFalse result.drop_unmended }
{
    MendWords {
        profile: profile_of(found),
        drop_unmended: found.get_flag("drop"),
    }
}
