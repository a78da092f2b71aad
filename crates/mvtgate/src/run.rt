//! The whole run of the program: its words, its call and its exit status.
ghost use Rattle.std.specs.Prelude.{◌≡◌, ◌≤◌, ◌⊎◌, IsTrue, IsFalse, IfErr};

use crate::mend::run_mend;
use mvt_gate::{CheckOptions, EngineFault, Search};
use mvtgate_runs::{BAD_WORDS, Engine, end, run_confirm, run_engine};
use mvtgate_words::{Call, CheckWords, Refusal, call_of_words};
use std::rt::{Env, Files};
use std::{env, io};

/// Runs the program on the words of a command line, of which the first is the program's name, and
/// returns its exit status.
pub fn run<R: Files + Input + Print + Eprint + AllocGlobal>(rt: &R, words: &[String]) -> u8
    ensures { result ≤ 5 }
{
    match call_of_words(rt, words) {
        Ok(call) => run_call(rt, call),
        Err(Refusal::Help) => 0,
        Err(Refusal::Mistake) => BAD_WORDS,
        Err(Refusal::OutOfMemory) => end(rt, Err(EngineFault::Memory)),
    }
}

/// Runs a call. An engine's input may be of no bytes, unless the words of `check` refuse that.
fn run_call<R: Files + Input + Print + Eprint + AllocGlobal>(rt: &R, call: Call<'_>) -> u8
    ensures { result ≤ 5 }
{
    match call {
        Call::Fields { file } => run_engine(rt, Engine::Fields, file, true),
        Call::Check { options, file } => {
            let engine = Engine::Check(check_options(options));
            run_engine(rt, engine, file, options.may_be_empty)
        }
        Call::Dump { file } => run_engine(rt, Engine::Dump, file, true),
        Call::Mend {
            options,
            file,
            report,
        } => run_mend(rt, options, file, report),
        Call::Confirm {
            profile,
            tile,
            fault,
        } => run_confirm(rt, profile, tile, fault),
    }
}

/// What `check` is asked for.
fn check_options(words: CheckWords) -> CheckOptions
    ensures profile { result.profile ≡ words.profile }
    ensures quick { IsTrue words.quick → result.search ≡ Search.Quick }
    ensures least { IsFalse words.quick → result.search ≡ Search.Least }
    ensures all { result.all ≡ words.all }
    ensures advice { result.advice ≡ words.advice }
{
    CheckOptions {
        profile: words.profile,
        search: if words.quick {
            Search::Quick
        } else {
            Search::Least
        },
        all: words.all,
        advice: words.advice,
    }
}

/// The words of the command line. Where they are not to be had, a line says why, and the error is
/// the exit status.
pub fn command_words<R: Env + Eprint + AllocGlobal>(rt: &R) -> Result<Vec<String>, u8>
    ensures { IfErr result (λ status. (status ≡ 2) ⊎ (status ≡ 4)) }
{
    let mut words = Vec::new(rt.alloc());
    match env::args(rt) {
        Ok(args) => {
            for word in args {
                if words.push(word).is_err() {
                    return Err(end(rt, Err(EngineFault::Memory)));
                }
            }
            Ok(words)
        }
        Err(error) if error.kind() == io::ErrorKind::OutOfMemory => {
            Err(end(rt, Err(EngineFault::Memory)))
        }
        Err(_) => {
            let _ = eprintln!(rt; "mvtgate: a word of the command line is not UTF-8");
            Err(BAD_WORDS)
        }
    }
}

#[cfg(test)]
mod tests;
