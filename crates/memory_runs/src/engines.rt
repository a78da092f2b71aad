//! The engines, over devices that take no memory.
use crate::devices::{Sink, Source, Written};
use crate::input::word;
use crate::stop::Stop;
use mvt_fault::Profile;
use mvt_gate::{
    CheckOptions, EngineFault, Outcome, Search, Tally, advise_stream, check_stream,
    check_stream_by, confirm_streams, dump_stream, fields_stream,
};
use std::rt::Env;

/// An engine, and how its devices behave.
#[derive(Clone, Copy)]
pub(crate) enum Engine {
    Fields,
    Check,
    Advise,
    /// `check` with all faults and advice, quickly.
    CheckAll,
    Dump,
    /// The text of the fault is the second word.
    Confirm,
    /// `check` of a reader that fails at its first read.
    CheckUnread,
    /// `check` with a writer that takes three bytes and then fails.
    CheckUnwritten,
}

impl Engine {
    /// The engine of this name.
    pub(crate) fn named(name: &str) -> Option<Engine> {
        Some(match name {
            "fields_stream" => Engine::Fields,
            "check_stream" => Engine::Check,
            "advise_stream" => Engine::Advise,
            "check_stream_by" => Engine::CheckAll,
            "dump_stream" => Engine::Dump,
            "confirm_streams" => Engine::Confirm,
            "check_stream_unread" => Engine::CheckUnread,
            "check_stream_unwritten" => Engine::CheckUnwritten,
            _ => return None,
        })
    }

    /// Runs the engine, and prints its answer, how many bytes it wrote, and which.
    pub(crate) fn run<R: Env + Print + AllocGlobal>(
        self,
        rt: &R,
        bytes: &[u8],
    ) -> Result<(), Stop> {
        let mut claim = [0u8; 256];
        let length = match self {
            Engine::Confirm => word(rt, 2, &mut claim)?.len(),
            _ => 0,
        };
        let Some(claim) = claim.get(..length) else {
            return Err(Stop::NoCall);
        };
        let mut written = Written::new();
        let answer = self.answer(rt, bytes, claim, &mut written);
        let count = written.count();
        match (answer, written.text()) {
            (Err(EngineFault::Memory), _) => println!(rt; "memory refused, {count} bytes written")?,
            (Ok(outcome), Some(text)) => match text.split_once('\n') {
                Some((line, advice)) => {
                    println!(rt; "{outcome:?}, {count} bytes written: {line} and {advice}")?
                }
                None => println!(rt; "{outcome:?}, {count} bytes written: {text}")?,
            },
            (answer, _) => println!(rt; "{answer:?}, {count} bytes written")?,
        }
        Ok(())
    }

    fn answer<R: AllocGlobal>(
        self,
        rt: &R,
        bytes: &[u8],
        claim: &[u8],
        written: &mut Written,
    ) -> Result<Outcome, EngineFault> {
        let source = match self {
            Engine::CheckUnread => Source::failing(),
            _ => Source::new(bytes),
        };
        let limit = match self {
            Engine::CheckUnwritten => 3,
            _ => usize::MAX,
        };
        let mut reader = Tally::new(source);
        let mut writer = Tally::new(Sink::new(written, limit));
        match self {
            Engine::Fields => fields_stream(rt.alloc(), &mut reader, &mut writer),
            Engine::Dump => dump_stream(rt.alloc(), &mut reader, &mut writer),
            Engine::Check | Engine::CheckUnread | Engine::CheckUnwritten => {
                check_stream(rt.alloc(), &mut reader, &mut writer)
            }
            Engine::Advise => {
                advise_stream(rt.alloc(), Profile::Polygon, &mut reader, &mut writer)
            }
            Engine::CheckAll => {
                let options = CheckOptions {
                    profile: Profile::Feature,
                    search: Search::Quick,
                    all: true,
                    advice: true,
                };
                check_stream_by(rt.alloc(), options, &mut reader, &mut writer)
            }
            Engine::Confirm => {
                let mut claimed = Tally::new(Source::new(claim));
                confirm_streams(rt.alloc(), &mut reader, &mut claimed, &mut writer)
            }
        }
    }
}
