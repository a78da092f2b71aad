use crate::device::{CALM, Manner, Sink, Source, bytes_of, fails, interrupted};
use crate::runs::{CROSSED, CROSSING};
use mvt_gate::{EngineFault, Outcome, Tally, confirm_streams};
use std::io::ErrorKind;
use std::test::Fail;

const TRUE: &str = "{\"confirmed\":true}\n";

const FALSE: &str = "{\"confirmed\":false}\n";

const YES: Result<Outcome, EngineFault> = Ok(Outcome::Yes);

const NO: Result<Outcome, EngineFault> = Ok(Outcome::No);

const READ: Result<Outcome, EngineFault> = Err(EngineFault::Read);

const WRITE: Result<Outcome, EngineFault> = Err(EngineFault::Write);

const NOT_A_FAULT: Result<Outcome, EngineFault> = Err(EngineFault::NotAFault);

/// The manners of the tile's device, the claim's and the writer's.
type Manners = [Manner; 3];

/// How many bytes of the tile and of the claim come in.
type CameIn = (u64, u64);

/// Runs the engine on a tile and a claim, with devices of these manners: its result, what came in,
/// and what goes out.
fn run(
    rt: &HostRuntime,
    (tile, claim): (&[u8], &str),
    [of_tile, of_claim, of_writer]: Manners,
    taken: &mut Vec<u8>,
) -> (Result<Outcome, EngineFault>, CameIn) {
    let mut tile = Tally::new(Source::new(tile, of_tile));
    let mut claim = Tally::new(Source::new(claim.as_bytes(), of_claim));
    let mut writer = Tally::new(Sink::new(taken, of_writer));
    let got = confirm_streams(rt.alloc(), &mut tile, &mut claim, &mut writer);
    (got, (tile.bytes(), claim.bytes()))
}

/// Whether devices that move all at once, and those that move a byte a call, end in this result and
/// line.
fn says(
    rt: &HostRuntime,
    inputs: (&[u8], &str),
    want: Result<Outcome, EngineFault>,
    line: &str,
) -> bool {
    let mut taken = Vec::new(rt.alloc());
    let (at_once, _) = run(rt, inputs, [CALM; 3], &mut taken);
    let is_line = taken.as_slice() == line.as_bytes();
    taken.clear();
    let slow = Manner { step: 1, ..CALM };
    let (by_bytes, _) = run(rt, inputs, [slow; 3], &mut taken);
    is_line && at_once == want && by_bytes == want && taken.as_slice() == line.as_bytes()
}

/// A polygon of which no fault is true.
const TRIANGLE: &str = "1a 14 78 02 0a 01 61 12 0d 18 03 22 09 09 06 0c 12 0a 0c 18 2c 0f";

/// The fault of a varint that ends too early, and the same with its keys in another order and with
/// space.
const CUT: &str = r#"{"at":0,"code":101,"field":0,"scope":"tile"}"#;

const SPACED: &str = " {\"scope\":\"tile\", \"field\":0, \"code\":101, \"at\":0}\n";

/// The same of a tile in hexadecimal.
fn says_of(
    rt: &HostRuntime,
    (tile, claim): (&str, &str),
    want: Result<Outcome, EngineFault>,
    line: &str,
) -> Result<bool, Fail> {
    let bytes = bytes_of(rt, tile)?;
    Ok(says(rt, (&bytes, claim), want, line))
}

#[test]
fn says_whether_a_fault_is_true(rt: HostRuntime) -> Result<(), Fail> {
    assert!(rt; says_of(&rt, (CROSSED, CROSSING), YES, TRUE)?);
    assert!(rt; says_of(&rt, (TRIANGLE, CROSSING), NO, FALSE)?);
    assert!(rt; says(&rt, (b"\x80", CUT), YES, TRUE));
    assert!(rt; says(&rt, (b"", CUT), NO, FALSE));
    assert!(rt; says(&rt, (b"\x80", SPACED), YES, TRUE));
    Ok(())
}

/// Whether a claim on a tile of one byte is refused so, with nothing written.
fn refuses(rt: &HostRuntime, claim: &str, want: EngineFault) -> bool {
    says(rt, (b"\x80", claim), Err(want), "")
}

#[test]
fn refuses_what_is_no_fault(rt: HostRuntime) {
    assert!(rt; refuses(&rt, "", EngineFault::NotJson));
    assert!(rt; refuses(&rt, "{", EngineFault::NotJson));
    assert!(rt; refuses(&rt, r#"{"ok":true}"#, EngineFault::NotAFault));
    let more = r#"{"at":0,"code":101,"field":0,"layer":0,"scope":"tile"}"#;
    assert!(rt; refuses(&rt, more, EngineFault::NotAFault));
    let large = r#"{"at":0,"code":101,"field":4294967296,"scope":"tile"}"#;
    assert!(rt; refuses(&rt, large, EngineFault::FaultRange));
}

/// Whether a run on a tile of one byte ends so: its result, what goes out, and what comes in.
fn ends_so(
    rt: &HostRuntime,
    manners: Manners,
    claim: &str,
    want: (Result<Outcome, EngineFault>, CameIn),
    went_out: &str,
) -> bool {
    let mut taken = Vec::new(rt.alloc());
    let got = run(rt, (b"\x80", claim), manners, &mut taken);
    got == want && taken.as_slice() == went_out.as_bytes()
}

/// The call that fails of the tile's device, of the claim's and of the writer's, if any does; the
/// claim; how the run ends, and what comes in; and what goes out. The tile is read to its end
/// before the claim's first byte, the claim to its end before it is judged, and it is judged before
/// the writer is called. The writer's last call is the flush.
type Failing = (
    [u64; 3],
    &'static str,
    (Result<Outcome, EngineFault>, CameIn),
    &'static str,
);

const FAILING: [Failing; 8] = [
    ([1, 0, 0], CUT, (READ, (0, 0)), ""),
    ([2, 1, 1], "{}", (READ, (1, 0)), ""),
    ([0, 1, 0], "{}", (READ, (1, 0)), ""),
    ([0, 2, 1], "{}  ", (READ, (1, 3)), ""),
    ([0, 0, 1], "{}", (NOT_A_FAULT, (1, 2)), ""),
    ([0, 0, 1], CUT, (WRITE, (1, 44)), ""),
    ([0, 0, 2], CUT, (WRITE, (1, 44)), "{\"c"),
    ([0, 0, 8], CUT, (WRITE, (1, 44)), TRUE),
];

/// A device that fails so at a call.
fn fails_with(failure: ErrorKind, at: u64) -> Manner {
    Manner {
        failure: Some(failure),
        ..fails(at)
    }
}

/// How many runs end so, on devices that fail with this error, before the first that does not, if
/// any.
fn failing_held(rt: &HostRuntime, kind: ErrorKind) -> u32 {
    let mut held = 0_u32;
    for ([tile, of_claim, writer], claim, want, went_out) in FAILING {
        let manners = [
            fails_with(kind, tile),
            fails_with(kind, of_claim),
            fails_with(kind, writer),
        ];
        if !ends_so(rt, manners, claim, want, went_out) {
            break;
        }
        held = held.saturating_add(1);
    }
    held
}

/// An error that is no interruption ends a run, of whatever kind it is.
#[test]
fn bears_devices_that_fail(rt: HostRuntime) {
    for kind in [
        ErrorKind::BrokenPipe,
        ErrorKind::WouldBlock,
        ErrorKind::TimedOut,
    ] {
        assert_eq!(rt; failing_held(&rt, kind), 8);
    }
}

#[test]
fn refuses_an_endless_claim(rt: HostRuntime) {
    let endless = Manner {
        is_endless: true,
        ..CALM
    };
    let want = (Err(EngineFault::TooLarge), (1, 67_174_400));
    assert!(rt; ends_so(&rt, [CALM, endless, CALM], CUT, want, ""));
}

/// From which call on the tile's device is interrupted, and how many times; the same of the claim's
/// and of the writer's; how the run ends, and what comes in; and what goes out. A run bears 1,000
/// interruptions, those of its three devices together.
type Interrupted = (
    [(u64, u64); 3],
    (Result<Outcome, EngineFault>, CameIn),
    &'static str,
);

const INTERRUPTED: [Interrupted; 6] = [
    ([(1, 500), (1, 500), (1, 0)], (YES, (1, 44)), TRUE),
    ([(1, 500), (1, 500), (1, 1)], (WRITE, (1, 44)), ""),
    ([(1, 500), (1, 500), (2, 1)], (WRITE, (1, 44)), TRUE),
    ([(1, 500), (2, 501), (1, 0)], (READ, (1, 44)), ""),
    ([(1, 1_001), (1, 0), (1, 0)], (READ, (0, 0)), ""),
    ([(1, 1_000), (1, 1), (1, 0)], (READ, (1, 0)), ""),
];

#[test]
fn bears_interruptions_of_all_devices(rt: HostRuntime) {
    for ([tile, claim, writer], want, went_out) in INTERRUPTED {
        let manners = [interrupted(tile), interrupted(claim), interrupted(writer)];
        assert!(rt; ends_so(&rt, manners, CUT, want, went_out));
    }
}
