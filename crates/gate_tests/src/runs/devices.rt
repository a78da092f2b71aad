//! Each engine on devices that fail, one call after the other, that move little, that are
//! interrupted, or that never end.
use super::{CROSSED, CROSSING, Engine, outcome_of, run};
use crate::device::{CALM, Manner, bytes_of, fails, interrupted};
use mvt_fault::Profile;
use mvt_gate::EngineFault;
use std::io::ErrorKind;
use std::test::Fail;

/// An engine, its tile in hexadecimal, a claim for `confirm`, and its line; and how many calls the
/// run makes of the tile's device, of the claim's and of the writer, where each moves three bytes a
/// call. The last read finds the end, and the writer's last call is the flush.
type Row = (Engine, &'static str, &'static str, &'static str, [u16; 3]);

/// The line of a verdict, and that of the advice after it, which a failing writer breaks off too.
const ADVISED: &str =
    "{\"ok\":true}\n{\"advice\":[{\"kind\":\"no_feature\",\"layer\":0},{\"first\":0,\"kind\":\"equal_key\",\"layer\":0,\"second\":1}]}";

const ROWS: [Row; 5] = [
    (
        Engine::Fields,
        "1a 0e 78 02 0a 01 61 12 07 18 01 22 03 09 32 22",
        "",
        r#"{"fields":[{"at":0,"length":14,"number":3,"type":2}]}"#,
        [7, 0, 19],
    ),
    (
        Engine::Check,
        "1a 0e 78 02 0a 01 61 12 07 18 01 22 03 09 32 22 1a 0e 78 02 0a 01 61 12 07 18 01 22 03 09 32 22",
        "",
        r#"{"code":202,"first":0,"second":1}"#,
        [12, 0, 13],
    ),
    (
        Engine::Dump,
        "1a 1f 0a 01 61 12 0d 08 07 12 02 00 00 18 01 22 03 09 32 22 1a 01 6b 22 03 0a 01 76 28 80 20 78 02",
        "",
        r#"{"layers":[{"extent":4096,"features":[{"geometry":[9,50,34],"id":7,"tags":[0,0],"type":1}],"keys":["k"],"name":"a","values":[{"string":"v"}],"version":2}]}"#,
        [12, 0, 53],
    ),
    (
        Engine::AdviseBy(Profile::Polygon),
        "1a 0b 78 02 0a 01 61 1a 01 6b 1a 01 6b",
        "",
        ADVISED,
        [6, 0, 38],
    ),
    (
        Engine::Confirm,
        CROSSED,
        CROSSING,
        r#"{"confirmed":true}"#,
        [9, 46, 8],
    ),
];

#[derive(Clone, Copy)]
enum Device {
    Tile,
    Claim,
    Writer,
}

/// An engine, what it reads, and the line that answers it, with its LF.
#[derive(Clone, Copy)]
struct Case<'a> {
    engine: Engine,
    tile: &'a [u8],
    claim: &'a str,
    line: &'a str,
}

/// Whether a run ends so where one device has a manner of its own, and the others move three bytes
/// a call: in this fault, with so many bytes written, or in its line.
fn ends_so(
    rt: &HostRuntime,
    case: &Case<'_>,
    device: Device,
    manner: Manner,
    fault: Option<(EngineFault, usize)>,
) -> bool {
    let manners = match device {
        Device::Tile => [manner, fails(0), fails(0)],
        Device::Claim => [fails(0), manner, fails(0)],
        Device::Writer => [fails(0), fails(0), manner],
    };
    let (want, went_out) = match fault {
        Some((fault, went_out)) => (Err(fault), went_out.min(case.line.len())),
        None => (Ok(outcome_of(case.line)), case.line.len()),
    };
    let mut taken = Vec::new(rt.alloc());
    let inputs = (case.tile, case.claim);
    let got = run(rt, case.engine, inputs, manners, &mut taken);
    got == want && taken.len() == went_out && case.line.as_bytes().starts_with(&taken)
}

/// How a run ends whose device fails at a call, of which three bytes each went out before.
fn fault_of(device: Device, call: u16) -> (EngineFault, usize) {
    match device {
        Device::Tile | Device::Claim => (EngineFault::Read, 0),
        Device::Writer => (EngineFault::Write, 3 * usize::from(call)),
    }
}

/// Whether each of so many calls of a device in turn ends the run where it fails, and one after
/// them is never made. With no error a failing call moves no byte.
fn fails_in_turn(
    rt: &HostRuntime,
    case: &Case<'_>,
    device: Device,
    failure: Option<ErrorKind>,
    calls: u16,
) -> bool {
    for call in 0..=calls {
        let manner = Manner {
            failure,
            ..fails(u64::from(call) + 1)
        };
        let fault = if call < calls {
            Some(fault_of(device, call))
        } else {
            None
        };
        if !ends_so(rt, case, device, manner, fault) {
            return false;
        }
    }
    true
}

/// Whether a device may move one byte a call, and be interrupted 1,000 times, but no more.
fn bears_slow(rt: &HostRuntime, case: &Case<'_>, device: Device) -> bool {
    let slow = Manner { step: 1, ..CALM };
    ends_so(rt, case, device, slow, None)
        && ends_so(rt, case, device, interrupted((1, 1_000)), None)
        && ends_so(
            rt,
            case,
            device,
            interrupted((1, 1_001)),
            Some(fault_of(device, 0)),
        )
}

/// Whether a run on a reader that never ends finds it too large.
fn refuses_endless(rt: &HostRuntime, case: &Case<'_>, device: Device) -> bool {
    let endless = Manner {
        is_endless: true,
        ..CALM
    };
    ends_so(rt, case, device, endless, Some((EngineFault::TooLarge, 0)))
}

/// Whether an engine reports what each of its devices failed at, and bears what is no failure.
fn bears_its_devices(
    rt: &HostRuntime,
    case: &Case<'_>,
    [reads, of_claim, writes]: [u16; 3],
) -> bool {
    let error = Some(ErrorKind::BrokenPipe);
    let is_claim_borne = of_claim == 0
        || bears_slow(rt, case, Device::Claim) && refuses_endless(rt, case, Device::Claim);
    fails_in_turn(rt, case, Device::Tile, error, reads)
        && fails_in_turn(rt, case, Device::Claim, error, of_claim)
        && fails_in_turn(rt, case, Device::Writer, error, writes)
        // the flush takes no byte anyway
        && fails_in_turn(rt, case, Device::Writer, None, writes.saturating_sub(1))
        && bears_slow(rt, case, Device::Tile)
        && bears_slow(rt, case, Device::Writer)
        && refuses_endless(rt, case, Device::Tile)
        && is_claim_borne
}

#[test]
fn each_engine_bears_its_devices(rt: HostRuntime) -> Result<(), Fail> {
    for (engine, tile, claim, line, calls) in ROWS {
        let tile = bytes_of(&rt, tile)?;
        let line = format!(in rt.alloc(); "{line}\n")?;
        let case = Case {
            engine,
            tile: &tile,
            claim,
            line: &line,
        };
        assert!(rt; bears_its_devices(&rt, &case, calls), "for {line}");
    }
    Ok(())
}
