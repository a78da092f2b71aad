use crate::device::{CALM, Manner, Sink, Source, interrupted};
use crate::runs::{Engine, rows_held, run};
use mvt_gate::{EngineFault, Outcome, Tally, fields_stream};
use std::test::Fail;

/// A tile of one layer with one point.
const POINT: [u8; 16] = *b"\x1a\x0e\x78\x02\x0a\x01\x61\x12\x07\x18\x01\x22\x03\x09\x32\x22";

const LINE: &[u8] = b"{\"fields\":[{\"at\":0,\"length\":14,\"number\":3,\"type\":2}]}\n";

/// Bytes in hexadecimal, and the line of their fields or of their defect. All worked out by hand.
const LINES: &str = r#"
# fields: none, one, and those of each wire type
 => {"fields":[]}
1a 0e 78 02 0a 01 61 12 07 18 01 22 03 09 32 22 => {"fields":[{"at":0,"length":14,"number":3,"type":2}]}
08 05 => {"fields":[{"at":0,"number":1,"type":0,"value":5}]}
09 00 00 00 00 00 00 00 00 15 01 02 03 04 => {"fields":[{"at":0,"length":8,"number":1,"type":1},{"at":9,"length":4,"number":2,"type":5}]}
# the greatest field number
f8 ff ff ff 0f 05 => {"fields":[{"at":0,"number":536870911,"type":0,"value":5}]}
# a varint ends too early: a key's, a payload's, a length's
80 => {"at":0,"code":101,"field":0,"scope":"tile"}
08 => {"at":1,"code":101,"field":1,"scope":"tile"}
08 05 10 => {"at":3,"code":101,"field":2,"scope":"tile"}
1a => {"at":1,"code":101,"field":3,"scope":"tile"}
# a varint is too long: a key's, a payload's, a length's
80 80 80 80 80 80 80 80 80 02 => {"at":0,"code":102,"field":0,"scope":"tile"}
08 80 80 80 80 80 80 80 80 80 02 => {"at":1,"code":102,"field":1,"scope":"tile"}
1a 80 80 80 80 80 80 80 80 80 02 => {"at":1,"code":102,"field":3,"scope":"tile"}
# a field number of 0, and a key of 2^32 or more, whatever its wire type
00 => {"at":0,"code":103,"field":0,"scope":"tile"}
07 => {"at":0,"code":103,"field":0,"scope":"tile"}
80 80 80 80 10 => {"at":0,"code":103,"field":0,"scope":"tile"}
83 80 80 80 10 => {"at":0,"code":103,"field":0,"scope":"tile"}
# a wire type that no field has
1b => {"at":0,"code":104,"field":3,"scope":"tile"}
0c => {"at":0,"code":104,"field":1,"scope":"tile"}
0e => {"at":0,"code":104,"field":1,"scope":"tile"}
0f => {"at":0,"code":104,"field":1,"scope":"tile"}
# a payload runs past the end
09 00 => {"at":0,"code":105,"field":1,"scope":"tile"}
1a 0e 78 02 0a 01 61 12 07 18 01 22 03 09 32 => {"at":0,"code":105,"field":3,"scope":"tile"}
"#;

#[test]
fn writes_fields_or_a_defect(rt: HostRuntime) -> Result<(), Fail> {
    assert_eq!(rt; rows_held(&rt, Engine::Fields, LINES)?, 22);
    Ok(())
}

const YES: Result<Outcome, EngineFault> = Ok(Outcome::Yes);

const READ: Result<Outcome, EngineFault> = Err(EngineFault::Read);

const WRITE: Result<Outcome, EngineFault> = Err(EngineFault::Write);

/// Whether a run on the point ends so where the reader and the writer have these manners: its
/// result, and how many bytes of the line go out.
fn point_ends_so(
    rt: &HostRuntime,
    [of_reader, of_writer]: [Manner; 2],
    want: Result<Outcome, EngineFault>,
    went_out: usize,
) -> bool {
    let mut taken = Vec::new(rt.alloc());
    let got = run(
        rt,
        Engine::Fields,
        (&POINT, ""),
        [of_reader, CALM, of_writer],
        &mut taken,
    );
    got == want && taken.len() == went_out && LINE.starts_with(&taken)
}

/// From which call on the reader is interrupted, and how many times; the same of the writer; and
/// how the run ends.
type Interrupted = ((u64, u64), (u64, u64), Result<Outcome, EngineFault>, usize);

const INTERRUPTED: [Interrupted; 7] = [
    ((1, 1_000), (1, 0), YES, 54),
    ((2, 1_000), (1, 0), YES, 54),
    ((1, 1_001), (1, 0), READ, 0),
    ((1, 600), (1, 400), YES, 54),
    ((1, 600), (1, 401), WRITE, 0),
    ((1, 600), (2, 400), YES, 54),
    ((1, 600), (2, 401), WRITE, 54),
];

#[test]
fn bears_a_thousand_interruptions(rt: HostRuntime) {
    for (reader, writer, want, went_out) in INTERRUPTED {
        let manners = [interrupted(reader), interrupted(writer)];
        assert!(rt; point_ends_so(&rt, manners, want, went_out));
    }
}

/// What a tally counted: bytes, failures and interruptions.
type Counts = (u64, u64, u64);

fn counts<T>(tally: &Tally<T>) -> Counts {
    (tally.bytes(), tally.failed(), tally.interrupted())
}

/// Whether a run ends so: its result, and what the tallies of the reader and of the writer count.
fn counts_so(
    rt: &HostRuntime,
    reader: &mut Tally<Source<'_>>,
    writer: &mut Tally<Sink<'_>>,
    want: Result<Outcome, EngineFault>,
    counted: (Counts, Counts),
) -> bool {
    let got = fields_stream(rt.alloc(), reader, writer);
    got == want && (counts(reader), counts(writer)) == counted
}

/// An engine sets its tallies to zero first: what a run before it counted changes nothing.
#[test]
fn counts_each_run_alone(rt: HostRuntime) {
    let fails_late = Manner {
        interruptions: 600,
        fails_at: 601,
        ..CALM
    };
    let mut taken = Vec::new(rt.alloc());
    let mut reader = Tally::new(Source::new(&POINT, fails_late));
    let mut writer = Tally::new(Sink::new(&mut taken, fails_late));
    let counted = ((0, 1, 600), (0, 0, 0));
    let is_read_so = counts_so(&rt, &mut reader, &mut writer, READ, counted);
    let counted = ((16, 0, 0), (0, 1, 600));
    let is_written_so = counts_so(&rt, &mut reader, &mut writer, WRITE, counted);
    // the reader has nothing left to give
    let counted = ((0, 0, 0), (14, 0, 0));
    let is_empty_so = counts_so(&rt, &mut reader, &mut writer, YES, counted);
    assert!(rt; is_read_so && is_written_so && is_empty_so);
}
