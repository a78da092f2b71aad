//! Writes varints and fields after other bytes (Protocol Buffers encoding, "Base 128 Varints" and
//! "Message Structure").
ghost use Rattle.std.specs.Prelude.{◌∷◌, [], ◌≤◌, ◌<◌, length, IfOk, OnOk};
ghost use Rattle.mvt_wire.specs.Number.{VarintList};
ghost use Rattle.mvt_splice.specs.Splice.{Piece, HasPayload};
ghost use Rattle.mvt_splice.specs.Calls.Writing.{WritesVarint, WritesFields};

use std::alloc::{AllocError, Global};

/// A byte of a varint that isn't the last one has this bit.
const MORE: u8 = 128;

/// Wire type 2: a length, and so many bytes.
const DELIMITED: u32 = 2;

/// Writes the shortest varint of a number. The only error is that memory was refused.
pub(crate) fn add_varint(out: &mut Vec<u8>, number: u64) -> Result<(), AllocError>
    ensures { OnOk result (WritesVarint number out.old.items out.new.items) }
{
    let mut rest = number;
    'groups: while rest >= u64::from(MORE) {
        out.push((rest % u64::from(MORE)) as u8 + MORE)?;
        rest /= u64::from(MORE);
    }
    out.push(rest as u8)?;
    Ok(())
}

/// The bytes of a packed list of numbers (Protocol Buffers encoding, "Packed Repeated Fields"). The
/// only error is that memory was refused.
pub(crate) fn packed(alloc: Global, numbers: &[u32]) -> Result<Vec<u8>, AllocError>
    ensures { IfOk result (λ list. VarintList list.items 0 numbers.now (length list.items)) }
{
    let mut out = Vec::new(alloc);
    for number in numbers {
        add_varint(&mut out, u64::from(*number))?;
    }
    Ok(out)
}

/// Writes a field of wire type 2 with this number, from 1 to 15, and this payload. The only error is
/// that memory was refused.
pub(crate) fn add_delimited(
    out: &mut Vec<u8>,
    number: u32,
    payload: &[u8],
) -> Result<(), AllocError>
    requires first { 1 ≤ number }
    requires last { number < 16 }
    ensures { OnOk result ((piece : Piece) × HasPayload number payload.now piece.field
        × WritesFields (piece ∷ []) out.old.items out.new.items) }
{
    add_varint(out, u64::from(number * 8 + DELIMITED))?;
    add_varint(out, payload.len() as u64)?;
    out.extend_from_slice(payload)?;
    Ok(())
}
