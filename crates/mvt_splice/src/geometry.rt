//! A feature's message with another geometry.
ghost use Rattle.std.specs.Prelude.{IfOk};
ghost use Rattle.mvt_splice.specs.Splice.{IsRedrawn};
ghost use Rattle.mvt_splice.specs.Calls.Messages.{IsFeatureMessage};

use crate::writing::{add_delimited, packed};
use mvt_wire::Fields;
use mvt_wire::field_number::GEOMETRY;
use std::alloc::{AllocError, Global};

/// The message of a feature with these numbers as its geometry: one packed field, in the place of
/// the first field that stated the old geometry. All other fields are copied. The only error is
/// that memory was refused.
pub(crate) fn redrawn(alloc: Global, message: &[u8], numbers: &[u32]) -> Result<Vec<u8>, AllocError>
    requires { IsFeatureMessage message.now }
    ensures { IfOk result (λ out. IsRedrawn numbers.now message.now out.items) }
{
    let geometry = packed(alloc, numbers)?;
    let mut out = Vec::new(alloc);
    let mut is_drawn = false;
    let mut fields = Fields::new(message, 0, message.len());
    'walk: while let Some(field) = fields.next_whole() {
        if field.number == GEOMETRY {
            if !is_drawn {
                add_delimited(&mut out, GEOMETRY, &geometry)?;
                is_drawn = true;
            }
        } else {
            out.extend_from_slice(&message[field.at..fields.at()])?;
        }
    }
    Ok(out)
}
