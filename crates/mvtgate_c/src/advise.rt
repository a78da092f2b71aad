//! What may be a mistake in a tile, for C.
ghost use Rattle.std.specs.Prelude.{◌≡◌, ◌≤ℤ◌, ◌⊎◌, List, pos, IfOk, string_bytes};
ghost use Rattle.mvt_engine.specs.AdviceText.{advice_text};
ghost use Rattle.mvt_tile.specs.Advice.{IsAdvice};
ghost use Rattle.mvt_tile.specs.View.{tile_of};
ghost use Rattle.mvt_tile.specs.declared.advice.Advice.{Advice};
ghost use Rattle.mvtgate_c.specs.Texts.{Hands, IsAdviceText, IsWireFaultText, Wants};

use crate::fault_text::hand_fault;
use crate::status::{NO_MEMORY, NO_ROOM, TEXT};
use crate::text::put_text;
use mvt_gate::advice_text;
use mvt_tile::{ReadFault, Tile, advise, read_tile};
use std::alloc::{AllocError, Global};

/// ```c
/// int mvtgate_advise(const uint8_t *tile, size_t tile_length, uint8_t *text, size_t text_room,
/// size_t *text_length);
/// ```
///
/// Writes the advice on a tile at the front of `text`, as the second line of `check --advice`,
/// without LF, and the text's length to `text_length`. 0: the text is written. 1: the bytes are no
/// tile, and the text of their first wire fault is written instead. 2: memory was refused, and the
/// length is 0. 3: the text, of either kind, is longer than `text`: only its length is written.
#[unsafe(no_mangle)]
pub extern "C" fn mvtgate_advise(
    alloc: Global,
    tile: &[u8],
    text: &mut [u8],
    text_length: &mut usize,
) -> i32
    ensures least { pos 0 ≤ℤ result }
    ensures greatest { result ≤ℤ pos 3 }
    ensures advised { result ≡ pos 0 → Hands (IsAdviceText tile.now) text.old text.new
        text_length.new }
    ensures fault { result ≡ pos 1 → Hands (IsWireFaultText tile.now) text.old text.new
        text_length.new }
    ensures no_room { result ≡ pos 3 → Wants (λ it. IsAdviceText tile.now it
        ⊎ IsWireFaultText tile.now it) text.old text_length.new }
    ensures no_text { result ≡ pos 2 → text_length.new ≡ 0 }
    ensures untouched { (result ≡ pos 2) ⊎ (result ≡ pos 3) → text.new ≡ text.old }
{
    *text_length = 0;
    match read_tile(alloc, tile) {
        Ok(record) => match text_of_advice(alloc, &record) {
            Ok(written) => {
                if put_text(written.as_bytes(), text, text_length) {
                    TEXT
                } else {
                    NO_ROOM
                }
            }
            Err(_) => NO_MEMORY,
        },
        Err(ReadFault::Wire(fault)) => hand_fault(alloc, fault, text, text_length),
        Err(ReadFault::Memory) => NO_MEMORY,
    }
}

/// The text of the advice on a tile. The only error is that memory was refused.
fn text_of_advice(alloc: Global, tile: &Tile<'_>) -> Result<String, AllocError>
    ensures { IfOk result (λ text. (advice : List Advice) × IsAdvice (tile_of tile.now) advice
        × (string_bytes text ≡ advice_text advice)) }
{
    let advice = advise(alloc, tile)?;
    advice_text(alloc, &advice)
}
