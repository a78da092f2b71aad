//! The judge, for C.
ghost use Rattle.std.specs.Prelude.{◌≡◌, ◌≢◌, ◌≤◌, ◌≤ℤ◌, ◌⊎◌, pos, length};
ghost use Rattle.mvt_rules.specs.Valid.{ValidBy};
ghost use Rattle.mvt_fault.specs.declared.profile.Profile.{Profile};
ghost use Rattle.mvtgate_c.specs.ProfileNumber.{profile_number};
ghost use Rattle.mvtgate_c.specs.TextRoom.{longest_text};
ghost use Rattle.mvtgate_c.specs.Texts.{Hands, IsFaultText, IsFaultTextFor, Wants};

use crate::fault_text::hand_fault;
use crate::profile::{no_profile, profile_of};
use crate::status::{NO_MEMORY, VALID};
use mvt_fault::Profile;
use mvt_gate::{Search, fault_for};
use std::alloc::Global;

/// ```c
/// int mvtgate_check(uint32_t profile, const uint8_t *tile, size_t tile_length,
///                   uint8_t *text, size_t text_room, size_t *text_length);
/// ```
///
/// Judges the bytes of a tile by the profile of a number. 0: they are a valid tile. 1: they aren't,
/// and the text of their first fault is at the front of `text`, as `check` writes it, without LF;
/// its length is in `text_length`. 2: memory was refused. 3: the same as 1, but that text is longer
/// than `text`: only its length is written. 4: no profile has this number. With 0, 2 and 4 the
/// length is 0. A room of `longest_text` bytes is enough for any fault.
#[unsafe(no_mangle)]
pub extern "C" fn mvtgate_check(
    alloc: Global,
    profile: u32,
    tile: &[u8],
    text: &mut [u8],
    text_length: &mut usize,
) -> i32
    ensures least { pos 0 ≤ℤ result }
    ensures greatest { result ≤ℤ pos 4 }
    ensures valid { result ≡ pos 0 → (by : Profile) × (profile ≡ profile_number by)
        × ValidBy by tile.now }
    ensures valid_alone { (by : Profile) → profile ≡ profile_number by → ValidBy by tile.now
        → (result ≡ pos 0) ⊎ (result ≡ pos 2) }
    ensures fault { result ≡ pos 1 → (by : Profile) × (profile ≡ profile_number by)
        × Hands (IsFaultText by tile.now) text.old text.new text_length.new }
    ensures no_room { result ≡ pos 3 → (by : Profile) × (profile ≡ profile_number by)
        × Wants (IsFaultText by tile.now) text.old text_length.new }
    ensures room_for_all { longest_text ≤ length text.old → result ≢ pos 3 }
    ensures no_profile { result ≡ pos 4 → (by : Profile) → profile ≢ profile_number by }
    ensures no_profile_alone { ((by : Profile) → profile ≢ profile_number by) → result ≡ pos 4 }
    ensures no_text { (result ≡ pos 0) ⊎ ((result ≡ pos 2) ⊎ (result ≡ pos 4))
        → text_length.new ≡ 0 }
    ensures untouched { result ≢ pos 1 → text.new ≡ text.old }
{
    match profile_of(profile) {
        Some(by) => check_by(alloc, Search::Least, by, tile, text, text_length),
        None => no_profile(text_length),
    }
}

/// ```c
/// int mvtgate_check_quickly(uint32_t profile, const uint8_t *tile, size_t tile_length,
///                           uint8_t *text, size_t text_room, size_t *text_length);
/// ```
///
/// The same by the quick verdict (`judge_quickly`), whose work is bounded by either profile.
#[unsafe(no_mangle)]
pub extern "C" fn mvtgate_check_quickly(
    alloc: Global,
    profile: u32,
    tile: &[u8],
    text: &mut [u8],
    text_length: &mut usize,
) -> i32
    ensures least { pos 0 ≤ℤ result }
    ensures greatest { result ≤ℤ pos 4 }
    ensures valid { result ≡ pos 0 → (by : Profile) × (profile ≡ profile_number by)
        × ValidBy by tile.now }
    ensures valid_alone { (by : Profile) → profile ≡ profile_number by → ValidBy by tile.now
        → (result ≡ pos 0) ⊎ (result ≡ pos 2) }
    ensures fault { result ≡ pos 1 → (by : Profile) × (profile ≡ profile_number by)
        × Hands (IsFaultTextFor Search.Quick by tile.now) text.old text.new text_length.new }
    ensures no_room { result ≡ pos 3 → (by : Profile) × (profile ≡ profile_number by)
        × Wants (IsFaultTextFor Search.Quick by tile.now) text.old text_length.new }
    ensures room_for_all { longest_text ≤ length text.old → result ≢ pos 3 }
    ensures no_profile { result ≡ pos 4 → (by : Profile) → profile ≢ profile_number by }
    ensures no_profile_alone { ((by : Profile) → profile ≢ profile_number by) → result ≡ pos 4 }
    ensures no_text { (result ≡ pos 0) ⊎ ((result ≡ pos 2) ⊎ (result ≡ pos 4))
        → text_length.new ≡ 0 }
    ensures untouched { result ≢ pos 1 → text.new ≡ text.old }
{
    match profile_of(profile) {
        Some(by) => check_by(alloc, Search::Quick, by, tile, text, text_length),
        None => no_profile(text_length),
    }
}

/// Either of them by a profile.
fn check_by(
    alloc: Global,
    search: Search,
    by: Profile,
    tile: &[u8],
    text: &mut [u8],
    text_length: &mut usize,
) -> i32
    ensures least { pos 0 ≤ℤ result }
    ensures greatest { result ≤ℤ pos 3 }
    ensures valid { result ≡ pos 0 → ValidBy by tile.now }
    ensures valid_alone { ValidBy by tile.now → (result ≡ pos 0) ⊎ (result ≡ pos 2) }
    ensures fault { result ≡ pos 1 → Hands (IsFaultTextFor search by tile.now) text.old text.new
        text_length.new }
    ensures no_room { result ≡ pos 3 → Wants (IsFaultTextFor search by tile.now) text.old
        text_length.new }
    ensures room_for_all { longest_text ≤ length text.old → result ≢ pos 3 }
    ensures no_text { (result ≡ pos 0) ⊎ (result ≡ pos 2) → text_length.new ≡ 0 }
    ensures untouched { result ≢ pos 1 → text.new ≡ text.old }
{
    *text_length = 0;
    let mut found = None;
    match fault_for(alloc, search, by, tile, &mut found) {
        Ok(()) => match found {
            None => VALID,
            Some(fault) => hand_fault(alloc, fault, text, text_length),
        },
        Err(_) => NO_MEMORY,
    }
}
