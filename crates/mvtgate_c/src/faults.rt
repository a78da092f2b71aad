//! All faults of a tile, for C.
ghost use Rattle.std.specs.Prelude.{◌≡◌, ◌≢◌, ◌≤ℤ◌, ◌⊎◌, pos};
ghost use Rattle.mvt_rules.specs.Valid.{ValidBy};
ghost use Rattle.mvt_fault.specs.declared.profile.Profile.{Profile};
ghost use Rattle.mvtgate_c.specs.ProfileNumber.{profile_number};
ghost use Rattle.mvtgate_c.specs.Texts.{Hands, IsFaultsTextFor, Wants};

use crate::profile::{no_profile, profile_of};
use crate::status::{FAULT, NO_MEMORY, NO_ROOM, VALID};
use crate::text::put_text;
use mvt_fault::Profile;
use mvt_gate::{Search, fault_lines, faults_for};
use std::alloc::Global;

/// ```c
/// int mvtgate_faults(uint32_t profile, const uint8_t *tile, size_t tile_length,
///                    uint8_t *text, size_t text_room, size_t *text_length);
/// ```
///
/// Lists the faults of the bytes of a tile by the profile of a number. 0: they are a valid tile. 1:
/// they aren't, and the lines of their faults, each with its LF, are at the front of `text`, as
/// `check --all` writes them; their length is in `text_length`. 2: memory was refused. 3: the same
/// as 1, but the lines are longer than `text`: only their length is written. 4: no profile has this
/// number. With 0, 2 and 4 the length is 0.
#[unsafe(no_mangle)]
pub extern "C" fn mvtgate_faults(
    alloc: Global,
    profile: u32,
    tile: &[u8],
    text: &mut [u8],
    text_length: &mut usize,
) -> i32
    ensures least { pos 0 ≤ℤ result }
    ensures greatest { result ≤ℤ pos 4 }
    ensures valid { result ≡ pos 0 → (by : Profile) × (profile ≡ profile_number by)
        × ValidBy by tile.now }
    ensures valid_alone { (by : Profile) → profile ≡ profile_number by → ValidBy by tile.now
        → (result ≡ pos 0) ⊎ (result ≡ pos 2) }
    ensures faults { result ≡ pos 1 → (by : Profile) × (profile ≡ profile_number by)
        × Hands (IsFaultsTextFor Search.Least by tile.now) text.old text.new text_length.new }
    ensures no_room { result ≡ pos 3 → (by : Profile) × (profile ≡ profile_number by)
        × Wants (IsFaultsTextFor Search.Least by tile.now) text.old text_length.new }
    ensures no_profile { result ≡ pos 4 → (by : Profile) → profile ≢ profile_number by }
    ensures no_profile_alone { ((by : Profile) → profile ≢ profile_number by) → result ≡ pos 4 }
    ensures no_text { (result ≡ pos 0) ⊎ ((result ≡ pos 2) ⊎ (result ≡ pos 4))
        → text_length.new ≡ 0 }
    ensures untouched { result ≢ pos 1 → text.new ≡ text.old }
{
    match profile_of(profile) {
        Some(by) => hand_faults(alloc, Search::Least, by, tile, text, text_length),
        None => no_profile(text_length),
    }
}

/// ```c
/// int mvtgate_faults_quickly(uint32_t profile, const uint8_t *tile, size_t tile_length,
///                            uint8_t *text, size_t text_room, size_t *text_length);
/// ```
///
/// The same of the quick list (`faults_quickly`), whose work is bounded by either profile.
#[unsafe(no_mangle)]
pub extern "C" fn mvtgate_faults_quickly(
    alloc: Global,
    profile: u32,
    tile: &[u8],
    text: &mut [u8],
    text_length: &mut usize,
) -> i32
    ensures least { pos 0 ≤ℤ result }
    ensures greatest { result ≤ℤ pos 4 }
    ensures valid { result ≡ pos 0 → (by : Profile) × (profile ≡ profile_number by)
        × ValidBy by tile.now }
    ensures valid_alone { (by : Profile) → profile ≡ profile_number by → ValidBy by tile.now
        → (result ≡ pos 0) ⊎ (result ≡ pos 2) }
    ensures faults { result ≡ pos 1 → (by : Profile) × (profile ≡ profile_number by)
        × Hands (IsFaultsTextFor Search.Quick by tile.now) text.old text.new text_length.new }
    ensures no_room { result ≡ pos 3 → (by : Profile) × (profile ≡ profile_number by)
        × Wants (IsFaultsTextFor Search.Quick by tile.now) text.old text_length.new }
    ensures no_profile { result ≡ pos 4 → (by : Profile) → profile ≢ profile_number by }
    ensures no_profile_alone { ((by : Profile) → profile ≢ profile_number by) → result ≡ pos 4 }
    ensures no_text { (result ≡ pos 0) ⊎ ((result ≡ pos 2) ⊎ (result ≡ pos 4))
        → text_length.new ≡ 0 }
    ensures untouched { result ≢ pos 1 → text.new ≡ text.old }
{
    match profile_of(profile) {
        Some(by) => hand_faults(alloc, Search::Quick, by, tile, text, text_length),
        None => no_profile(text_length),
    }
}

/// Either of them by a profile.
fn hand_faults(
    alloc: Global,
    search: Search,
    by: Profile,
    tile: &[u8],
    text: &mut [u8],
    text_length: &mut usize,
) -> i32
    ensures least { pos 0 ≤ℤ result }
    ensures greatest { result ≤ℤ pos 3 }
    ensures valid { result ≡ pos 0 → ValidBy by tile.now }
    ensures valid_alone { ValidBy by tile.now → (result ≡ pos 0) ⊎ (result ≡ pos 2) }
    ensures faults { result ≡ pos 1 → Hands (IsFaultsTextFor search by tile.now) text.old text.new
        text_length.new }
    ensures no_room { result ≡ pos 3 → Wants (IsFaultsTextFor search by tile.now) text.old
        text_length.new }
    ensures no_text { (result ≡ pos 0) ⊎ (result ≡ pos 2) → text_length.new ≡ 0 }
    ensures untouched { result ≢ pos 1 → text.new ≡ text.old }
{
    *text_length = 0;
    let Ok(faults) = faults_for(alloc, search, by, tile) else {
        return NO_MEMORY;
    };
    if faults.is_empty() {
        return VALID;
    }
    match fault_lines(alloc, &faults) {
        Ok(lines) => {
            if put_text(lines.as_bytes(), text, text_length) {
                FAULT
            } else {
                NO_ROOM
            }
        }
        Err(_) => NO_MEMORY,
    }
}
