//! The separate checker, for C.
ghost use Rattle.std.specs.Prelude.{◌≡◌, ◌≢◌, ◌≤ℤ◌, ◌⊎◌, pos};
ghost use Rattle.mvt_rules.specs.Shows.{ShowsBy};
ghost use Rattle.mvt_fault.specs.Reading.{IsNoJson, HasOtherShape, HasOtherRange};
ghost use Rattle.mvt_fault.specs.Text.{Reads};
ghost use Rattle.mvt_fault.specs.declared.fault.Fault.{Fault};
ghost use Rattle.mvt_fault.specs.declared.profile.Profile.{Profile};
ghost use Rattle.mvtgate_c.specs.ProfileNumber.{profile_number};

use crate::profile::profile_of;
use crate::status::{
    CONFIRMED, FAULT_RANGE, NO_MEMORY, NO_PROFILE, NOT_A_FAULT, NOT_CONFIRMED, NOT_JSON,
};
use mvt_confirm::confirm_with;
use mvt_fault::{FaultTextError, Profile, fault_from_text};
use std::alloc::Global;

/// ```c
/// int mvtgate_confirm(uint32_t profile, const uint8_t *tile, size_t tile_length,
///                     const uint8_t *text, size_t text_length);
/// ```
///
/// Whether the fault of a text is true of the bytes of a tile by the profile of a number. 0: it is.
/// 1: it isn't. 2: memory was refused. 4: no profile has this number. 5: the text is no JSON. 6: it
/// is JSON, and no fault. 7: it is a fault with a number out of range.
#[unsafe(no_mangle)]
pub extern "C" fn mvtgate_confirm(alloc: Global, profile: u32, tile: &[u8], text: &[u8]) -> i32
    ensures least { pos 0 ≤ℤ result }
    ensures greatest { result ≤ℤ pos 7 }
    ensures never_no_room { result ≢ pos 3 }
    ensures confirmed { result ≡ pos 0 → (by : Profile) × (fault : Fault)
        × (profile ≡ profile_number by)
        × Reads text.now fault × ShowsBy by tile.now fault }
    ensures not_confirmed { result ≡ pos 1
        → (by : Profile) × (fault : Fault) × (profile ≡ profile_number by)
        × Reads text.now fault × ¬ ShowsBy by tile.now fault }
    ensures confirmed_alone { (by : Profile) (fault : Fault) → profile ≡ profile_number by
        → Reads text.now fault
        → ShowsBy by tile.now fault → (result ≡ pos 0) ⊎ (result ≡ pos 2) }
    ensures no_profile { result ≡ pos 4 → (by : Profile) → profile ≢ profile_number by }
    ensures no_profile_alone { ((by : Profile) → profile ≢ profile_number by) → result ≡ pos 4 }
    ensures not_json { result ≡ pos 5 → IsNoJson text.now }
    ensures not_a_fault { result ≡ pos 6 → HasOtherShape text.now }
    ensures fault_range { result ≡ pos 7 → HasOtherRange text.now }
{
    match profile_of(profile) {
        Some(by) => confirm_by(alloc, by, tile, text),
        None => NO_PROFILE,
    }
}

/// The same by a profile.
fn confirm_by(alloc: Global, by: Profile, tile: &[u8], text: &[u8]) -> i32
    ensures least { pos 0 ≤ℤ result }
    ensures greatest { result ≤ℤ pos 7 }
    ensures never_no_room { result ≢ pos 3 }
    ensures never_no_profile { result ≢ pos 4 }
    ensures confirmed { result ≡ pos 0 → (fault : Fault) × Reads text.now fault
        × ShowsBy by tile.now fault }
    ensures not_confirmed { result ≡ pos 1
        → (fault : Fault) × Reads text.now fault × ¬ ShowsBy by tile.now fault }
    ensures confirmed_alone { (fault : Fault) → Reads text.now fault → ShowsBy by tile.now fault
        → (result ≡ pos 0) ⊎ (result ≡ pos 2) }
    ensures not_json { result ≡ pos 5 → IsNoJson text.now }
    ensures not_a_fault { result ≡ pos 6 → HasOtherShape text.now }
    ensures fault_range { result ≡ pos 7 → HasOtherRange text.now }
{
    match fault_from_text(alloc, text) {
        Ok(fault) => {
            if confirm_with(by, tile, &fault) {
                CONFIRMED
            } else {
                NOT_CONFIRMED
            }
        }
        Err(FaultTextError::Memory) => NO_MEMORY,
        Err(FaultTextError::Json) => NOT_JSON,
        Err(FaultTextError::Shape) => NOT_A_FAULT,
        Err(FaultTextError::Range) => FAULT_RANGE,
    }
}
