//! Mending, for C.
ghost use Rattle.std.specs.Prelude.{◌≡◌, ◌≢◌, ◌≤◌, ◌<◌, ◌≤ℤ◌, ◌⊎◌, ◌++◌, pos, length, drop, IsTrue, IsFalse};
ghost use Rattle.mvt_rules.specs.Valid.{ValidBy};
ghost use Rattle.mvt_fault.specs.declared.profile.Profile.{Profile};
ghost use Rattle.mvtgate_c.specs.Mended.{AreMendedAndReport, AreOfMended, HandsBoth, IsRefusalText, WantsBoth, WantsMore, asks_to_drop};
ghost use Rattle.mvtgate_c.specs.ProfileNumber.{profile_number};
ghost use Rattle.mvtgate_c.specs.Texts.{Hands};

use crate::fault_text::hand_fault;
use crate::profile::{no_profile, profile_of};
use crate::status::{MENDED, NO_MEMORY, NO_ROOM, VALID};
use mvt_fault::Profile;
use mvt_mender::{MendedTile, Mending, mend_with, report_text};
use std::alloc::Global;

/// ```c
/// int mvtgate_mend(uint32_t profile, uint32_t drop, const uint8_t *tile, size_t tile_length,
///                  uint8_t *out, size_t out_room, size_t *out_length,
///                  uint8_t *report, size_t report_room, size_t *report_length);
/// ```
///
/// Mends the bytes of a tile by the profile of a number; where `drop` isn't 0, features that can't
/// be mended are left out. 0: the bytes are a valid tile, and nothing is written. 1: they stay as
/// they are, and the text of the fault for which they are refused is at the front of `report`, as
/// `check` writes it, without LF; its length is in `report_length`, and that of `out` is 0. 2:
/// memory was refused. 3: the same as 1 or 8, but what is to be written is longer than its room:
/// only the lengths are written. 4: no profile has this number. 8: a valid tile in place of the
/// bytes is at the front of `out`, and the text of `report_text` at that of `report`; their lengths
/// are in `out_length` and `report_length`. With 0, 2 and 4 both lengths are 0.
#[unsafe(no_mangle)]
pub extern "C" fn mvtgate_mend(
    alloc: Global,
    profile: u32,
    drop_unmended: u32,
    tile: &[u8],
    out: &mut [u8],
    out_length: &mut usize,
    report: &mut [u8],
    report_length: &mut usize,
) -> i32
    ensures statuses { ((pos 0 ≤ℤ result) × (result ≤ℤ pos 4)) ⊎ (result ≡ pos 8) }
    ensures valid { result ≡ pos 0 → (by : Profile) × (profile ≡ profile_number by)
        × ValidBy by tile.now }
    ensures valid_alone { (by : Profile) → profile ≡ profile_number by → ValidBy by tile.now
        → (result ≡ pos 0) ⊎ (result ≡ pos 2) }
    ensures mended { result ≡ pos 8 → (by : Profile) × (profile ≡ profile_number by)
        × HandsBoth (AreMendedAndReport by (asks_to_drop drop_unmended) tile.now) out.old out.new
        out_length.new report.old report.new report_length.new }
    ensures refused { result ≡ pos 1 → (by : Profile) × (profile ≡ profile_number by)
        × (out_length.new ≡ 0)
        × Hands (IsRefusalText by (asks_to_drop drop_unmended) tile.now) report.old report.new
        report_length.new }
    ensures no_room { result ≡ pos 3 → (by : Profile) × (profile ≡ profile_number by)
        × WantsMore by (asks_to_drop drop_unmended) tile.now out.old out_length.new report.old
        report_length.new }
    ensures no_profile { result ≡ pos 4 → (by : Profile) → profile ≢ profile_number by }
    ensures no_profile_alone { ((by : Profile) → profile ≢ profile_number by) → result ≡ pos 4 }
    ensures no_text { (result ≡ pos 0) ⊎ ((result ≡ pos 2) ⊎ (result ≡ pos 4))
        → (out_length.new ≡ 0) × (report_length.new ≡ 0) }
    ensures untouched { result ≢ pos 8 → out.new ≡ out.old }
    ensures report_untouched { result ≢ pos 1 → result ≢ pos 8 → report.new ≡ report.old }
{
    *out_length = 0;
    match profile_of(profile) {
        Some(by) => {
            let dropping = drop_unmended != 0;
            mend_by(
                alloc,
                by,
                dropping,
                tile,
                out,
                out_length,
                report,
                report_length,
            )
        }
        None => no_profile(report_length),
    }
}

/// The same by a profile.
fn mend_by(
    alloc: Global,
    by: Profile,
    drop_unmended: bool,
    tile: &[u8],
    out: &mut [u8],
    out_length: &mut usize,
    report: &mut [u8],
    report_length: &mut usize,
) -> i32
    ensures statuses { ((pos 0 ≤ℤ result) × (result ≤ℤ pos 3)) ⊎ (result ≡ pos 8) }
    ensures valid { result ≡ pos 0 → ValidBy by tile.now }
    ensures valid_alone { ValidBy by tile.now → (result ≡ pos 0) ⊎ (result ≡ pos 2) }
    ensures mended { result ≡ pos 8 → HandsBoth (AreMendedAndReport by drop_unmended tile.now)
        out.old out.new out_length.new report.old report.new report_length.new }
    ensures refused { result ≡ pos 1 → (out_length.new ≡ 0)
        × Hands (IsRefusalText by drop_unmended tile.now) report.old report.new report_length.new }
    ensures no_room { result ≡ pos 3 → WantsMore by drop_unmended tile.now out.old out_length.new
        report.old report_length.new }
    ensures no_text { (result ≡ pos 0) ⊎ (result ≡ pos 2)
        → (out_length.new ≡ 0) × (report_length.new ≡ 0) }
    ensures untouched { result ≢ pos 8 → out.new ≡ out.old }
    ensures report_untouched { result ≢ pos 1 → result ≢ pos 8 → report.new ≡ report.old }
{
    *out_length = 0;
    *report_length = 0;
    match mend_with(alloc, by, drop_unmended, tile) {
        Ok(Mending::Valid) => VALID,
        Ok(Mending::Mended(mended)) => {
            hand_mended(alloc, &mended, out, out_length, report, report_length)
        }
        Ok(Mending::Refused(fault)) => hand_fault(alloc, fault, report, report_length),
        Err(_) => NO_MEMORY,
    }
}

/// Writes a mended tile at the front of the one room and the text of its report at that of the other,
/// and their lengths.
fn hand_mended(
    alloc: Global,
    mended: &MendedTile,
    out: &mut [u8],
    out_length: &mut usize,
    report: &mut [u8],
    report_length: &mut usize,
) -> i32
    ensures statuses { (result ≡ pos 8) ⊎ ((result ≡ pos 2) ⊎ (result ≡ pos 3)) }
    ensures mended { result ≡ pos 8 → HandsBoth (λ bytes text. AreOfMended mended.now bytes text)
        out.old out.new out_length.new report.old report.new report_length.new }
    ensures no_room { result ≡ pos 3 → WantsBoth (λ bytes text. AreOfMended mended.now bytes text)
        out.old out_length.new report.old report_length.new }
    ensures no_text { result ≡ pos 2 → (out_length.new ≡ 0) × (report_length.new ≡ 0) }
    ensures untouched { result ≢ pos 8 → out.new ≡ out.old }
    ensures report_untouched { result ≢ pos 8 → report.new ≡ report.old }
{
    *out_length = 0;
    *report_length = 0;
    match report_text(alloc, &mended.changes) {
        Ok(text) => {
            let (bytes, text) = (&mended.bytes[..], text.as_bytes());
            if put_both(bytes, text, out, out_length, report, report_length) {
                MENDED
            } else {
                NO_ROOM
            }
        }
        Err(_) => NO_MEMORY,
    }
}

/// Writes bytes and a text at the fronts of their rooms, and their lengths. Where one of the rooms is
/// too small nothing is written but the lengths, and the result is false.
fn put_both(
    bytes: &[u8],
    text: &[u8],
    out: &mut [u8],
    out_length: &mut usize,
    report: &mut [u8],
    report_length: &mut usize,
) -> bool
    ensures fits { IsTrue result → (length bytes.now ≤ length out.old)
        × (length text.now ≤ length report.old) }
    ensures longer { IsFalse result → (length out.old < length bytes.now)
        ⊎ (length report.old < length text.now) }
    ensures reported { (out_length.new ≡ length bytes.now)
        × (report_length.new ≡ length text.now) }
    ensures written { IsTrue result → out.new ≡ bytes.now ++ drop (length bytes.now) out.old }
    ensures text_written { IsTrue result
        → report.new ≡ text.now ++ drop (length text.now) report.old }
    ensures untouched { IsFalse result → (out.new ≡ out.old) × (report.new ≡ report.old) }
{
    *out_length = bytes.len();
    *report_length = text.len();
    if bytes.len() > out.len() || text.len() > report.len() {
        return false;
    }
    out[..bytes.len()].copy_from_slice(bytes);
    report[..text.len()].copy_from_slice(text);
    true
}
