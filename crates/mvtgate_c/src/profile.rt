//! The profile that a number names.
ghost use Rattle.std.specs.Prelude.{◌≡◌, ◌≢◌, pos, IfNone, IfSome};
ghost use Rattle.mvt_fault.specs.declared.profile.Profile.{Profile};
ghost use Rattle.mvtgate_c.specs.ProfileNumber.{profile_number};

use crate::status::NO_PROFILE;
use mvt_fault::Profile;

const POLYGON: u32 = 0;

const FEATURE: u32 = 1;

/// The profile of a number, where it is one's.
pub(crate) fn profile_of(number: u32) -> Option<Profile>
    ensures some { IfSome result (λ profile. number ≡ profile_number profile) }
    ensures none { IfNone result ((profile : Profile) → number ≢ profile_number profile) }
{
    match number {
        POLYGON => Some(Profile::Polygon),
        FEATURE => Some(Profile::Feature),
        _ => None,
    }
}

/// The status where no profile has the number. There is no text then.
pub(crate) fn no_profile(text_length: &mut usize) -> i32
    ensures status { result ≡ pos 4 }
    ensures no_text { text_length.new ≡ 0 }
{
    *text_length = 0;
    NO_PROFILE
}
