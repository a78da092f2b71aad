//! What follows of mending, as contracts of functions that do nothing.
ghost use Rattle.std.specs.Prelude.{◌≡◌, ℕ, Bool, true, List};
ghost use Rattle.mvt_rules.specs.Valid.{ValidBy};
ghost use Rattle.mvt_fault.specs.declared.fault.Fault.{Fault};
ghost use Rattle.mvt_fault.specs.declared.profile.Profile.{Profile};
ghost use Rattle.mvt_mender.specs.Mendable.{AreAllMendable};
ghost use Rattle.mvt_mender.specs.Mending.{IsMendingBy};
ghost use Rattle.mvt_mender.specs.declared.mending.MendedTile.{MendedTile};
ghost use Rattle.mvt_mender.specs.declared.mending.Mending.{Mending};
ghost use Rattle.mvt_mender.specs.declared.mending.Mending.TheVariants as answers;

/// The answer is Valid exactly where the bytes are a valid tile; so what was mended isn't mended
/// again.
pub fn valid_stays()
    ensures valid { (profile : Profile) (drop : Bool) (bytes : List ℕ) (mending : Mending)
        → IsMendingBy profile drop bytes mending → ValidBy profile bytes
        → mending ≡ answers.Valid }
    ensures mended { (profile : Profile) (drop again : Bool) (bytes : List ℕ) (tile : MendedTile)
        (mending : Mending) → IsMendingBy profile drop bytes (answers.Mended tile)
        → IsMendingBy profile again tile.bytes.items mending → mending ≡ answers.Valid }
{}

/// Where features that can't be mended are left out, a tile all of whose faults are of polygons is
/// never refused.
pub fn polygons_come_out_valid()
    ensures { (profile : Profile) (bytes : List ℕ) (fault : Fault) → AreAllMendable profile bytes
        → ¬ IsMendingBy profile true bytes (answers.Refused fault) }
{}
