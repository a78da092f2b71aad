//! What the definitions say of a known tile: each statement is one that a slip in a definition would
//! make false.

ghost use Rattle.std.specs.Prelude.{◌≡◌, ℕ, [], ◌∷◌, Vec};
ghost use Rattle.std.specs.declared.alloc.Global.{Global};
ghost use Rattle.mvt_rules.specs.Valid.{ValidBy};
ghost use Rattle.mvt_fault.specs.declared.profile.Profile.TheVariants.{Polygon};
ghost use Rattle.mvt_splice.specs.Examples.{right_way, wrong_way, bytes_before, bytes_after, changes_to, example_feature, example_tile};
ghost use Rattle.mvt_splice.specs.Splice.{fate_in, IsSpliced};
ghost use Rattle.mvt_splice.specs.SplicedTile.{spliced_tile, IsValidOnceSpliced};
ghost use Rattle.mvt_rules.specs.Tile.{IsTile};

/// Of three features of a layer the first stays, the second is redrawn and the third is left out;
/// the tile is valid afterwards.
pub fn one_of_each_fate()
    ensures before { IsTile bytes_before
        (example_tile (example_feature right_way ∷ example_feature wrong_way ∷ example_feature wrong_way ∷ [])) }
    ensures spliced { (numbers : Vec ℕ Global) → numbers.items ≡ right_way
        → IsSpliced (changes_to numbers) bytes_before bytes_after }
    ensures unspliced { (numbers : Vec ℕ Global) → numbers.items ≡ right_way
        → ¬ IsSpliced (changes_to numbers) bytes_before bytes_before }
    ensures left { (numbers : Vec ℕ Global) → numbers.items ≡ right_way →
        spliced_tile (fate_in (changes_to numbers))
        (example_tile (example_feature right_way ∷ example_feature wrong_way ∷ example_feature wrong_way ∷ []))
        ≡ example_tile (example_feature right_way ∷ example_feature right_way ∷ []) }
    ensures once { (numbers : Vec ℕ Global) → numbers.items ≡ right_way →
        IsValidOnceSpliced Polygon (fate_in (changes_to numbers))
        (example_tile (example_feature right_way ∷ example_feature wrong_way ∷ example_feature wrong_way ∷ [])) }
    ensures valid { (numbers : Vec ℕ Global) → numbers.items ≡ right_way
        → ValidBy Polygon bytes_after }
{}
