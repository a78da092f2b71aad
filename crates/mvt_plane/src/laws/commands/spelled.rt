//! The laws of rings that have a spelling (section 4.3).

ghost use Rattle.std.specs.Prelude.{◌≡◌, ℕ, ◌≤◌, List, length, slice_get, Some};
ghost use Rattle.mvt_plane.specs.Commands.Figure.{polygon, rings, Spells};
ghost use Rattle.mvt_plane.specs.Position.{Position, IsPosition};

/// A ring that is spelled has three vertices or more, all of them in range.
pub fn spelled_rings()
    ensures several { (parts : List (List Position)) (numbers : List ℕ) (number : ℕ)
        (ring : List Position) →
        Spells polygon (rings parts) numbers → slice_get parts number ≡ Some ring
        → 3 ≤ length ring }
    ensures in_range { (parts : List (List Position)) (numbers : List ℕ) (number vertex : ℕ)
        (ring : List Position) (position : Position) →
        Spells polygon (rings parts) numbers → slice_get parts number ≡ Some ring
        → slice_get ring vertex ≡ Some position → IsPosition position }
{}
