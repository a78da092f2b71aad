//! The laws of a pen that goes over the numbers of a figure (section 4.3), which a `Course`
//! describes: what lies ahead of it.

ghost use Rattle.std.specs.Prelude.{◌≡◌, ℕ, ◌<◌, ◌++◌, Bool, true, false, List, [], length};
ghost use Rattle.mvt_plane.specs.Commands.Course.{AreTwoRuns, ArePathsAhead, Course, IsNextPath, IsPathAhead, IsRunAhead, IsStepAhead};
ghost use Rattle.mvt_plane.specs.Commands.Figure.{AreSteps, Figure, Spells, line_string, lines, point, points, polygon, rings, steps};
ghost use Rattle.mvt_plane.specs.Position.{Position, origin};

/// In front of a figure's numbers: points are one run, lines are paths, and rings are paths that
/// are closed.
pub fn figure_ahead()
    ensures of_points { (figure : Figure) (numbers : List ℕ) → Spells point figure numbers →
        (positions : List Position) × (figure ≡ points positions)
        × IsRunAhead (record { here = origin; left = numbers }) positions [] }
    ensures of_lines { (figure : Figure) (numbers : List ℕ) → Spells line_string figure numbers →
        (parts : List (List Position)) × (figure ≡ lines parts)
        × ArePathsAhead (record { here = origin; left = numbers }) false parts }
    ensures of_rings { (figure : Figure) (numbers : List ℕ) → Spells polygon figure numbers →
        (parts : List (List Position)) × (figure ≡ rings parts)
        × ArePathsAhead (record { here = origin; left = numbers }) true parts }
{}

/// While numbers are left, a line or ring is ahead; where none is left, none is. Each has numbers.
pub fn paths_ahead()
    ensures some { (course : Course) (closed : Bool) (parts : List (List Position))
        → ArePathsAhead course closed parts →
        0 < length course.left → IsNextPath course closed parts }
    ensures none { (course : Course) (closed : Bool) (parts : List (List Position))
        → ArePathsAhead course closed parts →
        length course.left ≡ 0 → parts ≡ [] }
    ensures takes { (course : Course) (part : List Position) (rest : List ℕ)
        → IsPathAhead course part rest → length rest < length course.left }
{}

/// A line or ring is two runs; while a step of a run is left, one is ahead.
pub fn runs_ahead()
    ensures two { (course : Course) (part : List Position) (rest : List ℕ)
        → IsPathAhead course part rest → AreTwoRuns course part rest }
    ensures step { (now : Course) (ahead : List Position) (rest : List ℕ) → AreSteps now.here ahead
        → now.left ≡ steps now.here ahead ++ rest →
        0 < length ahead → (to : Position) × (more : List ℕ) × IsStepAhead now to more }
{}
