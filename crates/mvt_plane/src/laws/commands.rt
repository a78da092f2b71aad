//! The laws of geometry commands (Mapbox Vector Tile Specification 2.1, section 4.3). `reading` and
//! `courses` have those of reading and drawing numbers one by one, `spelled` those of rings that
//! have a spelling.

ghost use Rattle.std.specs.Prelude.{◌≡◌, ◌⊎◌, ℕ, ◌^◌, ◌<◌, List, All, map, ℤ};
ghost use Rattle.mvt_plane.specs.Commands.CommandFault.{HasCommandFault, Word, words};
ghost use Rattle.mvt_plane.specs.Commands.Drawing.{start, Passes, state_after, MayEnd, Draws, FaultFrom, IsSound, unzigzag};
ghost use Rattle.mvt_plane.specs.Commands.Figure.{GeometryType, Figure, type_of, spelling, HasSpelling, Spells, zigzag};

pub mod courses;
pub mod reading;
pub mod spelled;

/// A list of numbers spells at most one figure of a geometry type.
pub fn one_figure()
    ensures { (geometry_type : GeometryType) (numbers : List ℕ) (figure other : Figure) →
        Spells geometry_type figure numbers → Spells geometry_type other numbers → figure ≡ other }
{}

/// Numbers of 32 bits spell a figure of a geometry type, or have a command fault.
pub fn figure_or_command_fault()
    ensures { (geometry_type : GeometryType) (numbers : List ℕ)
        → All (λ number. number < 2 ^ 32) numbers →
        ((figure : Figure) × Spells geometry_type figure numbers)
        ⊎ ((code : ℕ) × (index : ℕ) × HasCommandFault geometry_type numbers code index) }
{}

/// They have at most one command fault, and none where they spell a figure.
pub fn one_command_fault()
    ensures one { (geometry_type : GeometryType) (numbers : List ℕ)
        (code other_code index other_index : ℕ) →
        HasCommandFault geometry_type numbers code index
        → HasCommandFault geometry_type numbers other_code other_index →
        (code ≡ other_code) × (index ≡ other_index) }
    ensures spelled { (geometry_type : GeometryType) (numbers : List ℕ) (figure : Figure)
        (code index : ℕ) →
        Spells geometry_type figure numbers → ¬ HasCommandFault geometry_type numbers code index }
{}

/// The numbers of a figure's words are its spelling.
pub fn words_spell()
    ensures { (figure : Figure) → map (λ (word : Word). word.number) (words figure)
        ≡ spelling figure }
{}

/// A reader that goes number by number, as `Drawing` says, finds the figure or the command fault.
pub fn drawing_decides()
    ensures figure { (geometry_type : GeometryType) (numbers : List ℕ)
        → Passes geometry_type (start geometry_type) numbers →
        MayEnd (state_after geometry_type (start geometry_type) numbers)
        → (figure : Figure) × Spells geometry_type figure numbers }
    ensures fault { (geometry_type : GeometryType) (numbers : List ℕ) (code index : ℕ) →
        FaultFrom geometry_type (start geometry_type) numbers code index
        → HasCommandFault geometry_type numbers code index }
    ensures words { (figure : Figure) → HasSpelling figure
        → Draws (type_of figure) (start (type_of figure)) (words figure) }
    ensures sound { (geometry_type : GeometryType) (numbers : List ℕ)
        → Passes geometry_type (start geometry_type) numbers →
        IsSound (state_after geometry_type (start geometry_type) numbers) }
{}

/// A parameter and the number that it encodes determine each other.
pub fn zigzag_and_back()
    ensures there { (number : ℕ) → zigzag (unzigzag number) ≡ number }
    ensures back { (step : ℤ) → unzigzag (zigzag step) ≡ step }
{}
