//! The laws of reading the numbers of a geometry one by one (section 4.3), as `Drawing` says: the
//! readers' places, and what the numbers there mean.

ghost use Rattle.std.specs.Prelude.{◌≡◌, ◌≢◌, ℕ, ◌+◌, ◌-◌, ◌/◌, ◌%◌, ◌^◌, ◌<◌, ◌≤◌, Bool, true, false, List, length, slice_index, ℤ, ◌+ℤ◌};
ghost use Rattle.mvt_plane.specs.Commands.CommandFault.{greatest_parameter};
ghost use Rattle.mvt_plane.specs.Commands.Drawing.{Leg, State, points_command, path_command, line_command, close_command, step_x, least, after_path, IsAllowed, IsBlamed, IsMove, MayEnd, FaultFrom, Passes, following, moved, next, state_after, unzigzag};
ghost use Rattle.mvt_plane.specs.Commands.Figure.{GeometryType, IsParameter, command_integer, line_to, move_to};
ghost use Rattle.mvt_plane.specs.FeatureGeometry.{BreaksCommands, HasFigure, type_number};
ghost use Rattle.mvt_plane.specs.Position.{Position, origin, IsCoordinate};
ghost use Rattle.mvt_plane.specs.Commands.Reading.{AsksCommand, AsksCoordinate, IsWhole, Leads, is_line, path_type, with_left};

/// A place is within the numbers, or at their end.
pub fn place_within_numbers()
    ensures { (geometry_type : GeometryType) (from : State) (numbers : List ℕ) (index : ℕ)
        (to : State) →
        Leads geometry_type from numbers index to → index ≤ length numbers }
{}

/// A number that is allowed leads one place further.
pub fn allowed_number_leads_on()
    ensures { (geometry_type : GeometryType) (from : State) (numbers : List ℕ) (index : ℕ)
        (to : State) →
        Leads geometry_type from numbers index to → index < length numbers
        → IsAllowed geometry_type to (slice_index numbers index) →
        Leads geometry_type from numbers (index + 1)
        (next geometry_type to (slice_index numbers index)) }
{}

/// The first number that isn't allowed is the fault; so is an end where the numbers may not end; at
/// another end they are whole.
pub fn what_ends_a_walk()
    ensures number { (geometry_type : GeometryType) (from : State) (numbers : List ℕ) (index : ℕ)
        (to : State) (code : ℕ) →
        Leads geometry_type from numbers index to → index < length numbers
        → (IsAllowed geometry_type to (slice_index numbers index) → ⊥) →
        IsBlamed to (slice_index numbers index) code
        → FaultFrom geometry_type from numbers code index }
    ensures unfinished { (geometry_type : GeometryType) (from : State) (numbers : List ℕ)
        (index : ℕ) (to : State) →
        Leads geometry_type from numbers index to → length numbers ≤ index → (MayEnd to → ⊥)
        → FaultFrom geometry_type from numbers 403 index }
    ensures whole { (geometry_type : GeometryType) (from : State) (numbers : List ℕ) (index : ℕ)
        (to : State) →
        Leads geometry_type from numbers index to → length numbers ≤ index → MayEnd to →
        Passes geometry_type from numbers × MayEnd (state_after geometry_type from numbers) }
{}

/// Where a command is due, its id and a count in range lead on; anything else is a fault.
pub fn command_at_place()
    ensures goes { (geometry_type : GeometryType) (from : State) (numbers : List ℕ) (index : ℕ)
        (state : State) (id fewest most : ℕ) →
        AsksCommand geometry_type state id fewest most
        → Leads geometry_type from numbers index state → index < length numbers →
        slice_index numbers index % 8 ≡ id → fewest ≤ slice_index numbers index / 8
        → slice_index numbers index / 8 ≤ most →
        Leads geometry_type from numbers (index + 1)
        (next geometry_type state (command_integer id (slice_index numbers index / 8))) }
    ensures other_command { (geometry_type : GeometryType) (from : State) (numbers : List ℕ)
        (index : ℕ) (state : State) (id fewest most : ℕ) →
        AsksCommand geometry_type state id fewest most
        → Leads geometry_type from numbers index state → index < length numbers →
        slice_index numbers index % 8 ≢ id → FaultFrom geometry_type from numbers 401 index }
    ensures other_count { (geometry_type : GeometryType) (from : State) (numbers : List ℕ)
        (index : ℕ) (state : State) (id fewest most : ℕ) →
        AsksCommand geometry_type state id fewest most
        → Leads geometry_type from numbers index state → index < length numbers →
        slice_index numbers index % 8 ≡ id
        → (fewest ≤ slice_index numbers index / 8 → slice_index numbers index / 8 ≤ most → ⊥) →
        FaultFrom geometry_type from numbers 402 index }
{}

/// The faults of a parameter, where one is due.
pub fn coordinate_at_place()
    ensures unfinished { (geometry_type : GeometryType) (start state : State) (numbers : List ℕ)
        (index : ℕ) (from : ℤ) →
        AsksCoordinate state from → Leads geometry_type start numbers index state
        → length numbers ≤ index →
        FaultFrom geometry_type start numbers 403 index }
    ensures greatest { (geometry_type : GeometryType) (start state : State) (numbers : List ℕ)
        (index : ℕ) (from : ℤ) →
        AsksCoordinate state from → Leads geometry_type start numbers index state
        → index < length numbers →
        slice_index numbers index ≡ greatest_parameter
        → FaultFrom geometry_type start numbers 404 index }
    ensures outside { (geometry_type : GeometryType) (start state : State) (numbers : List ℕ)
        (index : ℕ) (from : ℤ) →
        AsksCoordinate state from → Leads geometry_type start numbers index state
        → index < length numbers →
        slice_index numbers index ≢ greatest_parameter
        → (IsCoordinate (from +ℤ unzigzag (slice_index numbers index)) → ⊥) →
        FaultFrom geometry_type start numbers 405 index }
{}

/// The two parameters of a step lead two places further, but for a LineTo that stays.
pub fn step_at_place()
    ensures goes { (geometry_type : GeometryType) (start : State) (numbers : List ℕ) (index : ℕ)
        (leg : Leg) (from to : Position) →
        Leads geometry_type start numbers index (step_x leg from) → index + 1 < length numbers →
        IsMove from.x (slice_index numbers index)
        → IsMove from.y (slice_index numbers (index + 1)) →
        (is_line leg ≡ true → slice_index numbers index ≡ 0 → slice_index numbers (index + 1) ≡ 0
        → ⊥) →
        moved from (slice_index numbers index) (slice_index numbers (index + 1)) ≡ to →
        Leads geometry_type start numbers (index + 2) (following geometry_type leg to) }
    ensures stays { (geometry_type : GeometryType) (start : State) (numbers : List ℕ) (index : ℕ)
        (leg : Leg) (from : Position) →
        is_line leg ≡ true → Leads geometry_type start numbers index (step_x leg from)
        → index + 1 < length numbers →
        IsMove from.x (slice_index numbers index)
        → IsMove from.y (slice_index numbers (index + 1)) →
        slice_index numbers index ≡ 0 → slice_index numbers (index + 1) ≡ 0
        → FaultFrom geometry_type start numbers 406 (index + 1) }
{}

/// After a command its count of steps is left; of some steps, one is due, and after it one less is
/// left.
pub fn steps_left()
    ensures points { (geometry_type : GeometryType) (count : ℕ) → 1 ≤ count →
        next geometry_type points_command (command_integer move_to count)
        ≡ with_left geometry_type false count origin }
    ensures line { (geometry_type : GeometryType) (from : Position) (count : ℕ) → 1 ≤ count →
        next geometry_type (line_command from) (command_integer line_to count)
        ≡ with_left geometry_type true count from }
    ensures one { (geometry_type : GeometryType) (line : Bool) (left : ℕ) (from : Position)
        → 0 < left → (leg : Leg) × (is_line leg ≡ line)
        × (with_left geometry_type line left from ≡ step_x leg from)
        × ((to : Position) → following geometry_type leg to
        ≡ with_left geometry_type line (left - 1) to) }
{}

/// A line or ring has a further position at least; after its last one a line is drawn, and a ring
/// is to be closed.
pub fn after_last_position()
    ensures further { (geometry_type : GeometryType) → 1 ≤ least geometry_type }
    ensures line { (closed : Bool) (to : Position) → closed ≡ false
        → after_path (path_type closed) to ≡ path_command true to }
    ensures ring { (closed : Bool) (to : Position) → closed ≡ true
        → after_path (path_type closed) to ≡ close_command to }
{}

/// All numbers of 32 bits but the greatest are parameters; only 0 stays where the cursor is.
pub fn parameters_of_32_bits()
    ensures parameter { (number : ℕ) → number < 2 ^ 32 → number ≢ greatest_parameter
        → IsParameter (unzigzag number) }
    ensures zero { (from : ℤ) (number : ℕ) → from +ℤ unzigzag number ≡ from → number ≡ 0 }
{}

/// Numbers that are allowed and may end are a figure, by the number of their geometry type; with a
/// figure they have no command fault.
pub fn figure_by_number()
    ensures whole { (geometry_type : GeometryType) (kind : ℕ) (numbers : List ℕ)
        → kind ≡ type_number geometry_type →
        IsWhole geometry_type numbers → HasFigure kind numbers }
    ensures faultless { (kind : ℕ) (numbers : List ℕ) → HasFigure kind numbers → (code index : ℕ)
        → BreaksCommands kind numbers code index → ⊥ }
{}
