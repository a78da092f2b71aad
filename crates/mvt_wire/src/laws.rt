//! The laws of the wire encoding (Protocol Buffers encoding, "Base 128 Varints" and "Message
//! Structure"), as contracts of functions that do nothing. They speak of the definitions alone, so a
//! reader of messages can use them.

ghost use Rattle.std.specs.Prelude.{◌≡◌, ℕ, ◌+◌, ◌-◌, ◌^◌, ◌<◌, ◌≤◌, ◌⊎◌, List, [], ◌∷◌, ◌++◌, length, take, drop, slice_index, Option, Some, None};
ghost use Rattle.std.specs.List.{concat};
ghost use Rattle.mvt_wire.specs.Varint.{sum_of_groups, IsVarint, EncodesVarint, VarintDefect};
ghost use Rattle.mvt_wire.specs.Field.{Entry, IsField, IsFieldEncoding};
ghost use Rattle.mvt_wire.specs.Message.{FieldList, IsMessage, AreEncodings, HasDefect};
ghost use Rattle.mvt_wire.specs.Number.{VarintList, AreSmall, PackedFault};
ghost use Rattle.mvt_wire.specs.Numbers.{IsNumbersFault, NumbersEnd, IsNumberAt, StandBetween, place_of_end};
ghost use Rattle.mvt_wire.specs.declared.cause.WireCause.{WireCause};
ghost use Rattle.mvt_wire.specs.declared.cause.WireCode.{WireCode};

/// No encoding of a varint is a proper front of another one (Protocol Buffers encoding, "Base 128
/// Varints").
pub fn no_varint_begins_another()
    ensures { (encoding more : List ℕ) (m n : ℕ) → IsVarint encoding m
        → IsVarint (encoding ++ more) n → more ≡ [] }
{}

/// At each place is exactly one of a varint and its two defects: that it ends too early, or is
/// too long.
pub fn varint_or_defect()
    ensures some { (bytes : List ℕ) (at : ℕ) → at ≤ length bytes →
        ((to n : ℕ) × EncodesVarint bytes at to n) ⊎ ((code : WireCode)
        × VarintDefect code (drop at bytes)) }
    ensures one_end { (bytes : List ℕ) (at to end m n : ℕ) → EncodesVarint bytes at to m
        → EncodesVarint bytes at end n → to ≡ end }
    ensures one_value { (bytes : List ℕ) (at to end m n : ℕ) → EncodesVarint bytes at to m
        → EncodesVarint bytes at end n → m ≡ n }
    ensures not_both { (bytes : List ℕ) (at to n : ℕ) (code : WireCode) → EncodesVarint bytes at to n
        → ¬ VarintDefect code (drop at bytes) }
    ensures one_defect { (rest : List ℕ) (code other : WireCode) → VarintDefect code rest
        → VarintDefect other rest → code ≡ other }
{}

/// Of a varint's bytes the last alone is below 128: the first such byte ends it, if the number has
/// 64 bits. n groups of seven bits have a value below 128^n (Protocol Buffers encoding, "Base 128
/// Varints").
pub fn varint_ends_below_128()
    ensures last { (bytes : List ℕ) (from to n : ℕ) → EncodesVarint bytes from to n
        → slice_index bytes (to - 1) < 128 }
    ensures earlier { (bytes : List ℕ) (from to n : ℕ) → EncodesVarint bytes from to n →
        (i : ℕ) → from ≤ i → i + 1 < to → 128 ≤ slice_index bytes i }
    ensures ended { (rest : List ℕ) (last n : ℕ) → last < length rest → last ≤ 9 →
        ((i : ℕ) → i < last → 128 ≤ slice_index rest i) → slice_index rest last < 128 →
        n ≡ sum_of_groups (take (last + 1) rest) → n < 2 ^ 64 → IsVarint (take (last + 1) rest) n }
    ensures weight { (rest : List ℕ) (size : ℕ) → size ≤ length rest
        → sum_of_groups (take size rest) < 128 ^ size }
{}

/// No encoding of a field is a proper front of another one (Protocol Buffers encoding, "Message
/// Structure").
pub fn no_field_begins_another()
    ensures { (encoding more : List ℕ) (e f : Entry) → IsFieldEncoding encoding e
        → IsFieldEncoding (encoding ++ more) f → more ≡ [] }
{}

/// A field takes bytes, all of them within its message (Protocol Buffers encoding, "Message
/// Structure").
pub fn field_takes_bytes()
    ensures { (bytes : List ℕ) (to : ℕ) (entry : Entry) → IsField bytes to entry
        → (entry.at < to) × (to ≤ length bytes) }
{}

/// A message is whole exactly where its bytes are encodings of fields, joined one after another.
pub fn message_joins_encodings()
    ensures joined { (pieces : List (List ℕ)) (entries : List Entry) → AreEncodings 0 pieces entries
        → IsMessage (concat pieces) 0 entries }
    ensures parted { (bytes : List ℕ) (entries : List Entry) → IsMessage bytes 0 entries →
        (pieces : List (List ℕ)) × (bytes ≡ concat pieces) × AreEncodings 0 pieces entries }
{}

/// A message has one field list.
pub fn one_field_list()
    ensures { (bytes : List ℕ) (from : ℕ) (es fs : List Entry) → IsMessage bytes from es
        → IsMessage bytes from fs → es ≡ fs }
{}

/// The bytes from a place on are a whole message, or have one defect.
pub fn message_or_defect()
    ensures some { (bytes : List ℕ) (from : ℕ) → from ≤ length bytes →
        ((entries : List Entry) × IsMessage bytes from entries) ⊎ ((cause : WireCause)
        × HasDefect bytes from cause) }
    ensures not_both { (bytes : List ℕ) (from : ℕ) (entries : List Entry) (cause : WireCause) →
        IsMessage bytes from entries → ¬ HasDefect bytes from cause }
    ensures one_defect { (bytes : List ℕ) (from : ℕ) (first second : WireCause) →
        HasDefect bytes from first → HasDefect bytes from second → first ≡ second }
{}

/// The fields before a message's end, or before its defect, are the longest list of fields that
/// begins there: every other one is a front of it.
pub fn longest_field_list()
    ensures whole { (bytes : List ℕ) (from to : ℕ) (entries front : List Entry) →
        IsMessage bytes from entries → FieldList bytes from front to
        → (rest : List Entry) × (entries ≡ front ++ rest) }
    ensures before_defect { (bytes : List ℕ) (from to : ℕ) (cause : WireCause) (front : List Entry)
        (defect : HasDefect bytes from cause) →
        FieldList bytes from front to → (rest : List Entry) × (defect.entries ≡ front ++ rest) }
{}

/// A list of fields, and the field after it, are a list of fields.
pub fn field_list_goes_on()
    ensures { (bytes : List ℕ) (from : ℕ) (entries : List Entry) (at next : ℕ) (entry : Entry) →
        FieldList bytes from entries at → entry.at ≡ at → IsField bytes next entry
        → FieldList bytes from (entries ++ entry ∷ []) next }
{}

/// Of two lists of varints that begin at one place, one goes on where the other ends (Protocol
/// Buffers encoding, "Packed Repeated Fields").
pub fn varint_list_goes_on()
    ensures { (bytes : List ℕ) (from to end : ℕ) (first second : List ℕ)
        → VarintList bytes from first to → VarintList bytes from second end →
        ((rest : List ℕ) × (first ≡ second ++ rest) × VarintList bytes end rest to)
        ⊎ ((rest : List ℕ) × (second ≡ first ++ rest) × VarintList bytes to rest end) }
{}

/// A packed list is one of numbers of 32 bits, or has a fault, and not both (Protocol Buffers
/// encoding, "Packed Repeated Fields").
pub fn packed_list_or_fault()
    ensures some { (from : ℕ) (part : List ℕ) (field_number : ℕ) →
        ((numbers : List ℕ) × VarintList part 0 numbers (length part) × AreSmall numbers)
        ⊎ ((cause : WireCause) × PackedFault from part field_number cause) }
    ensures not_both { (from : ℕ) (part : List ℕ) (field_number : ℕ) (cause : WireCause)
        (numbers : List ℕ) →
        VarintList part 0 numbers (length part) → AreSmall numbers
        → ¬ PackedFault from part field_number cause }
{}

/// The numbers of a message's fields of one number end in one way: with a whole message, or at a
/// fault (Protocol Buffers encoding, "Packed Repeated Fields").
pub fn one_numbers_end()
    ensures some { (bytes : List ℕ) (from field_number : ℕ) → from ≤ length bytes →
        (numbers : List ℕ) × (ending : Option WireCause)
        × NumbersEnd bytes from field_number numbers ending }
    ensures only { (bytes : List ℕ) (from field_number : ℕ) (first second : List ℕ)
        (ending other : Option WireCause) →
        NumbersEnd bytes from field_number first ending
        → NumbersEnd bytes from field_number second other → (first ≡ second) × (ending ≡ other) }
{}

/// The numbers end at the fault of least place, of all that could end them: all others are later.
pub fn numbers_end_at_least_fault()
    ensures fault { (bytes : List ℕ) (from field_number : ℕ) (numbers : List ℕ) (cause : WireCause) →
        NumbersEnd bytes from field_number numbers (Some cause)
        → IsNumbersFault bytes from field_number cause }
    ensures least { (bytes : List ℕ) (from field_number : ℕ) (numbers : List ℕ)
        (cause other : WireCause) →
        NumbersEnd bytes from field_number numbers (Some cause)
        → IsNumbersFault bytes from field_number other → cause.at ≤ other.at }
    ensures only { (bytes : List ℕ) (from field_number : ℕ) (numbers : List ℕ)
        (cause other : WireCause) →
        NumbersEnd bytes from field_number numbers (Some cause)
        → IsNumbersFault bytes from field_number other → cause.at ≡ other.at → cause ≡ other }
    ensures none { (bytes : List ℕ) (from field_number : ℕ) (numbers : List ℕ) (cause : WireCause) →
        NumbersEnd bytes from field_number numbers None
        → ¬ IsNumbersFault bytes from field_number cause }
{}

/// The numbers are those of the varints before the message's end or the fault, in order.
pub fn numbers_stand_before_end()
    ensures { (bytes : List ℕ) (from field_number : ℕ) (numbers : List ℕ)
        (ending : Option WireCause) →
        NumbersEnd bytes from field_number numbers ending
        → StandBetween (IsNumberAt bytes from field_number) from numbers
        (place_of_end bytes ending) }
{}

/// At a place begins at most one field, which ends at one place (Protocol Buffers encoding,
/// "Message Structure").
pub fn one_field_a_place()
    ensures { (bytes : List ℕ) (to end : ℕ) (entry other : Entry) → entry.at ≡ other.at
        → IsField bytes to entry → IsField bytes end other →
        (to ≡ end) × (entry ≡ other) }
{}
