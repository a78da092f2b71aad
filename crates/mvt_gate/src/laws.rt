//! Laws of the answers: an input has one answer of `fields`, with one line, and at most one of
//! `check`, with advice or without, of `dump` and of `confirm`; but of the meetings of edges in one
//! polygon `check` may name any. And what a quick verdict and a list say of all faults.
ghost use Rattle.std.specs.Prelude.{◌≡◌, ◌↔◌, ◌⊎◌, ◌++◌, ℕ, List, Some, slice_get, take};
ghost use Rattle.mvt_rules.specs.Shows.{ShowsBy};
ghost use Rattle.mvt_fault.specs.Place.{AreMeetingsInOne, ComesFirst, IsLeast, place_of};
ghost use Rattle.mvt_fault.specs.declared.fault.Fault.{Fault};
ghost use Rattle.mvt_fault.specs.declared.profile.Profile.{Profile};
ghost use Rattle.mvt_fault.specs.declared.profile.Profile.TheVariants as profiles;
ghost use Rattle.mvt_gate.specs.Advice.{IsAdviseAnswerBy};
ghost use Rattle.mvt_gate.specs.Check.{IsCheckAnswerBy};
ghost use Rattle.mvt_engine.specs.Confirm.{IsConfirmAnswerBy};
ghost use Rattle.mvt_engine.specs.Dump.{IsDumpAnswer};
ghost use Rattle.mvt_engine.specs.FaultLine.{fault_line};
ghost use Rattle.mvt_gate.specs.FaultList.{AreFaultsFor, HasNoMeetingIn, IsFirstOfItsSubject, subject_of};
ghost use Rattle.mvt_engine.specs.Fields.{IsFieldsAnswer};
ghost use Rattle.mvt_gate.specs.Verdict.{IsQuickVerdictBy, IsVerdictBy};
ghost use Rattle.mvt_engine.specs.declared.engine.Outcome.{Outcome};
ghost use Rattle.mvt_gate.specs.declared.quick.Search.{Search};
ghost use Rattle.mvt_gate.specs.declared.verdict.Verdict.{Verdict};

/// Whatever the input is, there is an answer of `fields`, and no other answer and no other line.
pub fn one_fields_answer()
    ensures some { (input : List ℕ) → (outcome : Outcome) × (line : List ℕ)
        × IsFieldsAnswer input outcome line }
    ensures alone { (input : List ℕ) (first second : Outcome) (line other : List ℕ) →
        IsFieldsAnswer input first line → IsFieldsAnswer input second other
        → (first ≡ second) × (line ≡ other) }
{}

/// Of the faults that are true of bytes, one alone has the least place; or all that have it are
/// meetings in one polygon.
pub fn one_least_fault()
    ensures { (profile : Profile) (bytes : List ℕ) (fault other : Fault)
        → IsLeast (ShowsBy profile bytes) fault → IsLeast (ShowsBy profile bytes) other →
        (fault ≡ other) ⊎ AreMeetingsInOne fault other }
{}

/// No bytes have two verdicts, but for those that name two meetings in one polygon.
pub fn one_verdict()
    ensures { (profile : Profile) (bytes : List ℕ) (first second : Verdict)
        → IsVerdictBy profile bytes first → IsVerdictBy profile bytes second →
        (first ≡ second) ⊎ ((fault : Fault) × (other : Fault) × (first ≡ Verdict.No fault)
        × (second ≡ Verdict.No other) × AreMeetingsInOne fault other) }
{}

/// No input has two answers of `check`, or two lines, but for those of two meetings in one polygon.
pub fn one_check_answer()
    ensures { (profile : Profile) (input : List ℕ) (first second : Outcome) (line other : List ℕ) →
        IsCheckAnswerBy profile input first line → IsCheckAnswerBy profile input second other →
        (first ≡ second) × ((line ≡ other) ⊎
        ((fault : Fault) × (its : Fault) × (line ≡ fault_line fault) × (other ≡ fault_line its)
        × AreMeetingsInOne fault its)) }
{}

/// No input has two answers of `check` with advice, or other lines, but that the first lines may be
/// those of two meetings in one polygon. What is after the first line is the same.
pub fn one_advise_answer()
    ensures { (profile : Profile) (input : List ℕ) (first second : Outcome) (lines others : List ℕ) →
        IsAdviseAnswerBy profile input first lines → IsAdviseAnswerBy profile input second others →
        (first ≡ second) × ((lines ≡ others) ⊎
        ((fault : Fault) × (its : Fault) × (following : List ℕ)
        × (lines ≡ fault_line fault ++ following) × (others ≡ fault_line its ++ following)
        × AreMeetingsInOne fault its)) }
{}

/// No input has two answers of `dump`, or two lines.
pub fn one_dump_answer()
    ensures { (input : List ℕ) (first second : Outcome) (line other : List ℕ) →
        IsDumpAnswer input first line → IsDumpAnswer input second other
        → (first ≡ second) × (line ≡ other) }
{}

/// No tile and claim have two answers of `confirm`, or two lines: a text is one fault's at most.
pub fn one_confirm_answer()
    ensures { (profile : Profile) (input claimed : List ℕ) (first second : Outcome)
        (line other : List ℕ) →
        IsConfirmAnswerBy profile input claimed first line
        → IsConfirmAnswerBy profile input claimed second other →
        (first ≡ second) × (line ≡ other) }
{}

/// A quick verdict's fault is true of the bytes, and no fault that is true of them is of an earlier
/// layer or feature, by the first three numbers of their places. The quick verdict is the judge's by
/// the profile that checks each polygon by itself, and where no edges of its fault's feature meet
/// wrongly.
pub fn quick_verdicts()
    ensures shown { (profile : Profile) (bytes : List ℕ) (fault : Fault)
        → IsQuickVerdictBy profile bytes (Verdict.No fault) → ShowsBy profile bytes fault }
    ensures none_earlier { (profile : Profile) (bytes : List ℕ) (fault other : Fault)
        → IsQuickVerdictBy profile bytes (Verdict.No fault) → ShowsBy profile bytes other
        → ComesFirst (take 3 (place_of fault)) (take 3 (place_of other)) }
    ensures by_polygon { (bytes : List ℕ) (verdict : Verdict)
        → IsQuickVerdictBy profiles.Polygon bytes verdict
        ↔ IsVerdictBy profiles.Polygon bytes verdict }
    ensures where_apart { (profile : Profile) (bytes : List ℕ) (fault : Fault)
        → IsQuickVerdictBy profile bytes (Verdict.No fault)
        → HasNoMeetingIn bytes (subject_of fault)
        → IsVerdictBy profile bytes (Verdict.No fault) }
{}

/// A fault of a quick list is the first of its layer or feature by the profile that checks each
/// polygon by itself, and where no edges of its feature meet wrongly.
pub fn quick_faults()
    ensures by_polygon { (bytes : List ℕ) (faults : List Fault)
        → AreFaultsFor Search.Quick profiles.Polygon bytes faults
        ↔ AreFaultsFor Search.Least profiles.Polygon bytes faults }
    ensures where_apart { (profile : Profile) (bytes : List ℕ) (faults : List Fault)
        → AreFaultsFor Search.Quick profile bytes faults → (at : ℕ) (fault : Fault)
        → slice_get faults at ≡ Some fault → HasNoMeetingIn bytes (subject_of fault)
        → IsFirstOfItsSubject (ShowsBy profile bytes) fault }
{}

/// No two faults of a list are of one layer or of one feature.
pub fn one_fault_of_each()
    ensures { (search : Search) (profile : Profile) (bytes : List ℕ) (faults : List Fault)
        → AreFaultsFor search profile bytes faults → (at other : ℕ) (fault again : Fault)
        → slice_get faults at ≡ Some fault → slice_get faults other ≡ Some again
        → subject_of fault ≡ subject_of again → at ≡ other }
{}
