ghost use Rattle.std.specs.Prelude.{◌≡◌, ℕ, List, Option, slice_get};
ghost use Rattle.mvt_wire.specs.Numbers.{NumbersEnd};
ghost use Rattle.mvt_wire.specs.declared.cause.WireCause.{WireCause};

use crate::{ListedNumbers, NumberSource, Numbers, WireCause, WireCode};

/// The number at an index, of those that the fields of a field number state. It stops there: what
/// the cursor says of its steps suffices to know which number that is.
fn number_at(bytes: &[u8], field_number: u32, index: usize) -> Option<u32>
    ensures { (numbers : List ℕ) (ending : Option WireCause) →
        NumbersEnd bytes.now 0 field_number numbers ending → result ≡ slice_get numbers index }
{
    let mut numbers = Numbers::new(bytes, 0, bytes.len(), field_number);
    'passed: for _ in 0..index {
        match numbers.next_number() {
            Some(Ok(_)) => {}
            Some(Err(_)) => return None,
            None => return None,
        }
    }
    match numbers.next_number() {
        Some(Ok(number)) => Some(number),
        Some(Err(_)) => None,
        None => None,
    }
}

// Numbers of a message with two packed lists and a single number, and one that isn't there.
#[test]
fn numbers_by_index(rt: HostRuntime) {
    let bytes = b"\x22\x02\x09\x32\x20\x22\x22\x01\x0f";
    assert!(rt; number_at(bytes, 4, 0) == Some(9));
    assert!(rt; number_at(bytes, 4, 1) == Some(50));
    assert!(rt; number_at(bytes, 4, 2) == Some(34));
    assert!(rt; number_at(bytes, 4, 3) == Some(15));
    assert!(rt; number_at(bytes, 4, 4) == None);
}

/// Whether these numbers come next.
fn give(numbers: &mut Numbers, wanted: &[u32]) -> bool {
    for &want in wanted {
        if !matches!(numbers.next_number(), Some(Ok(number)) if number == want) {
            return false;
        }
    }
    true
}

/// Whether no number comes, asked twice.
fn are_over(numbers: &mut Numbers) -> bool {
    numbers.next_number().is_none() && numbers.next_number().is_none()
}

// The features of tiles with one layer, up to the end of the input: field 2 has the tags, field 4
// the geometry. Bytes from a place on, field number, numbers.
#[test]
fn numbers_of_a_feature(rt: HostRuntime) {
    let packed = b"\x1a\x0ex\x02\x0a\x01a\x12\x07\x18\x01\x22\x03\x09\x32\x22";
    let single = b"\x1a\x0fx\x02\x0a\x01a\x12\x08\x18\x01\x20\x09\x20\x32\x20\x22";
    let both = b"\x1a\x0fx\x02\x0a\x01a\x12\x08\x18\x01\x22\x02\x09\x32\x20\x22";
    let empty = b"\x1a\x0bx\x02\x0a\x01a\x12\x04\x18\x00\x22\x00";
    // Two packed lists, with an empty one and the field of another number between them.
    let parted = b"\x22\x01\x09\x22\x00\x18\x01\x22\x02\x32\x22";
    // The tags of a feature that has geometry too.
    let tags = b"\x12\x04\x00\x00\x00\x01\x18\x01\x22\x03\x09\x32\x22";
    // A fixed field of another number is no fault.
    let fixed = b"\x25\x01\x02\x03\x04\x10\x07";
    // The greatest number, and one that takes more bytes than it needs.
    let greatest = b"\x22\x07\xff\xff\xff\xff\x0f\x82\x00";
    assert!(rt; states(packed, 9, 4, &[9, 50, 34]));
    assert!(rt; states(single, 9, 4, &[9, 50, 34]));
    assert!(rt; states(both, 9, 4, &[9, 50, 34]));
    assert!(rt; states(empty, 9, 4, &[]));
    assert!(rt; states(parted, 0, 4, &[9, 50, 34]));
    assert!(rt; states(tags, 0, 2, &[0, 0, 0, 1]));
    assert!(rt; states(fixed, 0, 2, &[7]));
    assert!(rt; states(greatest, 0, 4, &[u32::MAX, 2]));
    assert!(rt; states(b"", 0, 4, &[]));
}

/// Whether the numbers of the fields with this number, from a place on, are these and no more.
fn states(bytes: &[u8], from: usize, number: u32, wanted: &[u32]) -> bool {
    let mut numbers = Numbers::new(bytes, from.min(bytes.len()), bytes.len(), number);
    give(&mut numbers, wanted) && are_over(&mut numbers)
}

/// Whether this cause comes next.
fn give_fault(numbers: &mut Numbers, wanted: WireCause) -> bool {
    matches!(numbers.next_number(), Some(Err(cause)) if cause == wanted)
}

fn cause(code: WireCode, at: usize, field: u32) -> WireCause {
    WireCause { code, at, field }
}

// The numbers of field 4 before a fault, then the fault, and then nothing more.
#[test]
fn numbers_before_a_fault(rt: HostRuntime) {
    // Eight and four bytes: the place is the key.
    let eight = b"\x20\x09\x21\x01\x02\x03\x04\x05\x06\x07\x08\x20\x32";
    let four = b"\x22\x01\x09\x25\x01\x02\x03\x04\x20\x32";
    // The last varint of a packed list ends too early, though other bytes follow.
    let cut = b"\x22\x03\x09\x32\xa2\x20\x22";
    let long = b"\x22\x0b\x09\x80\x80\x80\x80\x80\x80\x80\x80\x80\x02";
    // 2^32, packed and single: the place is the varint.
    let packed = b"\x22\x07\x09\x80\x80\x80\x80\x10\x22";
    let single = b"\x20\x09\x20\x80\x80\x80\x80\x10";
    assert!(rt; stop(eight, &[9], cause(WireCode::OtherType, 2, 4)));
    assert!(rt; stop(four, &[9], cause(WireCode::OtherType, 3, 4)));
    assert!(rt; stop(cut, &[9, 50], cause(WireCode::Ends, 4, 4)));
    assert!(rt; stop(long, &[9], cause(WireCode::TooLong, 3, 4)));
    assert!(rt; stop(packed, &[9], cause(WireCode::OutOfRange, 3, 4)));
    assert!(rt; stop(single, &[9], cause(WireCode::OutOfRange, 3, 4)));
    // Fields that aren't whole, whatever their numbers.
    assert!(rt; stop(b"\x20\x09\x80", &[9], cause(WireCode::Ends, 2, 0)));
    assert!(rt; stop(b"\x20\x09\x18\x80", &[9], cause(WireCode::Ends, 3, 3)));
    assert!(rt;
        stop(
            b"\x20\x09\x1b\x20\x32",
            &[9],
            cause(WireCode::BadWireType, 2, 3)
        )
    );
    assert!(rt;
        stop(
            b"\x20\x09\x22\x02\x32",
            &[9],
            cause(WireCode::PastEnd, 2, 4)
        )
    );
}

/// Whether the numbers of field 4 are these, then comes this cause, and then nothing more.
fn stop(bytes: &[u8], wanted: &[u32], fault: WireCause) -> bool {
    let mut numbers = Numbers::new(bytes, 0, bytes.len(), 4);
    give(&mut numbers, wanted) && give_fault(&mut numbers, fault) && are_over(&mut numbers)
}

// Pairs are given up to their bounds; what is in no pair stays, and comes one after the other.
#[test]
fn pairs_of_a_list(rt: HostRuntime) {
    let mut numbers = ListedNumbers::new(&[0, 127, 128, 16_383, 5, 16_384, 7]);
    assert!(rt; numbers.next_small_pair() == Some((0, 127)));
    assert!(rt; numbers.next_small_pair() == None);
    assert!(rt; numbers.next_short_pair() == Some((128, 16_383)));
    assert!(rt; numbers.next_short_pair() == None);
    assert!(rt; numbers.next_number() == Some(5));
    assert!(rt; numbers.next_number() == Some(16_384));
    assert!(rt; numbers.next_small_pair() == None);
    assert!(rt; numbers.next_short_pair() == None);
    assert!(rt; numbers.next_number() == Some(7));
    assert!(rt; numbers.next_small_pair() == None);
    assert!(rt; numbers.next_number() == None);
}
