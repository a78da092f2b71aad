//! Lists where a place may be missing.

/// Puts a number at a place of a list, if that is there.
#[inline]
pub(crate) fn set(list: &mut [u32], place: usize, number: u32) {
    if let Some(there) = list.get_mut(place) {
        *there = number;
    }
}

/// Marks a place of a list, if that is there.
#[inline]
pub(crate) fn mark(marks: &mut [bool], place: usize) {
    if let Some(there) = marks.get_mut(place) {
        *there = true;
    }
}
