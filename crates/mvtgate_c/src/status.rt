//! The statuses that the exports return: one set for all of them, which the header names too.

pub(crate) const VALID: i32 = 0;

pub(crate) const CONFIRMED: i32 = 0;

pub(crate) const TEXT: i32 = 0;

pub(crate) const FAULT: i32 = 1;

pub(crate) const NOT_CONFIRMED: i32 = 1;

pub(crate) const NO_MEMORY: i32 = 2;

pub(crate) const NO_ROOM: i32 = 3;

pub(crate) const NO_PROFILE: i32 = 4;

pub(crate) const NOT_JSON: i32 = 5;

pub(crate) const NOT_A_FAULT: i32 = 6;

pub(crate) const FAULT_RANGE: i32 = 7;

pub(crate) const MENDED: i32 = 8;
