//! A part of the bytes.
ghost use Rattle.std.specs.Prelude.{◌≤◌, length};

/// The bytes from one offset up to another, as those of a message in another one.
#[derive(Clone, Copy)]
pub struct Part<'a> {
    pub bytes: &'a [u8],
    pub from: usize,
    pub to: usize,
    ghost forward: { from ≤ to },
    ghost within: { to ≤ length bytes.now },
}
