//! The next field of a message, read and passed at once.
ghost use Rattle.std.specs.Prelude.{◌≡◌, ◌+◌, ◌<◌, ◌≤◌, length, slice_index, IfNone, IfSome, IfOk, IfErr};
ghost use Rattle.mvt_wire.specs.Varint.{EncodesVarint};
ghost use Rattle.mvt_tile.specs.Calls.FieldScan.{PassesNext, PassesOrNot, IsFirstFrom, StartsWith};

use crate::wire::scan::FieldScan;
use mvt_wire::{
    Field, Fields, Message, WireCause, defect_or, field_after, fixed_after, leading_varint,
};

impl FieldScan {
    /// Passes the field at an offset if its key has one byte, it has no fault, and a varint is
    /// after its key, as is with nearly all fields, or of a value four or eight bytes. Returns the
    /// field and the offset after it; where it returns None, nothing is passed.
    ///
    /// A key is eight times the field's number, and the wire type. Each key that is usual in some
    /// message has an arm of its own, in which both are constants, and so is the rule for the
    /// number. This is too long to be inlined at several places, so each message has a COPY of its
    /// own.
    #[inline]
    pub(crate) fn pass_usual<'a, const COPY: usize>(
        &mut self,
        message: Message,
        bytes: &'a [u8],
        at: usize,
    ) -> Option<(Field<'a>, usize)>
        requires { at ≤ length bytes.now }
        ensures { PassesOrNot message bytes.now at self.old self.new result }
    {
        if bytes.len() - at < 2 {
            return None;
        }
        if message == Message::Value {
            match bytes[at] {
                0x15 => return self.pass_fixed(message, bytes, at, 0x15),
                0x19 => return self.pass_fixed(message, bytes, at, 0x19),
                _ => {}
            }
        }
        let (value, start) = leading_varint(bytes, at + 1)?;
        match bytes[at] {
            0x08 => self.pass_key(message, bytes, at, 0x08, value, start),
            0x0a => self.pass_key(message, bytes, at, 0x0a, value, start),
            0x10 => self.pass_key(message, bytes, at, 0x10, value, start),
            0x12 => self.pass_key(message, bytes, at, 0x12, value, start),
            0x18 => self.pass_key(message, bytes, at, 0x18, value, start),
            0x1a => self.pass_key(message, bytes, at, 0x1a, value, start),
            0x20 => self.pass_key(message, bytes, at, 0x20, value, start),
            0x22 => self.pass_key(message, bytes, at, 0x22, value, start),
            0x28 => self.pass_key(message, bytes, at, 0x28, value, start),
            0x30 => self.pass_key(message, bytes, at, 0x30, value, start),
            0x38 => self.pass_key(message, bytes, at, 0x38, value, start),
            0x78 => self.pass_key(message, bytes, at, 0x78, value, start),
            key => self.pass_unknown(message, bytes, at, key, value, start),
        }
    }

    /// Passes the field at an offset, whatever it is, unless that is the end of the bytes. Returns the
    /// field and the offset after it.
    ///
    /// Errors: the message's first fault.
    #[inline(always)]
    pub(crate) fn pass_next<'a, const COPY: usize>(
        &mut self,
        message: Message,
        bytes: &'a [u8],
        at: usize,
    ) -> Result<Option<(Field<'a>, usize)>, WireCause>
        requires { at ≤ length bytes.now }
        ensures passed { IfOk result (λ read. IfSome read
            (PassesNext message bytes.now at self.old self.new)) }
        ensures end { IfOk result (λ read. IfNone read
            ((at ≡ length bytes.now) × (self.new ≡ self.old))) }
        ensures fault { IfErr result (IsFirstFrom message bytes.now at self.old) }
    {
        if let Some(read) = self.pass_usual::<COPY>(message, bytes, at) {
            return Ok(Some(read));
        }
        if at == bytes.len() {
            return Ok(None);
        }
        Ok(Some(self.pass_any(message, bytes, at)?))
    }

    /// The same for a field that begins with a key. It returns None where it begins with another.
    #[inline(always)]
    pub(crate) fn pass_of<'a>(
        &mut self,
        message: Message,
        bytes: &'a [u8],
        at: usize,
        key: u8,
    ) -> Option<(Field<'a>, usize)>
        requires within { at ≤ length bytes.now }
        requires numbered { 8 ≤ key }
        requires short { key < 128 }
        ensures { PassesOrNot message bytes.now at self.old self.new result }
    {
        if bytes.len() - at < 2 || bytes[at] != key {
            return None;
        }
        let (value, start) = leading_varint(bytes, at + 1)?;
        self.pass_key(message, bytes, at, key, value, start)
    }

    /// The same for a field that begins with a key, after which is a varint.
    #[inline(always)]
    fn pass_key<'a>(
        &mut self,
        message: Message,
        bytes: &'a [u8],
        at: usize,
        key: u8,
        value: u64,
        start: usize,
    ) -> Option<(Field<'a>, usize)>
        requires { StartsWith bytes.now at key value start }
        ensures { PassesOrNot message bytes.now at self.old self.new result }
    {
        let (field, next) = field_after(bytes, at, key, value, start)?;
        if self.pass(message, &field).is_some() {
            return None;
        }
        Some((field, next))
    }

    /// The same for a field of four or eight bytes.
    #[inline(always)]
    fn pass_fixed<'a>(
        &mut self,
        message: Message,
        bytes: &'a [u8],
        at: usize,
        key: u8,
    ) -> Option<(Field<'a>, usize)>
        requires within { at + 2 ≤ length bytes.now }
        requires key { slice_index bytes.now at ≡ key }
        requires numbered { 8 ≤ key }
        requires short { key < 128 }
        ensures { PassesOrNot message bytes.now at self.old self.new result }
    {
        let (field, next) = fixed_after(bytes, at, key)?;
        match self.pass(message, &field) {
            None => Some((field, next)),
            Some(_fault) => None,
        }
    }

    /// The same for a field of a number that the message doesn't know.
    #[inline(always)]
    fn pass_unknown<'a>(
        &mut self,
        message: Message,
        bytes: &'a [u8],
        at: usize,
        key: u8,
        value: u64,
        start: usize,
    ) -> Option<(Field<'a>, usize)>
        requires within { at + 2 ≤ length bytes.now }
        requires key { slice_index bytes.now at ≡ key }
        requires leading { EncodesVarint bytes.now (at + 1) start value }
        ensures { PassesOrNot message bytes.now at self.old self.new result }
    {
        if key < 8 || key >= 128 {
            return None;
        }
        match message.rule(u32::from(key / 8)) {
            Some(_) => None,
            None => field_after(bytes, at, key, value, start),
        }
    }

    /// Passes the field at an offset, whatever it is. Returns the field and the offset after it.
    ///
    /// Errors: the message's first fault.
    #[cold]
    #[inline(never)]
    pub(crate) fn pass_any<'a>(
        &mut self,
        message: Message,
        bytes: &'a [u8],
        at: usize,
    ) -> Result<(Field<'a>, usize), WireCause>
        requires { at < length bytes.now }
        ensures passed { IfOk result (PassesNext message bytes.now at self.old self.new) }
        ensures fault { IfErr result (IsFirstFrom message bytes.now at self.old) }
    {
        let mut fields = Fields::new(bytes, at, bytes.len());
        let field = match fields.next_field() {
            Some(Ok(field)) => field,
            Some(Err(cause)) => return Err(cause),
            None => unreachable!(),
        };
        let next = fields.at();
        if let Some(cause) = self.pass(message, &field) {
            return Err(defect_or(fields, cause));
        }
        Ok((field, next))
    }
}
