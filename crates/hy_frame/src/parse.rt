//! Whether bytes are a frame.
ghost use Rattle.std.specs.Prelude.{◌≡◌, ◌↔◌, ◌+◌, ◌*◌, ◌-◌, ◌^◌, ◌<◌, ◌∷◌, List, length, replicate, IfOk, IsErr, IsTrue};
ghost use Rattle.hy_frame.specs.Field.{IsField, IsInt, IsText};
ghost use Rattle.hy_frame.specs.Row.{Fields};
ghost use Rattle.hy_frame.specs.FrameText.{FrameText, IsFrameText, IsLeast};
ghost use Rattle.hy_frame.specs.Parse.{BeginsField, AreFields, IsTuple, BeginsTuple, AreTuples, HasSize};

use crate::bytes::{after, number_at, part};
use byteorder::{BigEndian, ByteOrder};
use std::str::from_utf8;

/// The bytes are no frame.
#[derive(Clone, Copy, Debug, PartialEq, Eq)]
pub struct NotFrame;

/// Why bytes are not loaded into a frame.
#[derive(Clone, Copy, Debug, PartialEq, Eq)]
pub enum LoadFault {
    NotFrame,
    NoMemory,
}

/// The most bytes of a text.
const MAX_TEXT: usize = 32000;

/// The number of rows of the frame that the bytes are.
pub fn parse_frame(arity: usize, unit: usize, bytes: &[u8]) -> Result<usize, NotFrame>
    ensures ok { IfOk result (λ n. (rows : List Fields) × (length rows ≡ n) × FrameText rows arity unit bytes.now) }
    ensures bad { IsErr result ↔ (¬ IsFrameText arity unit bytes.now) }
{
    if bytes.len() < 4 || bytes.len() > u32::MAX as usize {
        return Err(NotFrame);
    }
    let (front, last) = bytes.split_at(bytes.len() - 4);
    let count = number_at(last, 0);
    if count > front.len() / 4 {
        return Err(NotFrame);
    }
    let (body, slots) = front.split_at(front.len() - 4 * count);
    if are_tuples(arity, count, slots, body) && has_size(unit, bytes.len(), slots) {
        Ok(count)
    } else {
        Err(NotFrame)
    }
}

/// Whether a frame of this size may have these ends of tuples.
fn has_size(unit: usize, size: usize, slots: &[u8]) -> bool
    ensures { IsTrue result ↔ HasSize unit size slots.now }
{
    size == unit || unit < size && slots.len() == 4 && is_least(unit, number_at(slots, 0), size)
}

/// Whether the size is the least multiple of the unit in which a row of this size stands.
fn is_least(unit: usize, row: usize, size: usize) -> bool
    requires { row < 2 ^ 32 }
    ensures { IsTrue result ↔ IsLeast unit row size }
{
    if unit == 0 || size % unit != 0 {
        return false;
    }
    let needed = row + 8;
    needed <= size && size - needed < unit
}

/// Whether the bytes are tuples that end where the slots say, and zeros.
fn are_tuples(arity: usize, count: usize, slots: &[u8], body: &[u8]) -> bool
    requires long { length slots.now ≡ 4 * count }
    requires short { length body.now < 2 ^ 32 }
    ensures { IsTrue result ↔ AreTuples arity count 0 slots.now body.now }
{
    let mut left = slots;
    let mut rest = body;
    let mut start = 0;
    for i in 0..count {
        let (later, last) = left.split_at(left.len() - 4);
        let end = number_at(last, 0);
        if !begins_tuple(arity, start, end, rest) {
            return false;
        }
        left = later;
        rest = after(rest, end - start);
        start = end;
    }
    are_zeros(rest)
}

fn are_zeros(bytes: &[u8]) -> bool
    ensures { IsTrue result ↔ (bytes.now ≡ replicate (length bytes.now) 0) }
{
    for byte in bytes {
        if *byte != 0 {
            return false;
        }
    }
    true
}

/// Whether the bytes from `start` on begin with a tuple that ends at `end`.
fn begins_tuple(arity: usize, start: usize, end: usize, bytes: &[u8]) -> bool
    requires { length bytes.now < 2 ^ 32 }
    ensures { IsTrue result ↔ BeginsTuple arity start end bytes.now }
{
    start <= end && end - start <= bytes.len() && is_tuple(arity, part(bytes, 0, end - start))
}

/// Whether the bytes are the tuple of a row.
fn is_tuple(arity: usize, tuple: &[u8]) -> bool
    requires { length tuple.now < 2 ^ 32 }
    ensures { IsTrue result ↔ IsTuple arity tuple.now }
{
    if arity > tuple.len() / 4 {
        return false;
    }
    let (ends, fields) = tuple.split_at(4 * arity);
    are_fields(arity, ends, fields)
}

/// Whether the bytes are fields that end where the ends say.
fn are_fields(count: usize, ends: &[u8], fields: &[u8]) -> bool
    requires long { length ends.now ≡ 4 * count }
    requires short { length fields.now < 2 ^ 32 }
    ensures { IsTrue result ↔ AreFields count 0 ends.now fields.now }
{
    let mut left = ends;
    let mut rest = fields;
    let mut start = 0;
    for j in 0..count {
        let end = number_at(left, 0);
        if !begins_field(start, end, rest) {
            return false;
        }
        left = after(left, 4);
        rest = after(rest, end - start);
        start = end;
    }
    rest.is_empty()
}

/// Whether the bytes from `start` on begin with a field that ends at `end`.
fn begins_field(start: usize, end: usize, bytes: &[u8]) -> bool
    ensures { IsTrue result ↔ BeginsField start end bytes.now }
{
    start <= end && end - start <= bytes.len() && is_field(part(bytes, 0, end - start))
}

/// Whether the bytes are a field.
pub fn is_field(bytes: &[u8]) -> bool
    ensures { IsTrue result ↔ IsField bytes.now }
{
    match bytes.split_first() {
        Some((tag, rest)) => is_tagged(*tag, rest),
        None => false,
    }
}

fn is_tagged(tag: u8, rest: &[u8]) -> bool
    ensures { IsTrue result ↔ IsField (tag ∷ rest.now) }
{
    if tag < 3 {
        return rest.is_empty();
    }
    if tag == 3 {
        return is_int(rest);
    }
    tag == 4 && is_text(rest)
}

fn is_int(bytes: &[u8]) -> bool
    ensures { IsTrue result ↔ IsInt bytes.now }
{
    if bytes.len() != 8 {
        return false;
    }
    let mut again = [0; 8];
    BigEndian::write_u64(&mut again, BigEndian::read_u64(bytes));
    again.as_slice() == bytes
}

fn is_text(bytes: &[u8]) -> bool
    ensures { IsTrue result ↔ IsText bytes.now }
{
    bytes.len() <= MAX_TEXT && from_utf8(bytes).is_ok()
}
