//! Numbers and pieces in bytes.
ghost use Rattle.std.specs.Prelude.{◌≡◌, ◌++◌, ◌+◌, ◌-◌, ◌≤◌, ◌^◌, ◌<◌, length, take, drop, replicate, OnOk, OnErr};
ghost use Rattle.hy_frame.specs.Word.{word_bytes, word_in};
ghost use Rattle.hy_frame.specs.Pieces.{put_at};

use crate::fault::NoMemory;
use byteorder::{BigEndian, ByteOrder};

/// Writes a piece over what stands there.
pub(crate) fn put(bytes: &mut [u8], at: usize, piece: &[u8])
    requires { at + length piece.now ≤ length bytes.old }
    ensures { bytes.new ≡ put_at at piece.now bytes.old }
{
    bytes[at..at + piece.len()].copy_from_slice(piece);
}

/// Writes a number over the 4 bytes that stand there.
#[tactic(auto, unfolding(crate::specs::Word::word_bytes))]
pub(crate) fn put_number(bytes: &mut [u8], at: usize, n: u32)
    requires { at + 4 ≤ length bytes.old }
    ensures { bytes.new ≡ put_at at (word_bytes n) bytes.old }
{
    let mut number = [0; 4];
    BigEndian::write_u32(&mut number, n);
    put(bytes, at, &number);
}

/// Appends a number in 4 bytes.
#[tactic(auto, unfolding(crate::specs::Word::word_bytes))]
pub(crate) fn push_number(bytes: &mut Vec<u8>, n: u32) -> Result<(), NoMemory>
    ensures ok { OnOk result (bytes.new.items ≡ bytes.old.items ++ word_bytes n) }
    ensures err { OnErr result (bytes.new.items ≡ bytes.old.items) }
{
    let mut number = [0; 4];
    BigEndian::write_u32(&mut number, n);
    bytes.extend_from_slice(&number)?;
    Ok(())
}

/// The number in the 4 bytes that stand there.
#[tactic(auto, unfolding(crate::specs::Word::word_in))]
pub(crate) fn number_at(bytes: &[u8], at: usize) -> usize
    requires { at + 4 ≤ length bytes.now }
    ensures number { result ≡ word_in (drop at bytes.now) }
    ensures fits { result < 2 ^ 32 }
{
    BigEndian::read_u32(&bytes[at..]) as usize
}

/// Makes all bytes zero.
pub(crate) fn clear(bytes: &mut [u8])
    ensures { bytes.new ≡ replicate (length bytes.old) 0 }
{
    for byte in bytes.iter_mut() {
        *byte = 0;
    }
}

/// The bytes from one place up to another.
pub(crate) fn part(bytes: &[u8], start: usize, end: usize) -> &[u8]
    requires ordered { start ≤ end }
    requires within { end ≤ length bytes.now }
    ensures { result.now ≡ take (end - start) (drop start bytes.now) }
{
    &bytes[start..end]
}

/// The bytes from one place on.
pub(crate) fn after(bytes: &[u8], at: usize) -> &[u8]
    requires { at ≤ length bytes.now }
    ensures { result.now ≡ drop at bytes.now }
{
    &bytes[at..]
}
