ghost use Rattle.std.specs.Prelude.{◌≡◌, ◌≢◌, ◌↔◌, ◌⊎◌, ◌+◌, ◌*◌, ◌-◌, ◌^◌, ◌<◌, ◌≤◌, ◌++◌, [], ◌∷◌, length, drop, get_or, IfOk, IsErrOf, OnOk, OnErr, IsTrue};
ghost use Rattle.hy_frame.specs.Row.{IsRow, row_size, tuple_bytes};
ghost use Rattle.hy_frame.specs.Field.{IsField};
ghost use Rattle.hy_frame.specs.FrameText.{AllRows, FrameText, IsFrameText, IsLeast, frame_bytes};
ghost use Rattle.hy_frame.specs.Frame.{free_in, IsFull, sized, with_rows};
ghost use Rattle.hy_frame.specs.Word.{word_in};
ghost use Rattle.hy_frame.specs.Pieces.{with_row};

use crate::bytes::{clear, number_at, part, put, put_number};
use crate::fault::NoMemory;
use crate::parse::{LoadFault, parse_frame};
use crate::row::{RowBuf, RowRef};
use std::alloc::Global;
use std::marker::Model;

/// What became of a row that was to be appended to a frame.
#[derive(Clone, Copy, Debug, PartialEq, Eq)]
pub enum Append {
    Appended,
    NoRoom,
}

/// Rows as bytes: the tuples from the front on, and from the back the number of tuples and where
/// each of them ends. A frame comes of a bank, which it must go back to.
#[derive(Drop)]
pub struct Frame {
    arity: usize,
    unit: usize,
    count: usize,
    used: usize,
    bytes: Vec<u8>,
}

impl Model for Frame {
    ghost use Rattle.std.specs.Prelude.{length};
    ghost use Rattle.hy_frame.specs.Cuts.{frame_rows, HoldsRows};
    ghost use Rattle.hy_frame.specs.Frame.{FrameOf};

    ghost Value = { FrameOf };

    ghost view = { λ f. record { arity = f.arity; unit = f.unit; size = length f.bytes.items; rows = frame_rows f.arity f.count f.bytes.items } };

    ghost invariant = { λ f. HoldsRows f.arity f.unit f.count f.used f.bytes.items };
}

impl Frame {
    /// A frame without rows.
    pub(crate) fn of_size(
        alloc: Global,
        arity: usize,
        unit: usize,
        size: usize,
    ) -> Result<Frame, NoMemory>
        requires least { 256 ≤ unit }
        requires most { unit ≤ 65536 }
        requires whole { unit ≤ size }
        ensures { IfOk result (λ f. f ≡ record { arity = arity; unit = unit; size = size; rows = [] }) }
    {
        let bytes = vec![in alloc; 0; size]?;
        Ok(Frame {
            arity,
            unit,
            count: 0,
            used: 0,
            bytes,
        })
    }

    /// The number of fields of each row.
    pub fn arity(&self) -> usize
        ensures { result ≡ self.now.arity }
    {
        self.arity
    }

    /// Appends a row where it has room.
    pub fn append(&mut self, row: &RowBuf) -> Append
        requires arity { length row.now ≡ self.old.arity }
        requires alone { self.old.unit < self.old.size → self.old.rows ≡ [] → IsLeast self.old.unit (row_size row.now) self.old.size }
        ensures appended { result ≡ Append.Appended → self.new ≡ with_rows self.old (self.old.rows ++ row.now ∷ []) }
        ensures no_room { (result ≡ Append.NoRoom) ↔ IsFull self.old (row_size row.now) }
        ensures same { result ≡ Append.NoRoom → self.new ≡ self.old }
    {
        let size = row.size();
        if self.is_full_for(size) {
            return Append::NoRoom;
        }
        write_row(&mut self.bytes, self.used, self.count, &row.as_row());
        self.used += size;
        self.count += 1;
        Append::Appended
    }

    /// Whether a row of this size has no room.
    fn is_full_for(&self, size: usize) -> bool
        requires { size < 2 ^ 32 }
        ensures { IsTrue result ↔ IsFull self.now size }
    {
        self.free() < size + 4 || self.is_closed()
    }

    /// How many bytes are free for rows.
    fn free(&self) -> usize
        ensures { result ≡ free_in self.now }
    {
        self.bytes.len() - 4 - 4 * self.count - self.used
    }

    /// Whether the frame is larger than its unit and holds its row.
    fn is_closed(&self) -> bool
        ensures { IsTrue result ↔ ((self.now.unit < self.now.size) × (self.now.rows ≢ [])) }
    {
        self.count > 0 && self.unit < self.bytes.len()
    }

    /// The number of rows.
    pub fn rows(&self) -> usize
        ensures rows { result ≡ length self.now.rows }
        ensures fields { AllRows self.now.arity self.now.rows }
    {
        self.count
    }

    /// The tuple of the row in this place.
    pub fn tuple(&self, i: usize) -> &[u8]
        requires { i < length self.now.rows }
        ensures { result.now ≡ tuple_bytes (get_or self.now.rows i []) }
    {
        let size = self.bytes.len();
        let start = start_of(&self.bytes, i);
        let end = number_at(&self.bytes, size - 8 - 4 * i);
        part(&self.bytes, start, end)
    }

    /// The row in this place.
    pub fn row(&self, i: usize) -> RowRef<'_>
        requires { i < length self.now.rows }
        ensures row { result ≡ get_or self.now.rows i [] }
        ensures fields { IsRow self.now.arity (get_or self.now.rows i []) }
    {
        let tuple = self.tuple(i);
        let (ends, fields) = tuple.split_at(4 * self.arity);
        RowRef {
            count: self.arity,
            ends,
            fields,
        }
    }

    /// The field in this place of the row in that place.
    pub fn field(&self, i: usize, j: usize) -> &[u8]
        requires row { i < length self.now.rows }
        requires field { j < self.now.arity }
        ensures field { result.now ≡ get_or (get_or self.now.rows i []) j [] }
        ensures is_field { IsField result.now }
    {
        self.row(i).field(j)
    }

    /// The frame's bytes.
    pub fn bytes(&self) -> &[u8]
        ensures bytes { result.now ≡ frame_bytes self.now.size self.now.rows }
        ensures text { ((self.now.rows ≢ []) ⊎ (self.now.size ≡ self.now.unit))
            → FrameText self.now.rows self.now.arity self.now.unit result.now }
    {
        &self.bytes
    }

    /// Takes the rows of a frame's bytes in place of its own, and their size.
    pub fn load(&mut self, bytes: &[u8]) -> Result<(), LoadFault>
        ensures ok { OnOk result ((self.new ≡ sized self.old (length bytes.now) self.new.rows) × FrameText self.new.rows self.new.arity self.new.unit bytes.now) }
        ensures bad { IsErrOf result LoadFault.NotFrame ↔ (¬ IsFrameText self.old.arity self.old.unit bytes.now) }
        ensures err { OnErr result (self.new ≡ self.old) }
    {
        let Ok(count) = parse_frame(self.arity, self.unit, bytes) else {
            return Err(LoadFault::NotFrame);
        };
        let more = bytes.len().saturating_sub(self.bytes.len());
        if self.bytes.reserve(more).is_err() {
            return Err(LoadFault::NoMemory);
        }
        let used = start_of(bytes, count);
        self.bytes.clear();
        if self.bytes.extend_from_slice(bytes).is_err() {
            return Err(LoadFault::NoMemory);
        }
        self.count = count;
        self.used = used;
        Ok(())
    }

    /// Takes the rows of another frame in place of its own, and their size.
    pub fn copy_from(&mut self, other: &Frame) -> Result<(), NoMemory>
        requires arity { other.now.arity ≡ self.old.arity }
        requires unit { other.now.unit ≡ self.old.unit }
        ensures ok { OnOk result (self.new ≡ other.now) }
        ensures err { OnErr result (self.new ≡ self.old) }
    {
        let more = other.bytes.len().saturating_sub(self.bytes.len());
        self.bytes.reserve(more)?;
        self.bytes.clear();
        self.bytes.extend_from_slice(&other.bytes)?;
        self.count = other.count;
        self.used = other.used;
        Ok(())
    }

    /// A frame with the same rows, for which no bank has a count.
    pub(crate) fn copy(&self, alloc: Global) -> Result<Frame, NoMemory>
        ensures { IfOk result (λ f. f ≡ self.now) }
    {
        let mut bytes = Vec::new(alloc);
        bytes.extend_from_slice(&self.bytes)?;
        Ok(Frame {
            arity: self.arity,
            unit: self.unit,
            count: self.count,
            used: self.used,
            bytes,
        })
    }

    /// Takes all rows out.
    pub fn clear(&mut self)
        ensures { self.new ≡ with_rows self.old [] }
    {
        clear(&mut self.bytes);
        self.count = 0;
        self.used = 0;
    }
}

/// Writes a row, the end of its tuple and the number of rows into a frame's bytes.
fn write_row(bytes: &mut [u8], used: usize, count: usize, row: &RowRef<'_>)
    requires room { used + row_size row.now + 4 * count + 8 ≤ length bytes.old }
    requires reached { length bytes.old < 2 ^ 32 }
    ensures { bytes.new ≡ with_row count used row.now bytes.old }
{
    let (ends, fields) = row.pieces();
    let end = used + row.size();
    let size = bytes.len();
    put(bytes, used, ends);
    put(bytes, used + ends.len(), fields);
    put_number(bytes, size - 8 - 4 * count, end as u32);
    put_number(bytes, size - 4, (count + 1) as u32);
}

/// Where the tuple in this place of a frame's bytes begins: where the one before it ends.
fn start_of(bytes: &[u8], i: usize) -> usize
    requires { 4 * i + 4 ≤ length bytes.now }
    ensures first { i ≡ 0 → result ≡ 0 }
    ensures later { 0 < i → result ≡ word_in (drop (length bytes.now - 4 - 4 * i) bytes.now) }
{
    if i == 0 {
        0
    } else {
        number_at(bytes, bytes.len() - 4 - 4 * i)
    }
}
