ghost use Rattle.std.specs.Prelude.{◌≡◌, ◌<◌, ◌≤◌, ◌*◌, ◌-◌, ◌^◌, ◌++◌, [], ◌∷◌, length, drop, get_or, OnOk, OnErr};
ghost use Rattle.hy_frame.specs.Field.{IsField};
ghost use Rattle.hy_frame.specs.Row.{IsRow, row_size, field_ends};
ghost use Rattle.std.specs.List.{concat};
ghost use Rattle.hy_frame.specs.Word.{word_in};

use crate::bytes::{number_at, part, push_number};
use crate::fault::NoMemory;
use std::alloc::Global;
use std::marker::Model;

/// The most fields of a row that is built.
pub const MAX_FIELDS: usize = 1024;

/// A row that is built field by field, which contracts see as the list of its fields.
#[derive(Drop)]
pub struct RowBuf {
    count: usize,
    ends: Vec<u8>,
    fields: Vec<u8>,
}

impl Model for RowBuf {
    ghost use Rattle.std.specs.Prelude.{◌≤◌, ℕ, List};
    ghost use Rattle.hy_frame.specs.Cuts.{cut_row, HoldsRow};

    ghost Value = { List (List ℕ) };

    ghost view = { λ r. cut_row r.count 0 r.ends.items r.fields.items };

    ghost invariant = { λ r. (HoldsRow r.count r.ends.items r.fields.items) × (r.count ≤ 1024) };
}

impl RowBuf {
    pub fn new(alloc: Global) -> RowBuf
        ensures { result ≡ [] }
    {
        RowBuf {
            count: 0,
            ends: Vec::new(alloc),
            fields: Vec::new(alloc),
        }
    }

    /// Appends a field.
    pub fn push_field(&mut self, field: &[u8]) -> Result<(), NoMemory>
        requires is_field { IsField field.now }
        requires room { length self.old < MAX_FIELDS }
        ensures ok { OnOk result (self.new ≡ self.old ++ field.now ∷ []) }
        ensures err { OnErr result (self.new ≡ self.old) }
    {
        let end = self.fields.len() + field.len();
        self.fields.reserve(field.len())?;
        push_number(&mut self.ends, end as u32)?;
        self.fields.extend_from_slice(field)?;
        self.count += 1;
        Ok(())
    }

    /// Takes the fields of another row in place of its own.
    pub fn copy_from(&mut self, row: &RowRef<'_>) -> Result<(), NoMemory>
        requires { length row.now ≤ MAX_FIELDS }
        ensures ok { OnOk result (self.new ≡ row.now) }
        ensures err { OnErr result (self.new ≡ self.old) }
    {
        let more_ends = row.ends.len().saturating_sub(self.ends.len());
        self.ends.reserve(more_ends)?;
        let more_fields = row.fields.len().saturating_sub(self.fields.len());
        self.fields.reserve(more_fields)?;
        self.ends.clear();
        self.ends.extend_from_slice(row.ends)?;
        self.fields.clear();
        self.fields.extend_from_slice(row.fields)?;
        self.count = row.count;
        Ok(())
    }

    /// Takes all fields out.
    pub fn clear(&mut self)
        ensures { self.new ≡ [] }
    {
        self.count = 0;
        self.ends.clear();
        self.fields.clear();
    }

    /// The number of fields.
    pub fn len(&self) -> usize
        ensures { result ≡ length self.now }
    {
        self.count
    }

    /// The number of bytes of the row's tuple.
    pub fn size(&self) -> usize
        ensures size { result ≡ row_size self.now }
        ensures short { result < 2 ^ 31 }
    {
        self.ends.len() + self.fields.len()
    }

    pub fn as_row(&self) -> RowRef<'_>
        ensures row { result ≡ self.now }
        ensures fields { IsRow (length self.now) self.now }
        ensures few { length self.now ≤ MAX_FIELDS }
    {
        RowRef {
            count: self.count,
            ends: &self.ends,
            fields: &self.fields,
        }
    }
}

/// A row that stands in a frame or in a `RowBuf`, which contracts see as the list of its fields.
#[derive(Drop)]
pub struct RowRef<'a> {
    pub(crate) count: usize,
    pub(crate) ends: &'a [u8],
    pub(crate) fields: &'a [u8],
}

impl<'a> Model for RowRef<'a> {
    ghost use Rattle.std.specs.Prelude.{ℕ, List};
    ghost use Rattle.hy_frame.specs.Cuts.{cut_row, HoldsRow};

    ghost Value = { List (List ℕ) };

    ghost view = { λ r. cut_row r.count 0 r.ends.now r.fields.now };

    ghost invariant = { λ r. HoldsRow r.count r.ends.now r.fields.now };
}

impl<'a> RowRef<'a> {
    /// The number of fields.
    pub fn len(&self) -> usize
        ensures { result ≡ length self.now }
    {
        self.count
    }

    /// The number of bytes of the row's tuple.
    pub fn size(&self) -> usize
        ensures { result ≡ row_size self.now }
    {
        self.ends.len() + self.fields.len()
    }

    /// The field in this place.
    pub fn field(&self, j: usize) -> &'a [u8]
        requires { j < length self.now }
        ensures field { result.now ≡ get_or self.now j [] }
        ensures is_field { IsField result.now }
    {
        let start = start_of(self.ends, j);
        let end = number_at(self.ends, 4 * j);
        part(self.fields, start, end)
    }

    /// The ends of the fields and the fields, one after the other the row's tuple.
    pub(crate) fn pieces(&self) -> (&'a [u8], &'a [u8])
        ensures ends { result.0.now ≡ field_ends 0 self.now }
        ensures fields { result.1.now ≡ concat self.now }
    {
        (self.ends, self.fields)
    }
}

/// Where the field in this place begins: where the one before it ends.
fn start_of(ends: &[u8], j: usize) -> usize
    requires { 4 * j ≤ length ends.now }
    ensures first { j ≡ 0 → result ≡ 0 }
    ensures later { 0 < j → result ≡ word_in (drop (4 * j - 4) ends.now) }
{
    if j == 0 {
        0
    } else {
        number_at(ends, 4 * j - 4)
    }
}
