//! Where the right rows are, by the hashes of their keys.

ghost use Rattle.std.specs.Prelude.{◌≡◌, ◌<◌, ◌-◌, ◌^◌, ◌++◌, ◌∷◌, [], ℕ, nat_eq, if◌then◌else◌, slice_get, IfOk, IfSome, OnOk};
ghost use Rattle.indexmap.specs.IndexMap.{get};
ghost use Rattle.hy_join.specs.Keys.{IsIndex, found_at, is_under};

use crate::keys::key_hash;
use al_value::{List, NoMemory};
use hy_frame::{RowBuf, RowRef};
use indexmap::IndexMap;
use std::alloc::Global;

/// Puts a place behind those that are found by its hash.
fn put_place(
    alloc: Global,
    index: &mut IndexMap<u64, List<usize>>,
    hash: u64,
    place: usize,
) -> Result<(), NoMemory>
    ensures { OnOk result ((q : ℕ) → found_at (get nat_eq index.new q) ≡ found_at (get nat_eq index.old q) ++ (if nat_eq hash q then place ∷ [] else [])) }
{
    if let Some(places) = index.get_mut(&hash) {
        places.push(place)?;
        return Ok(());
    }
    let mut places = List::new(alloc);
    places.push(place)?;
    match index.insert(hash, places) {
        Ok(_) => Ok(()),
        Err(_) => Err(NoMemory),
    }
}

/// Puts the place of a row that has a hash.
fn put_row(
    alloc: Global,
    index: &mut IndexMap<u64, List<usize>>,
    columns: &[u32],
    row: &RowRef<'_>,
    place: usize,
) -> Result<(), NoMemory>
    ensures { OnOk result ((q : ℕ) → found_at (get nat_eq index.new q) ≡ found_at (get nat_eq index.old q) ++ (if is_under columns.now q row.now then place ∷ [] else [])) }
{
    match key_hash(columns, row) {
        Some(hash) => put_place(alloc, index, hash, place),
        None => Ok(()),
    }
}

/// The places of rows by the hashes of these columns. Rows with a NULL there are not found.
pub(crate) fn index_rows(
    alloc: Global,
    columns: &[u32],
    rows: &[RowBuf],
) -> Result<IndexMap<u64, List<usize>>, NoMemory>
    ensures { IfOk result (λ index. IsIndex columns.now rows.now (get nat_eq index)) }
{
    let mut index = IndexMap::new(alloc);
    for place in 0..rows.len() {
        put_row(alloc, &mut index, columns, &rows[place].as_row(), place)?;
    }
    Ok(index)
}

/// One of the places that are found by a hash.
pub(crate) fn place_under(index: &IndexMap<u64, List<usize>>, hash: u64, at: usize) -> Option<usize>
    ensures place { result ≡ slice_get (found_at (get nat_eq index.now hash)) at }
    ensures room { IfSome result (λ place. at < 2 ^ 64 - 1) }
{
    match index.get(&hash) {
        Some(places) => places.as_slice().get(at).copied(),
        None => None,
    }
}
