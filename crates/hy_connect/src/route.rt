//! Which rows go to which receiver.
ghost use Rattle.std.specs.Prelude.{◌≡◌, ◌<◌, length, IfOk, All};
ghost use Rattle.hy_driver.specs.Rows.{values_of};
ghost use Rattle.hy_frame.specs.Row.{IsRow};
ghost use Rattle.hy_job.specs.Columns.{part_of};
ghost use Rattle.hy_connect.specs.Routes.{route_of};

use al_value::{List, NoMemory, hash_add, hash_start};
use hy_frame::RowRef;
use hy_job::Wire;
use std::alloc::Global;

/// Which rows each receiver is sent.
#[derive(Drop)]
pub(crate) enum Route {
    /// All.
    Whole,
    /// Those whose part, by the hash of these columns, is the receiver's place.
    ByHash(List<u32>),
}

impl Route {
    /// The route of a wire.
    pub(crate) fn of(alloc: Global, wire: &Wire) -> Result<Route, NoMemory>
        ensures { IfOk result (λ route. route ≡ route_of wire.now) }
    {
        match wire {
            Wire::Hash(columns) => Ok(Route::ByHash(copy_numbers(alloc, columns.as_slice())?)),
            Wire::OneToOne | Wire::Broadcast | Wire::Gather | Wire::Merge(_) => Ok(Route::Whole),
        }
    }
}

fn copy_numbers(alloc: Global, numbers: &[u32]) -> Result<List<u32>, NoMemory>
    ensures { IfOk result (λ copy. copy ≡ numbers.now) }
{
    Ok(List::from_vec(Vec::from_slice(alloc, numbers)?))
}

/// The part, of this many, that the hash of these columns names.
pub(crate) fn part(columns: &[u32], parts: usize, row: &RowRef<'_>) -> usize
    requires some { 0 < parts }
    requires columns { All (λ j. j < length row.now) columns.now }
    requires fields { IsRow (length row.now) row.now }
    ensures part { result ≡ part_of parts columns.now (values_of row.now) }
    ensures below { result < parts }
{
    let mut hash = hash_start(0);
    for column in columns {
        hash = hash_add(hash, row.field(*column as usize));
    }
    (hash % parts as u64) as usize
}
