//! The hash of a row's keys.

ghost use Rattle.std.specs.Prelude.{◌≡◌, false, true, IfNone, IfSome};
ghost use Rattle.al_func.specs.Func.{is_null as is_null_value};
ghost use Rattle.al_value.specs.Field.{field_bytes};
ghost use Rattle.hy_driver.specs.Rows.{values_of};
ghost use Rattle.hy_job.specs.Columns as spec;
ghost use Rattle.hy_join.specs.Keys.{hash_of};

use crate::fields::is_null;
use al_value::{hash_add, hash_start};
use hy_frame::RowRef;

/// The level of the hash by which right rows are found.
const LEVEL: u8 = 1;

/// The field of a column, where it is not NULL.
#[tactic(auto, using(crate::proofs::KeyLaws::field_laws))]
fn key_field<'a>(row: &RowRef<'a>, j: usize) -> Option<&'a [u8]>
    ensures live { IfSome result (λ field. is_null_value (spec.column (values_of row.now) j) ≡ false) }
    ensures bytes { IfSome result (λ field. field.now ≡ field_bytes (spec.column (values_of row.now) j)) }
    ensures null { IfNone result (is_null_value (spec.column (values_of row.now) j) ≡ true) }
{
    if j >= row.len() {
        return None;
    }
    let field = row.field(j);
    if is_null(field) {
        return None;
    }
    Some(field)
}

/// The hash of the values of these columns by the bytes of their fields, and none where one of them
/// is NULL.
#[tactic(auto, using(crate::proofs::KeyLaws::key_laws))]
pub(crate) fn key_hash(columns: &[u32], row: &RowRef<'_>) -> Option<u64>
    ensures { result ≡ hash_of columns.now (values_of row.now) }
{
    let mut hash = hash_start(LEVEL);
    for j in columns {
        let Some(field) = key_field(row, *j as usize) else {
            return None;
        };
        hash = hash_add(hash, field);
    }
    Some(hash)
}
