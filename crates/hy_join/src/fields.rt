//! Rows by the bytes of their fields.

ghost use Rattle.std.specs.Prelude.{◌≡◌, ◌<◌, ◌≤◌, ◌+◌, ◌++◌, ◌∷◌, [], length, replicate, OnOk};
ghost use Rattle.al_func.specs.Func.{equal, is_true};
ghost use Rattle.hy_driver.specs.Rows.{value_of, values_of};
ghost use Rattle.hy_frame.specs.Field.{IsField};
ghost use Rattle.hy_job.specs.Columns as spec;
ghost use Rattle.hy_join.specs.Fields.{is_null_field};

use al_value::NoMemory;
use hy_frame::{MAX_FIELDS, RowBuf, RowRef};
use hy_rows::copy_row;

/// The field of NULL.
const NULL_FIELD: [u8; 1] = [0];

/// Whether this is the field of NULL, or none.
pub(crate) fn is_null(field: &[u8]) -> bool
    ensures { result ≡ is_null_field field.now }
{
    match field.first() {
        Some(tag) => *tag == 0,
        None => true,
    }
}

/// Whether two fields hold one value, and not NULL.
#[tactic(auto, using(crate::proofs::FieldLaws::field_laws))]
fn same_value(left: &[u8], right: &[u8]) -> bool
    requires left { IsField left.now }
    requires right { IsField right.now }
    ensures { result ≡ is_true (equal (value_of left.now) (value_of right.now)) }
{
    if is_null(left) {
        return false;
    }
    left == right
}

/// Whether a column of the left row and one of the right row hold one value, and not NULL.
#[tactic(auto, using(crate::proofs::FieldLaws::field_laws))]
fn same_column(left: &RowRef<'_>, j: usize, right: &RowRef<'_>, k: usize) -> bool
    ensures { result ≡ is_true (equal (spec.column (values_of left.now) j) (spec.column (values_of right.now) k)) }
{
    if j >= left.len() {
        return false;
    }
    if k >= right.len() {
        return false;
    }
    same_value(left.field(j), right.field(k))
}

/// Whether the key columns hold the same values place by place, and no NULL.
#[tactic(auto, using(crate::proofs::FieldLaws::field_laws))]
pub(crate) fn same_keys(
    lefts: &[u32],
    rights: &[u32],
    left: &RowRef<'_>,
    right: &RowRef<'_>,
) -> bool
    requires { length lefts.now ≡ length rights.now }
    ensures { result ≡ spec.are_keys_equal lefts.now rights.now (values_of left.now) (values_of right.now) }
{
    for i in 0..lefts.len() {
        if !same_column(left, lefts[i] as usize, right, rights[i] as usize) {
            return false;
        }
    }
    true
}

/// Puts a field behind others.
fn push_field(field: &[u8], out: &mut RowBuf) -> Result<(), NoMemory>
    requires is_field { IsField field.now }
    requires room { length out.old < MAX_FIELDS }
    ensures { OnOk result (out.new ≡ out.old ++ field.now ∷ []) }
{
    match out.push_field(field) {
        Ok(()) => Ok(()),
        Err(_) => Err(NoMemory),
    }
}

/// Takes the fields of both rows in place of those that are there, the left ones first.
#[tactic(auto, using(crate::proofs::FieldLaws::field_laws))]
pub(crate) fn put_both(
    left: &RowRef<'_>,
    right: &RowRef<'_>,
    out: &mut RowBuf,
) -> Result<(), NoMemory>
    requires few { length left.now + length right.now ≤ MAX_FIELDS }
    ensures { OnOk result (out.new ≡ left.now ++ right.now) }
{
    copy_row(left, out)?;
    for j in 0..right.len() {
        push_field(right.field(j), out)?;
    }
    Ok(())
}

/// Takes the fields of a row and this many NULLs behind them in place of those that are there.
#[tactic(auto, using(crate::proofs::FieldLaws::field_laws))]
pub(crate) fn put_padded(left: &RowRef<'_>, nulls: usize, out: &mut RowBuf) -> Result<(), NoMemory>
    requires few { length left.now + nulls ≤ MAX_FIELDS }
    ensures { OnOk result (out.new ≡ left.now ++ replicate nulls (0 ∷ [])) }
{
    copy_row(left, out)?;
    for _place in 0..nulls {
        push_field(&NULL_FIELD, out)?;
    }
    Ok(())
}
