ghost use Rattle.std.specs.Prelude.{◌≡◌, ◌≢◌, ◌↔◌, ◌++◌, [], ◌∷◌, ◌+◌, ◌<◌, ◌≤◌, ℤ, length, vec_len, vec_capacity, IfOk, IfSome, OnOk, OnErr, Err, FitsSigned, IsNone};
ghost use Rattle.std.specs.Int.{w64};
ghost use Rattle.std.specs.Ordering.{nat_cmp};
ghost use Rattle.std.specs.Cmp.Lexicographic.{slice_cmp};
ghost use Rattle.byteorder.specs.Endian.{big_bytes};
ghost use Rattle.al_value.specs.declared.value.Value.{Value as Cell};
ghost use Rattle.al_value.specs.declared.value.Value.TheVariants as V;
ghost use Rattle.al_value.specs.Field.{field_bytes, IsNoField, raised as raised_of};
ghost use Rattle.al_value.specs.Text.{IsText};
ghost use Rattle.al_value.specs.Value.{IsValue, value_cmp};

use crate::fault::NoMemory;
use crate::text::{MAX_TEXT, Text, TextFault};
use crate::value::Value;
use byteorder::{BigEndian, ByteOrder};
use std::alloc::Global;
use std::cmp::Ordering;
use std::str::from_utf8;

const NULL_TAG: u8 = 0;

const FALSE_TAG: u8 = 1;

const TRUE_TAG: u8 = 2;

const INT_TAG: u8 = 3;

const TEXT_TAG: u8 = 4;

/// By how much an int's number in a field lies above the int.
const OFFSET: i128 = 1 << 63;

/// Why bytes are not read as a field.
#[derive(Clone, Copy, Debug, PartialEq, Eq)]
pub enum FieldFault {
    BadField,
    NoMemory,
}

/// Appends the field of a value.
pub fn put_field(v: &Value, out: &mut Vec<u8>) -> Result<(), NoMemory>
    ensures ok { OnOk result (out.new.items ≡ out.old.items ++ field_bytes v.now) }
    ensures err { OnErr result (out.new.items ≡ out.old.items) }
    ensures full { OnErr result (vec_capacity out.old < vec_len out.old + length (field_bytes v.now)) }
{
    match v {
        Value::Null => out.push(NULL_TAG)?,
        Value::Bool(false) => out.push(FALSE_TAG)?,
        Value::Bool(true) => out.push(TRUE_TAG)?,
        Value::Int(n) => put_tagged(INT_TAG, &int_bytes(*n), out)?,
        Value::Text(text) => put_tagged(TEXT_TAG, text.as_str().as_bytes(), out)?,
    }
    Ok(())
}

/// Appends a byte and the bytes behind it, or nothing.
fn put_tagged(tag: u8, rest: &[u8], out: &mut Vec<u8>) -> Result<(), NoMemory>
    requires { length rest.now ≤ MAX_TEXT }
    ensures ok { OnOk result (out.new.items ≡ out.old.items ++ tag ∷ rest.now) }
    ensures err { OnErr result (out.new.items ≡ out.old.items) }
    ensures full { OnErr result (vec_capacity out.old < vec_len out.old + (1 + length rest.now)) }
{
    out.reserve(1 + rest.len())?;
    out.push_reserved(tag);
    out.extend_from_slice(rest)?;
    Ok(())
}

/// The bytes of an int behind the first of its field.
fn int_bytes(n: i64) -> [u8; 8]
    ensures { result ≡ big_bytes 8 (raised_of n) }
{
    let mut bytes = [0; 8];
    BigEndian::write_u64(&mut bytes, raised(n));
    bytes
}

/// The number that stands in the field of an int.
fn raised(n: i64) -> u64
    ensures { result ≡ raised_of n }
{
    (i128::from(n) + OFFSET) as u64
}

/// The int whose number this is.
fn lowered(number: u64) -> i64
    ensures fits { FitsSigned w64 result }
    ensures number { raised_of result ≡ number }
{
    (i128::from(number) - OFFSET) as i64
}

/// Reads the one value whose field this is.
pub fn get_field(alloc: Global, bytes: &[u8]) -> Result<Value, FieldFault>
    ensures value { IfOk result (λ v. IsValue v × (field_bytes v ≡ bytes.now)) }
    ensures one { IfOk result (λ v. (w : Cell) → IsValue w → field_bytes w ≡ bytes.now → w ≡ v) }
    ensures bad { (result ≡ Err FieldFault.BadField) ↔ IsNoField bytes.now }
{
    match bytes.split_first() {
        Some((tag, rest)) => get_tagged(alloc, *tag, rest),
        None => Err(FieldFault::BadField),
    }
}

/// Reads the value of the field that begins with this byte.
fn get_tagged(alloc: Global, tag: u8, rest: &[u8]) -> Result<Value, FieldFault>
    ensures value { IfOk result (λ v. IsValue v × (field_bytes v ≡ tag ∷ rest.now)) }
    ensures bad { (result ≡ Err FieldFault.BadField) ↔ IsNoField (tag ∷ rest.now) }
{
    match tag {
        NULL_TAG => get_no_bytes(rest, Value::Null),
        FALSE_TAG => get_no_bytes(rest, Value::Bool(false)),
        TRUE_TAG => get_no_bytes(rest, Value::Bool(true)),
        INT_TAG => match get_int(rest) {
            Some(n) => Ok(Value::Int(n)),
            None => Err(FieldFault::BadField),
        },
        TEXT_TAG => get_text(alloc, rest),
        _ => Err(FieldFault::BadField),
    }
}

/// A value whose field has no bytes behind the first.
fn get_no_bytes(rest: &[u8], v: Value) -> Result<Value, FieldFault>
    ensures value { IfOk result (λ w. (w ≡ v) × (rest.now ≡ [])) }
    ensures bad { (result ≡ Err FieldFault.BadField) ↔ (rest.now ≢ []) }
{
    if rest.is_empty() {
        Ok(v)
    } else {
        Err(FieldFault::BadField)
    }
}

/// The int with these bytes.
fn get_int(bytes: &[u8]) -> Option<i64>
    ensures value { IfSome result (λ z. FitsSigned w64 z × (big_bytes 8 (raised_of z) ≡ bytes.now)) }
    ensures none { IsNone result → (z : ℤ) → FitsSigned w64 z → big_bytes 8 (raised_of z) ≢ bytes.now }
{
    if bytes.len() != 8 {
        return None;
    }
    let n = lowered(BigEndian::read_u64(bytes));
    // The int is written again, so that only bytes that are its own are taken.
    if int_bytes(n).as_slice() == bytes {
        Some(n)
    } else {
        None
    }
}

/// The text with these bytes.
fn get_text(alloc: Global, bytes: &[u8]) -> Result<Value, FieldFault>
    ensures value { IfOk result (λ v. IsText bytes.now × (v ≡ V.Text bytes.now)) }
    ensures bad { (result ≡ Err FieldFault.BadField) ↔ (¬ IsText bytes.now) }
{
    match from_utf8(bytes) {
        Ok(s) => match Text::new(alloc, s) {
            Ok(text) => Ok(Value::Text(text)),
            Err(TextFault::TooLong) => Err(FieldFault::BadField),
            Err(TextFault::NoMemory) => Err(FieldFault::NoMemory),
        },
        Err(_) => Err(FieldFault::BadField),
    }
}

/// Compares the bytes of two fields, which takes no memory.
pub fn cmp_fields(a: &[u8], b: &[u8]) -> Ordering
    ensures exact { result ≡ slice_cmp nat_cmp a.now b.now }

    // Fields are ordered as their values are.
    ensures order { (v w : Cell) → IsValue v → IsValue w → a.now ≡ field_bytes v → b.now ≡ field_bytes w
        → result ≡ value_cmp v w }
{
    a.cmp(b)
}
