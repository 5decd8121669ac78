ghost use Rattle.std.specs.Prelude.{◌≡◌, IfOk};
ghost use Rattle.al_csv.specs.Fields.{bool_field, field_value, int_field, text_field};

use crate::decl::Kind;
use crate::refused::DataKind;
use al_value::{NoMemory, Text, TextFault, Value};
use std::alloc::Global;

/// The value of a field under a column of this kind, or what is wrong with it.
pub fn read_field(
    alloc: Global,
    kind: Kind,
    field: &[u8],
) -> Result<Result<Value, DataKind>, NoMemory>
    ensures { IfOk result (λ read. read ≡ field_value kind field.now) }
{
    if field.is_empty() {
        return Ok(Ok(Value::Null));
    }
    match kind {
        Kind::Int => Ok(read_int(field)),
        Kind::Text => read_text(alloc, field),
        Kind::Bool => Ok(read_bool(field)),
    }
}

fn read_int(field: &[u8]) -> Result<Value, DataKind>
    ensures { result ≡ int_field field.now }
{
    let Ok(text) = str::from_utf8(field) else {
        return Err(DataKind::BadInt);
    };
    match text.parse::<i64>() {
        Ok(number) => Ok(Value::Int(number)),
        Err(_) => Err(DataKind::BadInt),
    }
}

fn read_bool(field: &[u8]) -> Result<Value, DataKind>
    ensures { result ≡ bool_field field.now }
{
    if field.eq_ignore_ascii_case(b"true") {
        Ok(Value::Bool(true))
    } else if field.eq_ignore_ascii_case(b"false") {
        Ok(Value::Bool(false))
    } else {
        Err(DataKind::BadBool)
    }
}

fn read_text(alloc: Global, field: &[u8]) -> Result<Result<Value, DataKind>, NoMemory>
    ensures { IfOk result (λ read. read ≡ text_field field.now) }
{
    let Ok(text) = str::from_utf8(field) else {
        return Ok(Err(DataKind::BadUtf8));
    };
    match Text::new(alloc, text) {
        Ok(text) => Ok(Ok(Value::Text(text))),
        Err(TextFault::TooLong) => Ok(Err(DataKind::TooLong)),
        Err(TextFault::NoMemory) => Err(NoMemory),
    }
}
