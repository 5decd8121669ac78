ghost use Rattle.std.specs.Prelude.{◌≡◌, ◌++◌, ◌∷◌, [], ℕ, List as Listed, IfOk, OnOk, map};
ghost use Rattle.csv.specs.Records.{fields_of};
ghost use Rattle.al_csv.specs.Lines.{line};
ghost use Rattle.al_csv.specs.OutText as spec;
ghost use Rattle.al_csv.specs.Written.{Wrote};

use al_value::{List, Name, NoMemory, Row, Value};
use csv::{StringRecord, Writer, WriterBuilder};
use std::alloc::Global;

/// The text of a result: a line of the names, and a line for each row.
pub fn out_text(alloc: Global, names: &[Name], rows: &[Row]) -> Result<List<u8>, NoMemory>
    ensures { IfOk result (λ text. text ≡ spec.out_text names.now rows.now) }
{
    let mut writer = WriterBuilder::new()
        .flexible(true)
        .from_writer(Vec::new(alloc));
    let mut fields = StringRecord::new(alloc);
    fill_names(&mut fields, names)?;
    write_line(&mut writer, &fields)?;
    for row in rows {
        fill_values(alloc, &mut fields, row.as_slice())?;
        write_line(&mut writer, &fields)?;
    }
    match writer.into_inner() {
        Ok(text) => Ok(List::from_vec(text)),
        Err(_) => Err(NoMemory),
    }
}

fn fill_names(fields: &mut StringRecord, names: &[Name]) -> Result<(), NoMemory>
    ensures { OnOk result (fields_of fields.new ≡ names.now) }
{
    fields.clear();
    for name in names {
        fields.push_field(name.as_str())?;
    }
    Ok(())
}

fn fill_values(alloc: Global, fields: &mut StringRecord, values: &[Value]) -> Result<(), NoMemory>
    ensures { OnOk result (fields_of fields.new ≡ map spec.value_text values.now) }
{
    fields.clear();
    for value in values {
        push_value(alloc, fields, value)?;
    }
    Ok(())
}

fn push_value(alloc: Global, fields: &mut StringRecord, value: &Value) -> Result<(), NoMemory>
    ensures { OnOk result (fields_of fields.new ≡ fields_of fields.old ++ spec.value_text value.now ∷ []) }
{
    match value {
        Value::Null => fields.push_field("")?,
        Value::Bool(true) => fields.push_field("true")?,
        Value::Bool(false) => fields.push_field("false")?,
        Value::Int(n) => {
            let text = format!(in alloc; "{n}")?;
            fields.push_field(text.as_str())?;
        }
        Value::Text(text) => fields.push_field(text.as_str())?,
    }
    Ok(())
}

fn write_line(writer: &mut Writer<Vec<u8>>, fields: &StringRecord) -> Result<(), NoMemory>
    ensures { OnOk result ((text : Listed ℕ) → Wrote writer.old text → Wrote writer.new (text ++ line (fields_of fields.now))) }
{
    if writer.write_byte_record(fields.as_byte_record()).is_err() {
        return Err(NoMemory);
    }
    Ok(())
}
