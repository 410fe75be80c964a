ghost use Rattle.std.specs.Prelude.{◌≡◌, ℕ, List, [], ◌∷◌, ◌++◌, map, IfOk, OnOk};
ghost use Rattle.csv.specs.Records.{fields_of, partial_of};
ghost use Rattle.csv.specs.Writing.{default_writer, row_text};
ghost use Rattle.std.specs.List.{flat_map};
ghost use Rattle.jp_session.specs.Output.{field_of, name_of, output_text, record_text};
ghost use Rattle.jp_session.specs.Writers.{HasWritten};

use csv::{ByteRecord, Writer, WriterBuilder};
use itoa::Buffer;
use jp_base::{Memory, Row, Value};
use jp_query::Output;
use std::alloc::Global;

/// The text of rows: the record of the output names, and one record for each row, by csv's default writer. A number is
/// written in decimal digits, a boolean as `t` or `f`; NULL and the text `\N` are both written `\N`. Memory is the only error.
pub fn output_text(alloc: Global, columns: &[Output], rows: &[Row]) -> Result<Vec<u8>, Memory>
    ensures { IfOk result (λ v. v.items ≡ output_text columns.now rows.now) }
{
    let mut writer = WriterBuilder::new()
        .flexible(true)
        .from_writer(Vec::new(alloc));
    let mut fields = ByteRecord::new(alloc);
    push_names(&mut fields, columns)?;
    write_record(&mut writer, &fields)?;
    write_rows(&mut writer, &mut fields, rows)?;
    match writer.into_inner() {
        Ok(text) => Ok(text),
        Err(_) => Err(Memory),
    }
}

fn write_rows(
    writer: &mut Writer<Vec<u8>>,
    fields: &mut ByteRecord,
    rows: &[Row],
) -> Result<(), Memory>
    ensures { OnOk result ((text : List ℕ) → HasWritten writer.old text → HasWritten writer.new (text ++ flat_map record_text rows.now)) }
{
    for row in rows {
        fields.clear();
        push_values(fields, row.as_slice())?;
        write_record(writer, fields)?;
    }
    Ok(())
}

fn write_record(writer: &mut Writer<Vec<u8>>, fields: &ByteRecord) -> Result<(), Memory>
    ensures { OnOk result ((text : List ℕ) → HasWritten writer.old text → HasWritten writer.new (text ++ row_text default_writer (fields_of fields.now))) }
{
    match writer.write_byte_record(fields) {
        Ok(()) => {}
        Err(_) => return Err(Memory),
    }
    Ok(())
}

fn push_names(fields: &mut ByteRecord, columns: &[Output]) -> Result<(), Memory>
    requires { partial_of fields.old ≡ [] }
    ensures { OnOk result (fields_of fields.new ≡ fields_of fields.old ++ map name_of columns.now) }
{
    for column in columns {
        push_field(fields, column.name.as_str().as_bytes())?;
    }
    Ok(())
}

fn push_values(fields: &mut ByteRecord, values: &[Value]) -> Result<(), Memory>
    requires { partial_of fields.old ≡ [] }
    ensures { OnOk result (fields_of fields.new ≡ fields_of fields.old ++ map field_of values.now) }
{
    for value in values {
        push_value(fields, value)?;
    }
    Ok(())
}

fn push_value(fields: &mut ByteRecord, value: &Value) -> Result<(), Memory>
    requires { partial_of fields.old ≡ [] }
    ensures pushed { OnOk result (fields_of fields.new ≡ fields_of fields.old ++ field_of value.now ∷ []) }
    ensures whole { OnOk result (partial_of fields.new ≡ []) }
{
    match value {
        Value::Null => push_field(fields, b"\\N"),
        Value::Num(number) => {
            let mut buffer = Buffer::new();
            push_field(fields, buffer.format(*number).as_bytes())
        }
        Value::Bool(true) => push_field(fields, b"t"),
        Value::Bool(false) => push_field(fields, b"f"),
        Value::Text(text) => push_field(fields, text.as_str().as_bytes()),
    }
}

fn push_field(fields: &mut ByteRecord, field: &[u8]) -> Result<(), Memory>
    requires { partial_of fields.old ≡ [] }
    ensures pushed { OnOk result (fields_of fields.new ≡ fields_of fields.old ++ field.now ∷ []) }
    ensures whole { OnOk result (partial_of fields.new ≡ []) }
{
    match fields.push_field(field) {
        Ok(()) => Ok(()),
        Err(_) => Err(Memory),
    }
}
