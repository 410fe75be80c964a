ghost use Rattle.std.specs.Prelude.{◌≡◌, ◌<◌, [], map, length};
ghost use Rattle.std.specs.Cmp.Lexicographic.{pointwise};
ghost use Rattle.std.specs.List.{slice_index_or};
ghost use Rattle.std.specs.Str.{bytes_eq};
ghost use Rattle.csv.specs.Records.{fields_of};

use csv::ByteRecord;
use jp_catalog::Columns;

/// Whether the record names the columns, in order.
pub(crate) fn is_header(columns: &Columns, header: &ByteRecord) -> bool
    ensures { result ≡ pointwise bytes_eq (map (λ column. column.0) columns.now) (fields_of header.now) }
{
    if header.len() != columns.len() {
        return false;
    }
    for i in 0..columns.len() {
        if !is_name(columns, i, field_at(header, i)) {
            return false;
        }
    }
    true
}

/// Whether the column at the place has the name.
fn is_name(columns: &Columns, i: usize, name: &[u8]) -> bool
    requires { i < length columns.now }
    ensures { result ≡ bytes_eq (slice_index_or (map (λ column. column.0) columns.now) i []) name.now }
{
    match columns.get_index(i) {
        Some((column, _)) => column.as_str().as_bytes() == name,
        None => false,
    }
}

/// The field at a place, counted from 0.
pub(crate) fn field_at(fields: &ByteRecord, i: usize) -> &[u8]
    requires { i < length (fields_of fields.now) }
    ensures { result.now ≡ slice_index_or (fields_of fields.now) i [] }
{
    match fields.get(i) {
        Some(field) => field,
        None => unreachable!(),
    }
}
