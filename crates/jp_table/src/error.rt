ghost use Rattle.std.specs.Prelude.{◌≡◌};
ghost use Rattle.jp_table.specs.declared.error.TableError.TheVariants as TableError;

use jp_base::Memory;

/// Why a data file gives no table. Records of data and columns are counted from 1, and the header is no record
/// of data.
#[derive(Clone, Copy, Debug, PartialEq, Eq)]
pub enum TableError {
    /// The first record isn't the list of the columns' names in order, or there is no record.
    Header,
    /// A record with another number of fields than the table has columns: the record, and how many fields it has.
    FieldCount(u64, u64),
    /// A field of a number column that is no whole number from -2^63 to 2^63-1: the record and the column.
    BadNumber(u64, u32),
    /// A field of a boolean column that is none of `t`, `f`, `true` and `false`: the record and the column.
    BadBool(u64, u32),
    /// A field of a text column that isn't UTF-8: the record and the column.
    NotUtf8(u64, u32),
    /// A record with a NULL in a column of the primary key.
    NullInKey(u64),
    /// Two records that are equal in all columns of a key without a NULL: the least such earlier record, and the
    /// record that repeats it.
    KeyRepeated(u64, u64),
    /// Memory was refused.
    Memory,
}

impl From<Memory> for TableError {
    ghost from_gives = { λ m e. e ≡ TableError.Memory };

    fn from(_memory: Memory) -> TableError {
        TableError::Memory
    }
}
