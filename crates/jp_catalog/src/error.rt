use jp_base::Txt;

/// Why a text is no catalogue. A text is the path of the value that is wrong, such as
/// `tables.a.columns[1].type`; entries of `columns` and `unique` are counted from 0.
#[derive(Debug, Drop)]
pub enum CatalogError {
    /// The bytes aren't UTF-8, or the text isn't TOML.
    NotToml,
    /// `version` is missing or isn't 1.
    Version,
    /// A key that must be there isn't.
    Missing(Txt),
    /// A value of a wrong kind, a wrong type word, or a list of columns without entries.
    BadType(Txt),
    /// A key that the format doesn't have.
    UnknownKey(Txt),
    /// The name of a table or a column is empty or has more than 63 bytes.
    BadName(Txt),
    /// More than 64 columns.
    TooManyColumns(Txt),
    /// A column's name stands twice in its table.
    DuplicateColumn(Txt),
    /// A key names no column, one that isn't there, or one twice.
    KeyColumn(Txt),
    /// Stated rows outside 1 to 4294967295.
    RowsOutOfRange(Txt),
    /// Memory was refused.
    Memory,
}
