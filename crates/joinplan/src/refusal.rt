ghost use Rattle.std.specs.Prelude.{◌≡◌, ◌≤◌, ◌++◌, codes};
ghost use Rattle.jp_table.specs.declared.error.TableError.TheVariants as fault;
ghost use Rattle.joinplan.specs.Lines.{TookLine, bytes_of};
ghost use Rattle.joinplan.specs.Refusals.{catalogue_fault, catalogue_line, data_line, data_line_start, depth_line, line_of, statement_fault, statement_line, status_of, tables_line, with_field};
ghost use Rattle.joinplan.specs.declared.refusal.Refusal.TheVariants as refusal;

use crate::faults::{StatementFault, fault_words};
use itoa::Buffer;
use jp_base::{Memory, Txt};
use jp_catalog::CatalogError;
use jp_io::{Sink, SinkError, write_all};
use jp_table::TableError;

/// Why a command ends without all of its output. Each has a status and a line on standard error.
#[derive(Debug, Drop)]
pub enum Refusal {
    /// The words have no form that is built.
    Usage,
    /// The catalogue's text is refused.
    Catalogue(CatalogError),
    /// The text of the table of this name is refused.
    Data(Txt, TableError),
    /// The statement is refused at this byte place.
    Statement(StatementFault, u32),
    /// The file of this name has more than 67108864 bytes.
    FileTooLarge(Txt),
    /// The statement has more than 65536 bytes.
    StatementTooLarge,
    /// The token at this byte place opens more than 64 places.
    TooDeep(u32),
    /// The statement has so many table references, which is more than 12.
    TooManyTables(u32),
    /// The file of this name couldn't be read.
    ReadFault(Txt),
    /// The output couldn't be written.
    WriteFault,
    /// Memory was refused.
    Memory,
}

impl From<Memory> for Refusal {
    ghost from_gives = { λ m r. r ≡ refusal.Memory };

    fn from(_memory: Memory) -> Refusal {
        Refusal::Memory
    }
}

const USAGE: &str =
    "usage: joinplan run CATALOG STATEMENT; explain [--verbose] CATALOG STATEMENT; check CATALOG; generate SEED SIZE\n";

impl Refusal {
    /// The program's exit status.
    pub fn status(&self) -> u8
        ensures { result ≡ status_of self.now }
    {
        match self {
            Refusal::Usage => 1,
            Refusal::Catalogue(_) => 2,
            Refusal::Data(_, _) => 3,
            Refusal::Statement(_, _) => 4,
            Refusal::FileTooLarge(_) => 5,
            Refusal::StatementTooLarge => 5,
            Refusal::TooDeep(_) => 5,
            Refusal::TooManyTables(_) => 5,
            Refusal::ReadFault(_) => 6,
            Refusal::WriteFault => 7,
            Refusal::Memory => 8,
        }
    }

    /// Writes the line to `err` and gives the status. It takes no memory, and a fault of `err` changes nothing else.
    pub fn report<E: Sink>(&self, err: &mut E) -> u8
        ensures status { result ≡ status_of self.now }
        ensures kept { E.faults err.old ≤ E.faults err.new }
        ensures line { TookLine (E.taken err.old) (E.taken err.new) (E.faults err.old) (E.faults err.new) (line_of self.now) }
    {
        let _ = self.write_line(err);
        self.status()
    }

    fn write_line<E: Sink>(&self, err: &mut E) -> Result<(), SinkError>
        ensures kept { E.faults err.old ≤ E.faults err.new }
        ensures line { TookLine (E.taken err.old) (E.taken err.new) (E.faults err.old) (E.faults err.new) (line_of self.now) }
    {
        match self {
            Refusal::Usage => write_pieces(err, &[USAGE]),
            Refusal::Catalogue(error) => write_catalogue_line(err, error),
            Refusal::Data(table, error) => write_data_line(err, table.as_str(), *error),
            Refusal::Statement(fault, at) => write_statement_line(err, *fault, *at),
            Refusal::FileTooLarge(name) => write_pieces(
                err,
                &["limit: file ", name.as_str(), " over 67108864 bytes\n"],
            ),
            Refusal::StatementTooLarge => {
                write_pieces(err, &["limit: statement over 65536 bytes\n"])
            }
            Refusal::TooDeep(at) => write_depth_line(err, *at),
            Refusal::TooManyTables(count) => write_tables_line(err, *count),
            Refusal::ReadFault(name) => {
                write_pieces(err, &["read fault: ", name.as_str(), "\n"])
            }
            Refusal::WriteFault => write_pieces(err, &["write fault\n"]),
            Refusal::Memory => write_pieces(err, &["out of memory\n"]),
        }
    }
}

fn write_statement_line<E: Sink>(
    err: &mut E,
    fault: StatementFault,
    at: u32,
) -> Result<(), SinkError>
    ensures kept { E.faults err.old ≤ E.faults err.new }
    ensures line { TookLine (E.taken err.old) (E.taken err.new) (E.faults err.old) (E.faults err.new) (statement_line (statement_fault fault) at) }
{
    let mut first = Buffer::new();
    let pieces = [
        "statement: ",
        fault_words(fault),
        " at byte ",
        first.format(at),
        "\n",
    ];
    write_pieces(err, &pieces)
}

fn write_depth_line<E: Sink>(err: &mut E, at: u32) -> Result<(), SinkError>
    ensures kept { E.faults err.old ≤ E.faults err.new }
    ensures line { TookLine (E.taken err.old) (E.taken err.new) (E.faults err.old) (E.faults err.new) (depth_line at) }
{
    let mut first = Buffer::new();
    let pieces = ["limit: nesting over 64 at byte ", first.format(at), "\n"];
    write_pieces(err, &pieces)
}

fn write_tables_line<E: Sink>(err: &mut E, count: u32) -> Result<(), SinkError>
    ensures kept { E.faults err.old ≤ E.faults err.new }
    ensures line { TookLine (E.taken err.old) (E.taken err.new) (E.faults err.old) (E.faults err.new) (tables_line count) }
{
    let mut first = Buffer::new();
    let pieces = [
        "limit: ",
        first.format(count),
        " table references, at most 12\n",
    ];
    write_pieces(err, &pieces)
}

/// What is wrong in a catalogue, before the path where it is.
fn catalogue_fault(error: &CatalogError) -> (&str, &str)
    ensures { result.0.now ++ result.1.now ≡ catalogue_fault error.now }
{
    match error {
        CatalogError::NotToml => ("not TOML", ""),
        CatalogError::Version => ("bad version", ""),
        CatalogError::Missing(path) => ("missing ", path.as_str()),
        CatalogError::BadType(path) => ("bad value at ", path.as_str()),
        CatalogError::UnknownKey(path) => ("unknown key ", path.as_str()),
        CatalogError::BadName(path) => ("bad name at ", path.as_str()),
        CatalogError::TooManyColumns(path) => ("too many columns at ", path.as_str()),
        CatalogError::DuplicateColumn(path) => ("column repeated at ", path.as_str()),
        CatalogError::KeyColumn(path) => ("bad key column at ", path.as_str()),
        CatalogError::RowsOutOfRange(path) => ("rows out of range at ", path.as_str()),
        CatalogError::Memory => ("out of memory", ""),
    }
}

fn write_catalogue_line<E: Sink>(err: &mut E, error: &CatalogError) -> Result<(), SinkError>
    ensures kept { E.faults err.old ≤ E.faults err.new }
    ensures line { TookLine (E.taken err.old) (E.taken err.new) (E.faults err.old) (E.faults err.new) (catalogue_line (catalogue_fault error.now)) }
{
    let (fault, path) = catalogue_fault(error);
    write_pieces(err, &["catalogue: ", fault, path, "\n"])
}

fn write_data_line<E: Sink>(err: &mut E, table: &str, error: TableError) -> Result<(), SinkError>
    ensures kept { E.faults err.old ≤ E.faults err.new }
    ensures line { TookLine (E.taken err.old) (E.taken err.new) (E.faults err.old) (E.faults err.new) (data_line table.now error) }
{
    match error {
        TableError::Header => write_data(err, table, "header differs"),
        TableError::FieldCount(at, fields) => { write_field_count(err, table, at, fields) }
        TableError::BadNumber(at, column) => {
            write_field(err, table, at, column, ": not a number")
        }
        TableError::BadBool(at, column) => write_field(err, table, at, column, ": not a boolean"),
        TableError::NotUtf8(at, column) => write_field(err, table, at, column, ": not UTF-8"),
        TableError::NullInKey(at) => write_null_in_key(err, table, at),
        TableError::KeyRepeated(earlier, at) => write_repeat(err, table, earlier, at),
        TableError::Memory => write_data(err, table, "out of memory"),
    }
}

fn write_data<E: Sink>(err: &mut E, table: &str, fault: &str) -> Result<(), SinkError>
    ensures kept { E.faults err.old ≤ E.faults err.new }
    ensures line { TookLine (E.taken err.old) (E.taken err.new) (E.faults err.old) (E.faults err.new) (data_line_start table.now ++ fault.now ++ codes "\n") }
{
    write_pieces(err, &["data: table ", table, ": ", fault, "\n"])
}

fn write_field_count<E: Sink>(
    err: &mut E,
    table: &str,
    at: u64,
    fields: u64,
) -> Result<(), SinkError>
    ensures kept { E.faults err.old ≤ E.faults err.new }
    ensures line { TookLine (E.taken err.old) (E.taken err.new) (E.faults err.old) (E.faults err.new) (data_line table.now (fault.FieldCount at fields)) }
{
    let mut first = Buffer::new();
    let mut second = Buffer::new();
    let pieces = [
        "data: table ",
        table,
        ": ",
        "record ",
        first.format(at),
        ": ",
        second.format(fields),
        " fields",
        "\n",
    ];
    write_pieces(err, &pieces)
}

fn write_field<E: Sink>(
    err: &mut E,
    table: &str,
    at: u64,
    column: u32,
    what: &str,
) -> Result<(), SinkError>
    ensures kept { E.faults err.old ≤ E.faults err.new }
    ensures line { TookLine (E.taken err.old) (E.taken err.new) (E.faults err.old) (E.faults err.new) (with_field (data_line_start table.now) at column ++ what.now ++ codes "\n") }
{
    let mut first = Buffer::new();
    let mut second = Buffer::new();
    let pieces = [
        "data: table ",
        table,
        ": ",
        "record ",
        first.format(at),
        " column ",
        second.format(column),
        what,
        "\n",
    ];
    write_pieces(err, &pieces)
}

fn write_null_in_key<E: Sink>(err: &mut E, table: &str, at: u64) -> Result<(), SinkError>
    ensures kept { E.faults err.old ≤ E.faults err.new }
    ensures line { TookLine (E.taken err.old) (E.taken err.new) (E.faults err.old) (E.faults err.new) (data_line table.now (fault.NullInKey at)) }
{
    let mut first = Buffer::new();
    let pieces = [
        "data: table ",
        table,
        ": ",
        "record ",
        first.format(at),
        ": NULL in a key",
        "\n",
    ];
    write_pieces(err, &pieces)
}

fn write_repeat<E: Sink>(err: &mut E, table: &str, earlier: u64, at: u64) -> Result<(), SinkError>
    ensures kept { E.faults err.old ≤ E.faults err.new }
    ensures line { TookLine (E.taken err.old) (E.taken err.new) (E.faults err.old) (E.faults err.new) (data_line table.now (fault.KeyRepeated earlier at)) }
{
    let mut first = Buffer::new();
    let mut second = Buffer::new();
    let pieces = [
        "data: table ",
        table,
        ": ",
        "records ",
        first.format(earlier),
        " and ",
        second.format(at),
        " repeat a key",
        "\n",
    ];
    write_pieces(err, &pieces)
}

/// The pieces in a row, up to the first that fails.
fn write_pieces<E: Sink>(err: &mut E, pieces: &[&str]) -> Result<(), SinkError>
    ensures kept { E.faults err.old ≤ E.faults err.new }
    ensures line { TookLine (E.taken err.old) (E.taken err.new) (E.faults err.old) (E.faults err.new) (bytes_of pieces.now) }
{
    for piece in pieces {
        write_all(err, piece.as_bytes())?;
    }
    Ok(())
}
