ghost use Rattle.std.specs.Prelude.{◌≡◌, ◌∷◌, [], true, false, IfOk};
ghost use Rattle.csv.specs.Reading.{default_config, records, strip_bom};
ghost use Rattle.csv.specs.Records.{fields_of};

use csv::{ByteRecord, Reader, ReaderBuilder};
use jp_base::Memory;
use std::alloc::Global;
use std::marker::Model;

/// The records of a file's bytes, one at a time. Contracts see those that are left, each as the list of its fields.
#[derive(Drop)]
pub(crate) struct Records<'a> {
    reader: Reader<&'a [u8]>,
    done: bool,
}

impl<'a> Model for Records<'a> {
    ghost use Rattle.std.specs.Prelude.{◌≡◌, List, ℕ, Some, false};
    ghost use Rattle.csv.specs.Reading.{reader_state, source_of};
    ghost use Rattle.jp_table.specs.Records.{records_until};
    ghost use Rattle.jp_table.specs.Readers.{IsBetween};

    ghost Value = { List (List (List ℕ)) };

    ghost view = { λ r. records_until r.done (reader_state r.reader) (source_of (λ s. Some s.now) r.reader) };

    ghost invariant = { λ r. r.done ≡ false → IsBetween r.reader };
}

impl<'a> Records<'a> {
    /// All records of the bytes, the header among them.
    pub(crate) fn new(alloc: Global, bytes: &'a [u8]) -> Records<'a>
        ensures { result ≡ records default_config (strip_bom bytes.now) }
    {
        let reader = ReaderBuilder::new()
            .has_headers(false)
            .flexible(true)
            .from_reader(alloc, bytes);
        Records {
            reader,
            done: false,
        }
    }

    /// Reads the next record into `fields`, and says whether there was one. After an error there is none.
    pub(crate) fn read(&mut self, fields: &mut ByteRecord) -> Result<bool, Memory>
        ensures more { IfOk result (λ found. found ≡ true → self.old ≡ fields_of fields.new ∷ self.new) }
        ensures end { IfOk result (λ found. found ≡ false → self.old ≡ []) }
    {
        if self.done {
            return Ok(false);
        }
        match self.reader.read_byte_record(fields) {
            Ok(true) => Ok(true),
            Ok(false) => {
                self.done = true;
                Ok(false)
            }
            Err(_) => {
                self.done = true;
                Err(Memory)
            }
        }
    }
}
