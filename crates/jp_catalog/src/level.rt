ghost use Rattle.std.specs.Prelude.{◌≡◌};
ghost use Rattle.jp_catalog.specs.Levels.{has_key};

/// The three kinds of tables in a catalogue's text.
#[derive(Clone, Copy)]
pub(crate) enum Level {
    /// The whole text.
    Top,
    /// A table of `tables`.
    Table,
    /// An entry of `columns`.
    Column,
}

impl Level {
    /// Whether the format has the key there.
    pub(crate) fn has_key(self, key: &str) -> bool
        ensures { result ≡ has_key self key.now }
    {
        match self {
            Level::Top => key == "version" || key == "tables",
            Level::Table => {
                key == "file"
                    || key == "rows"
                    || key == "columns"
                    || key == "primary_key"
                    || key == "unique"
            }
            Level::Column => key == "name" || key == "type",
        }
    }
}
