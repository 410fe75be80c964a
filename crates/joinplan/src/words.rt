ghost use Rattle.std.specs.Prelude.{◌≡◌, map, option_map, string_bytes};
ghost use Rattle.joinplan.specs.Words.{command_of};
ghost use Rattle.joinplan.specs.Views.{command_view};

/// The commands that are built, with the names of files that their words give.
#[derive(Clone, Copy)]
pub enum Command<'a> {
    /// `run CATALOG STATEMENT`
    Run {
        catalogue: &'a str,
        statement: &'a str,
    },
    /// `explain CATALOG STATEMENT`
    Explain {
        catalogue: &'a str,
        statement: &'a str,
    },
    /// `check CATALOG`
    Check {
        catalogue: &'a str,
    },
}

/// The command of the words after the program's name; None where they have no form that is built.
pub fn command_of(words: &[String]) -> Option<Command<'_>>
    ensures { option_map command_view result ≡ command_of (map string_bytes words.now) }
{
    match words {
        [verb, catalogue, statement] if verb.as_str() == "run" => Some(Command::Run {
            catalogue: catalogue.as_str(),
            statement: statement.as_str(),
        }),
        [verb, catalogue, statement] if verb.as_str() == "explain" => Some(Command::Explain {
            catalogue: catalogue.as_str(),
            statement: statement.as_str(),
        }),
        [verb, catalogue] if verb.as_str() == "check" => Some(Command::Check {
            catalogue: catalogue.as_str(),
        }),
        _ => None,
    }
}
