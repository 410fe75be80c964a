ghost use Rattle.std.specs.Prelude.{◌≡◌};
ghost use Rattle.jp_base.specs.Truth.{and_of, or_of, not_of, truth_of_bool};

/// What a condition says of a row: SQL's three truth values. Unknown is what a NULL operand leaves.
#[derive(Clone, Copy, Debug, PartialEq, Eq)]
pub enum Truth {
    True,
    False,
    Unknown,
}

impl Truth {
    /// True or False, of a test that no NULL touches.
    pub fn of(test: bool) -> Truth
        ensures { result ≡ truth_of_bool test }
    {
        if test { Truth::True } else { Truth::False }
    }

    /// SQL's AND: False where one side is False, else Unknown where one is Unknown.
    pub fn and(self, other: Truth) -> Truth
        ensures { result ≡ and_of self other }
    {
        match (self, other) {
            (Truth::False, _) | (_, Truth::False) => Truth::False,
            (Truth::True, Truth::True) => Truth::True,
            _ => Truth::Unknown,
        }
    }

    /// SQL's OR: True where one side is True, else Unknown where one is Unknown.
    pub fn or(self, other: Truth) -> Truth
        ensures { result ≡ or_of self other }
    {
        match (self, other) {
            (Truth::True, _) | (_, Truth::True) => Truth::True,
            (Truth::False, Truth::False) => Truth::False,
            _ => Truth::Unknown,
        }
    }

    /// SQL's NOT: Unknown stays Unknown.
    pub fn not(self) -> Truth
        ensures { result ≡ not_of self }
    {
        match self {
            Truth::True => Truth::False,
            Truth::False => Truth::True,
            Truth::Unknown => Truth::Unknown,
        }
    }
}
