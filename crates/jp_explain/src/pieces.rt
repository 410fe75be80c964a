ghost use Rattle.std.specs.Prelude.{◌≡◌, ◌++◌, OnOk, decimal, string_bytes};
ghost use Rattle.jp_explain.specs.Lists.{gap};

use itoa::Buffer;
use jp_base::Memory;

/// Puts a piece at the end of a text.
pub fn push(piece: &str, text: &mut String) -> Result<(), Memory>
    ensures { OnOk result (string_bytes text.new ≡ string_bytes text.old ++ piece.now) }
{
    text.push_str(piece)?;
    Ok(())
}

/// Puts a number at the end, in decimal digits.
pub fn push_number(number: u128, text: &mut String) -> Result<(), Memory>
    ensures { OnOk result (string_bytes text.new ≡ string_bytes text.old ++ decimal number) }
{
    let mut buffer = Buffer::new();
    push(buffer.format(number), text)?;
    Ok(())
}

/// What stands before a text: nothing before the first one, else the mark.
pub fn gap(first: bool, mark: &str) -> &str
    ensures { result.now ≡ gap first mark.now }
{
    if first { "" } else { mark }
}
