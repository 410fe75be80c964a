ghost use Rattle.std.specs.Prelude.{◌≡◌, ◌++◌, OnOk, string_bytes};
ghost use Rattle.std.specs.List.{flat_map};
ghost use Rattle.std.specs.Str.{chars};
ghost use Rattle.jp_explain.specs.Values.{comparison, in_quotes, quoted, sign, test_words, value_text};

use crate::pieces::push;
use itoa::Buffer;
use jp_base::{Memory, Value};
use jp_query::{CmpOp, IsTest};

/// Puts a literal at the end.
pub fn push_value(value: &Value, text: &mut String) -> Result<(), Memory>
    ensures { OnOk result (string_bytes text.new ≡ string_bytes text.old ++ value_text value.now) }
{
    match value {
        Value::Null => push("NULL", text),
        Value::Num(number) => {
            let mut buffer = Buffer::new();
            push(buffer.format(*number), text)
        }
        Value::Bool(true) => push("TRUE", text),
        Value::Bool(false) => push("FALSE", text),
        Value::Text(literal) => push_quoted(literal.as_str(), text),
    }
}

/// Puts a text in quotes at the end.
fn push_quoted(literal: &str, text: &mut String) -> Result<(), Memory>
    ensures { OnOk result (string_bytes text.new ≡ string_bytes text.old ++ quoted literal.now) }
{
    push("'", text)?;
    push_characters(literal, text)?;
    push("'", text)?;
    Ok(())
}

fn push_characters(literal: &str, text: &mut String) -> Result<(), Memory>
    ensures { OnOk result (string_bytes text.new ≡ string_bytes text.old ++ flat_map in_quotes (chars literal.now)) }
{
    'characters: for character in literal.chars() {
        push_character(character, text)?;
    }
    Ok(())
}

/// Puts a character at the end, a quote twice.
fn push_character(character: char, text: &mut String) -> Result<(), Memory>
    ensures { OnOk result (string_bytes text.new ≡ string_bytes text.old ++ in_quotes character) }
{
    if character == '\'' {
        text.push_str("''")?;
    } else {
        text.push(character)?;
    }
    Ok(())
}

/// A comparison's operator, between spaces.
pub fn comparison(op: CmpOp) -> &'static str
    ensures { result.now ≡ comparison op }
{
    match op {
        CmpOp::Eq => " = ",
        CmpOp::Ne => " <> ",
        CmpOp::Lt => " < ",
        CmpOp::Le => " <= ",
        CmpOp::Gt => " > ",
        CmpOp::Ge => " >= ",
    }
}

/// The words of a test, behind a space.
pub fn test_words(test: IsTest) -> &'static str
    ensures { result.now ≡ test_words test }
{
    match test {
        IsTest::Null => " IS NULL",
        IsTest::NotNull => " IS NOT NULL",
        IsTest::True => " IS TRUE",
        IsTest::NotTrue => " IS NOT TRUE",
        IsTest::False => " IS FALSE",
        IsTest::NotFalse => " IS NOT FALSE",
        IsTest::Unknown => " IS UNKNOWN",
        IsTest::NotUnknown => " IS NOT UNKNOWN",
    }
}

/// What stands before a term of a sum.
pub fn sign(first: bool, subtracted: bool) -> &'static str
    ensures { result.now ≡ sign first subtracted }
{
    match (first, subtracted) {
        (true, false) => "",
        (true, true) => "-",
        (false, false) => " + ",
        (false, true) => " - ",
    }
}
