ghost use Rattle.std.specs.Prelude.{◌≡◌, ℤ, SomeIff, FitsSigned};
ghost use Rattle.std.specs.Int.{w128};
ghost use Rattle.jp_base.specs.Cells.{value_of_cell};
ghost use Rattle.jp_eval.specs.Arithmetic.{number_in_128, negated_in_128, plus_in_128, signed_in_128, product_or_beyond, times_nonzero, times_number, times_in_128, value_of_product};

use jp_base::Cell;

/// The product of the factors so far.
#[derive(Clone, Copy)]
pub enum Multiplied {
    /// One of them is NULL.
    Null,
    Number(i128),
    /// It passes 128 bits. A bounded expression has a factor 0 further on then.
    Beyond,
}

/// The result of arithmetic: NULL where 128 bits don't hold it.
fn cell_of_number(number: Option<i128>) -> Cell<'static>
    ensures { (n : ℤ) → SomeIff number (FitsSigned w128 n) n → value_of_cell result ≡ number_in_128 n }
{
    match number {
        Some(number) => Cell::Num(number),
        None => Cell::Null,
    }
}

/// The number with its sign turned.
pub fn negation(operand: Cell<'_>) -> Cell<'static>
    ensures { value_of_cell result ≡ negated_in_128 (value_of_cell operand.entry) }
{
    match operand {
        Cell::Num(number) => cell_of_number(number.checked_neg()),
        _ => Cell::Null,
    }
}

/// The sum of two numbers.
fn addition(left: Cell<'_>, right: Cell<'_>) -> Cell<'static>
    ensures { value_of_cell result ≡ plus_in_128 (value_of_cell left.entry) (value_of_cell right.entry) }
{
    match (left, right) {
        (Cell::Num(left), Cell::Num(right)) => cell_of_number(left.checked_add(right)),
        _ => Cell::Null,
    }
}

/// The sum so far and one more term, which may be subtracted.
pub fn with_term(sum: Cell<'static>, subtracted: bool, term: Cell<'_>) -> Cell<'static>
    ensures { value_of_cell result ≡ plus_in_128 (value_of_cell sum.entry) (signed_in_128 (subtracted, value_of_cell term.entry)) }
{
    if subtracted {
        addition(sum, negation(term))
    } else {
        addition(sum, term)
    }
}

/// The product so far and one more factor.
pub fn times(product: Multiplied, factor: Cell<'_>) -> Multiplied
    ensures { result ≡ times_in_128 product (value_of_cell factor.entry) }
{
    match factor {
        Cell::Num(factor) => times_number(product, factor),
        _ => Multiplied::Null,
    }
}

/// NULL goes before 0, and 0 before the multiplication: a factor 0 makes good what passed 128 bits.
fn times_number(product: Multiplied, factor: i128) -> Multiplied
    ensures { result ≡ times_number product factor }
{
    match product {
        Multiplied::Null => Multiplied::Null,
        _ if factor == 0 => Multiplied::Number(0),
        Multiplied::Number(product) => number_or_beyond(product.checked_mul(factor)),
        Multiplied::Beyond => Multiplied::Beyond,
    }
}

fn number_or_beyond(product: Option<i128>) -> Multiplied
    ensures { (n : ℤ) → SomeIff product (FitsSigned w128 n) n → result ≡ product_or_beyond n }
{
    match product {
        Some(product) => Multiplied::Number(product),
        None => Multiplied::Beyond,
    }
}

/// The value of a whole product.
pub fn cell_of_product(product: Multiplied) -> Cell<'static>
    ensures { value_of_cell result ≡ value_of_product product }
{
    match product {
        Multiplied::Number(number) => Cell::Num(number),
        Multiplied::Null | Multiplied::Beyond => Cell::Null,
    }
}
