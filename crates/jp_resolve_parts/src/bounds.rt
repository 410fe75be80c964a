ghost use Rattle.std.specs.Prelude.{◌≡◌, min, map, sum};
ghost use Rattle.jp_query.specs.Conditions.{fits};
ghost use Rattle.jp_query.specs.Parts.{term_part};
ghost use Rattle.jp_query.specs.Scopes.{greatest, product};
ghost use Rattle.jp_resolution.specs.Types.{bound_in};
ghost use Rattle.jp_resolve_parts.specs.Bounds.{end};

use jp_resolution::TypedExpr;

/// The greatest magnitude that a number may have, 2^127-1.
const GREATEST: u128 = 170141183460469231731687303715884105727;

/// Whether numbers of this magnitude are in range.
pub fn fits(bound: u128) -> bool
    ensures { result ≡ fits bound }
{
    bound <= GREATEST
}

/// The sum of the terms' bounds, or 2^128-1 where it is greater.
pub fn sum_of_bounds(terms: &[(bool, TypedExpr)]) -> u128
    ensures { result ≡ min (sum (map bound_in (map term_part terms.now))) end }
{
    let mut total: u128 = 0;
    'terms: for term in terms {
        total = total.saturating_add(term.1.bound);
    }
    total
}

/// The product of the factors' bounds, or 2^128-1 where it is greater.
pub fn product_of_bounds(factors: &[TypedExpr]) -> u128
    ensures { result ≡ min (product (map bound_in factors.now)) end }
{
    let mut total: u128 = 1;
    'factors: for factor in factors {
        total = total.saturating_mul(factor.bound);
    }
    total
}

/// The greatest of the operands' bounds.
pub fn greatest_bound(operands: &[TypedExpr]) -> u128
    ensures { result ≡ greatest (map bound_in operands.now) }
{
    let mut most: u128 = 0;
    'operands: for operand in operands {
        most = most.max(operand.bound);
    }
    most
}
