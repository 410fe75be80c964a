ghost use Rattle.std.specs.Prelude.{◌≡◌, ◌≤◌, ◌^◌, ◌*◌};
ghost use Rattle.jp_cost.specs.Costs.{cost, hashed};
ghost use Rattle.jp_cost.specs.Digits.{bits};

use jp_problem::Method;

/// What a step costs by its method, where its left side is estimated at `left` rows and its right side at `right`.
pub fn step_cost(method: Method, left: u64, right: u64) -> u128
    requires left { left ≤ 2 ^ 60 }
    requires right { right ≤ 2 ^ 60 }
    ensures { result ≡ cost method left right }
{
    match method {
        Method::Nest => left as u128 * right as u128,
        Method::Hash => hashed(right, left),
        Method::HashRight => hashed(left, right),
        Method::Merge => sorted(left) + sorted(right) + left as u128 + right as u128,
    }
}

/// The rows of one side in a hash table, which those of the other side look up.
fn hashed(rows: u64, others: u64) -> u128
    requires rows { rows ≤ 2 ^ 60 }
    requires others { others ≤ 2 ^ 60 }
    ensures { result ≡ hashed rows others }
{
    let parts = 1 + rows / 65536;
    others as u128 + 4 * rows as u128 * parts as u128
}

/// Each row as often as their number has binary digits.
fn sorted(rows: u64) -> u128
    requires { rows ≤ 2 ^ 60 }
    ensures is { result ≡ rows * bits rows }
    ensures fits { result ≤ 2 ^ 67 }
{
    let digits = 64 - rows.leading_zeros();
    rows as u128 * digits as u128
}
