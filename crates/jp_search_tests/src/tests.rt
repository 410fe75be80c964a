ghost use Rattle.std.specs.Prelude.{◌≤◌, length, All};
ghost use Rattle.jp_search_tests.specs.Plain.{HasRows, IsLink};

use crate::{chain_problem, plain_problem, shape_of};
use jp_base::{Memory, RelNo};
use std::alloc::Global;
use std::test::Fail;

fn plain(alloc: Global, rows: &[u64], links: &[(RelNo, RelNo)]) -> Result<String, Memory>
    requires some { 1 ≤ length rows.now }
    requires few { length rows.now ≤ 16 }
    requires rows { All HasRows rows.now }
    requires links { All IsLink links.now }
{
    let problem = plain_problem(alloc, rows, links)?;
    shape_of(alloc, &problem)
}

fn chain(alloc: Global, rows: &[u64]) -> Result<String, Memory>
    requires some { 1 ≤ length rows.now }
    requires few { length rows.now ≤ 16 }
    requires rows { All HasRows rows.now }
{
    let problem = chain_problem(alloc, rows)?;
    shape_of(alloc, &problem)
}

#[test]
fn one_item_is_scanned(rt: HostRuntime) -> Result<(), Fail> {
    let shape = plain(rt.alloc(), &[7], &[])?;
    assert_eq!(rt; shape.as_str(), "0");
    Ok(())
}

/// Both trees cost 21.
#[test]
fn of_two_orders_that_tie_the_lesser_left_set_is_first(rt: HostRuntime) -> Result<(), Fail> {
    let shape = plain(rt.alloc(), &[7, 3], &[])?;
    assert_eq!(rt; shape.as_str(), "(0 1)");
    Ok(())
}

/// All twelve trees cost 1,100; the first has a step on its right side.
#[test]
fn of_three_items_that_tie_the_least_left_set_is_first(rt: HostRuntime) -> Result<(), Fail> {
    let shape = plain(rt.alloc(), &[10, 10, 10], &[])?;
    assert_eq!(rt; shape.as_str(), "(0 (1 2))");
    Ok(())
}

/// The least step joins two items of 3 and 10 rows, against 300 and 1,000 rows.
#[test]
fn the_least_step_goes_first(rt: HostRuntime) -> Result<(), Fail> {
    let shape = plain(rt.alloc(), &[100, 10, 3], &[])?;
    assert_eq!(rt; shape.as_str(), "(0 (1 2))");
    let shape = plain(rt.alloc(), &[3, 10, 100], &[])?;
    assert_eq!(rt; shape.as_str(), "((0 1) 2)");
    let shape = plain(rt.alloc(), &[3, 100, 10], &[])?;
    assert_eq!(rt; shape.as_str(), "(1 (0 2))");
    Ok(())
}

/// Without a condition all orders try pairs, and the step of the second and the third item is the least. With one the first
/// item has a key with the second: the three cost 10 * 20 and 200 + 4 * 100 by Hash, and 140 and 100 * 20 where they go first.
#[test]
fn a_condition_makes_a_step_go_last(rt: HostRuntime) -> Result<(), Fail> {
    let shape = plain(rt.alloc(), &[100, 10, 20], &[])?;
    assert_eq!(rt; shape.as_str(), "(0 (1 2))");
    let shape = plain(rt.alloc(), &[100, 10, 20], &[(0, 1)])?;
    assert_eq!(rt; shape.as_str(), "((1 2) hash 0)");
    Ok(())
}

/// 5 rows against 5 cost 25 by Nest and by Hash. 6 against 5 cost 30 by Nest, 6 + 4 * 5 by Hash, 5 + 4 * 6 the other way.
#[test]
fn of_methods_that_tie_the_earlier_is_taken(rt: HostRuntime) -> Result<(), Fail> {
    let shape = plain(rt.alloc(), &[5, 5], &[(0, 1)])?;
    assert_eq!(rt; shape.as_str(), "(0 1)");
    let shape = plain(rt.alloc(), &[6, 5], &[(0, 1)])?;
    assert_eq!(rt; shape.as_str(), "(0 hash 1)");
    let shape = plain(rt.alloc(), &[5, 6], &[(0, 1)])?;
    assert_eq!(rt; shape.as_str(), "(1 hash 0)");
    Ok(())
}

/// A million rows against a million cost 42,000,000 by Merge, 65,000,000 by Hash.
#[test]
fn large_sides_with_a_key_are_merged(rt: HostRuntime) -> Result<(), Fail> {
    let shape = plain(rt.alloc(), &[1000000, 1000000], &[(0, 1)])?;
    assert_eq!(rt; shape.as_str(), "(0 merge 1)");
    let shape = plain(rt.alloc(), &[1000000, 1000000], &[])?;
    assert_eq!(rt; shape.as_str(), "(0 1)");
    Ok(())
}

/// The step of the first and the third item is the least, but in a chain of left joins it isn't legal.
#[test]
fn a_left_join_is_done_with_both_its_sides(rt: HostRuntime) -> Result<(), Fail> {
    let shape = plain(rt.alloc(), &[3, 100, 2], &[])?;
    assert_eq!(rt; shape.as_str(), "(1 (0 2))");
    let shape = chain(rt.alloc(), &[3, 100, 2])?;
    assert_eq!(rt; shape.as_str(), "(0 (1 2))");
    Ok(())
}
