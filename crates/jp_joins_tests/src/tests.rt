use crate::{Asked, joined};
use jp_problem::Method;
use jp_query::JoinKind;
use std::test::Fail;

type Rows = (Option<u64>, Option<u64>);

/// Equal keys on both sides, a NULL on both sides, and a left key without a match.
const LEFT: &[Option<u32>] = &[Some(7), Some(5), None, Some(5), Some(9)];

const RIGHT: &[Option<u32>] = &[Some(5), None, Some(5), Some(7)];

/// A tuple of both relations.
fn both(left: u64, right: u64) -> Rows {
    (Some(left), Some(right))
}

/// A left tuple, with no right row.
fn alone(left: u64) -> Rows {
    (Some(left), None)
}

fn asked(method: Method, kind: JoinKind) -> Asked {
    Asked {
        method,
        kind,
        sublink: false,
        filtered: false,
    }
}

fn is_given(
    rt: &HostRuntime,
    asked: Asked,
    left: &[Option<u32>],
    right: &[Option<u32>],
    expected: &[Rows],
) -> Result<bool, Fail> {
    let found = joined(rt.alloc(), asked, left, right)?;
    Ok(found.as_slice() == expected)
}

#[test]
fn matches_in_left_order(rt: HostRuntime) -> Result<(), Fail> {
    let inner = [both(0, 3), both(1, 0), both(1, 2), both(3, 0), both(3, 2)];
    assert!(rt;
        is_given(
            &rt,
            asked(Method::Nest, JoinKind::Inner),
            LEFT,
            RIGHT,
            &inner
        )?
    );
    assert!(rt;
        is_given(
            &rt,
            asked(Method::Hash, JoinKind::Inner),
            LEFT,
            RIGHT,
            &inner
        )?
    );
    Ok(())
}

#[test]
fn left_tuples_without_a_match_in_left_order(rt: HostRuntime) -> Result<(), Fail> {
    let left = [
        both(0, 3),
        both(1, 0),
        both(1, 2),
        alone(2),
        both(3, 0),
        both(3, 2),
        alone(4),
    ];
    assert!(rt; is_given(&rt, asked(Method::Nest, JoinKind::Left), LEFT, RIGHT, &left)?);
    assert!(rt; is_given(&rt, asked(Method::Hash, JoinKind::Left), LEFT, RIGHT, &left)?);
    Ok(())
}

#[test]
fn semi_and_anti_joins_give_left_tuples_once(rt: HostRuntime) -> Result<(), Fail> {
    let semi = [alone(0), alone(1), alone(3)];
    assert!(rt; is_given(&rt, asked(Method::Nest, JoinKind::Semi), LEFT, RIGHT, &semi)?);
    assert!(rt; is_given(&rt, asked(Method::Hash, JoinKind::Semi), LEFT, RIGHT, &semi)?);
    let anti = [alone(2), alone(4)];
    assert!(rt; is_given(&rt, asked(Method::Nest, JoinKind::Anti), LEFT, RIGHT, &anti)?);
    assert!(rt; is_given(&rt, asked(Method::Hash, JoinKind::Anti), LEFT, RIGHT, &anti)?);
    Ok(())
}

#[test]
fn a_merge_gives_key_order(rt: HostRuntime) -> Result<(), Fail> {
    let inner = [both(1, 0), both(1, 2), both(3, 0), both(3, 2), both(0, 3)];
    assert!(rt;
        is_given(
            &rt,
            asked(Method::Merge, JoinKind::Inner),
            LEFT,
            RIGHT,
            &inner
        )?
    );
    let left = [
        both(1, 0),
        both(1, 2),
        both(3, 0),
        both(3, 2),
        both(0, 3),
        alone(4),
        alone(2),
    ];
    assert!(rt;
        is_given(
            &rt,
            asked(Method::Merge, JoinKind::Left),
            LEFT,
            RIGHT,
            &left
        )?
    );
    let semi = [alone(1), alone(3), alone(0)];
    assert!(rt;
        is_given(
            &rt,
            asked(Method::Merge, JoinKind::Semi),
            LEFT,
            RIGHT,
            &semi
        )?
    );
    let anti = [alone(4), alone(2)];
    assert!(rt;
        is_given(
            &rt,
            asked(Method::Merge, JoinKind::Anti),
            LEFT,
            RIGHT,
            &anti
        )?
    );
    Ok(())
}

#[test]
fn hash_right_gives_right_order(rt: HostRuntime) -> Result<(), Fail> {
    let left = [
        both(1, 0),
        both(3, 0),
        both(1, 2),
        both(3, 2),
        both(0, 3),
        alone(2),
        alone(4),
    ];
    assert!(rt;
        is_given(
            &rt,
            asked(Method::HashRight, JoinKind::Left),
            LEFT,
            RIGHT,
            &left
        )?
    );
    Ok(())
}

#[test]
fn an_empty_side(rt: HostRuntime) -> Result<(), Fail> {
    let left = [alone(0), alone(1), alone(2), alone(3), alone(4)];
    assert!(rt; is_given(&rt, asked(Method::Nest, JoinKind::Left), LEFT, &[], &left)?);
    assert!(rt; is_given(&rt, asked(Method::Hash, JoinKind::Anti), LEFT, &[], &left)?);
    assert!(rt;
        is_given(
            &rt,
            asked(Method::HashRight, JoinKind::Left),
            LEFT,
            &[],
            &left
        )?
    );
    assert!(rt; is_given(&rt, asked(Method::Merge, JoinKind::Inner), LEFT, &[], &[])?);
    assert!(rt;
        is_given(
            &rt,
            asked(Method::HashRight, JoinKind::Left),
            &[],
            RIGHT,
            &[]
        )?
    );
    assert!(rt; is_given(&rt, asked(Method::Merge, JoinKind::Left), &[], RIGHT, &[])?);
    Ok(())
}

/// The filter sees the side that has no row. It has no say in which left tuples have a match.
#[test]
fn a_filter_on_the_side_without_a_row(rt: HostRuntime) -> Result<(), Fail> {
    let filtered = |method: Method, kind: JoinKind| Asked {
        method,
        kind,
        sublink: false,
        filtered: true,
    };
    let rest = [alone(2), alone(4)];
    assert!(rt;
        is_given(
            &rt,
            filtered(Method::Nest, JoinKind::Left),
            LEFT,
            RIGHT,
            &rest
        )?
    );
    assert!(rt;
        is_given(
            &rt,
            filtered(Method::Hash, JoinKind::Left),
            LEFT,
            RIGHT,
            &rest
        )?
    );
    assert!(rt;
        is_given(
            &rt,
            filtered(Method::HashRight, JoinKind::Left),
            LEFT,
            RIGHT,
            &rest
        )?
    );
    assert!(rt;
        is_given(
            &rt,
            filtered(Method::Merge, JoinKind::Left),
            LEFT,
            RIGHT,
            &[alone(4), alone(2)]
        )?
    );
    Ok(())
}

/// The sublink has a row at a pair of equal row numbers: it is asked at the pair, and candidates of equal keys fail by it.
#[test]
fn a_sublink_in_the_on_list(rt: HostRuntime) -> Result<(), Fail> {
    let with_sublink = |method: Method, kind: JoinKind| Asked {
        method,
        kind,
        sublink: true,
        filtered: false,
    };
    let left = [Some(5), Some(5), None, Some(8)];
    let right = [Some(5), Some(6), None, Some(8)];
    assert!(rt;
        is_given(
            &rt,
            with_sublink(Method::Nest, JoinKind::Inner),
            &left,
            &right,
            &[both(0, 0), both(3, 3)]
        )?
    );
    assert!(rt;
        is_given(
            &rt,
            with_sublink(Method::Hash, JoinKind::Left),
            &left,
            &right,
            &[both(0, 0), alone(1), alone(2), both(3, 3)]
        )?
    );
    assert!(rt;
        is_given(
            &rt,
            with_sublink(Method::HashRight, JoinKind::Left),
            &left,
            &right,
            &[both(0, 0), both(3, 3), alone(1), alone(2)]
        )?
    );
    assert!(rt;
        is_given(
            &rt,
            with_sublink(Method::Merge, JoinKind::Anti),
            &left,
            &right,
            &[alone(1), alone(2)]
        )?
    );
    Ok(())
}
