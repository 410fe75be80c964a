use crate::compare::check;
use crate::table::{Cond, Facts, Known, Op, Term};
use jp_query::JoinKind;
use std::test::Fail;

/// (a Inner b ON a.x = b.x) Left c ON nothing
#[test]
fn tree_1(rt: HostRuntime) -> Result<(), Fail> {
    check(&rt, rt.alloc(), &TREE_1)
}

const TREE_1: Facts = Facts {
    tree: &[
        Op::Leaf(0),
        Op::Leaf(1),
        Op::Join(JoinKind::Inner, &[Cond::Eq(Term::X(0), Term::X(1))]),
        Op::Leaf(2),
        Op::Join(JoinKind::Left, &[]),
    ],
    conds: &[],
    place: "",
    items: "abc",
    joins: &[Known {
        kind: JoinKind::Left,
        sides: ("ab", "c"),
        sets: ("ab", "c"),
        region: 0,
        members: 0,
    }],
    clauses: &[(Cond::Eq(Term::X(0), Term::X(1)), 0, "ab")],
    scans: &[],
    spine: &[
        ("a", "b", &[Cond::Eq(Term::X(0), Term::X(1))]),
        ("ab", "c", &[]),
    ],
    joinable: &["a", "b", "c", "ab", "abc"],
    steps: &[("a", "b", 0), ("b", "a", 0), ("ab", "c", 1)],
    whole: true,
};

/// (a Left b ON a.x = b.x) Left c ON COALESCE(b.x, 0) = c.x; b.x = c.x
#[test]
fn tree_2(rt: HostRuntime) -> Result<(), Fail> {
    check(&rt, rt.alloc(), &TREE_2)
}

const TREE_2: Facts = Facts {
    tree: &[
        Op::Leaf(0),
        Op::Leaf(1),
        Op::Join(JoinKind::Left, &[Cond::Eq(Term::X(0), Term::X(1))]),
        Op::Leaf(2),
        Op::Join(
            JoinKind::Left,
            &[
                Cond::Eq(Term::XOrZero(1), Term::X(2)),
                Cond::Eq(Term::X(1), Term::X(2)),
            ],
        ),
    ],
    conds: &[],
    place: "",
    items: "abc",
    joins: &[
        Known {
            kind: JoinKind::Left,
            sides: ("a", "b"),
            sets: ("a", "b"),
            region: 0,
            members: 1,
        },
        Known {
            kind: JoinKind::Left,
            sides: ("ab", "c"),
            sets: ("b", "c"),
            region: 0,
            members: 2,
        },
    ],
    clauses: &[],
    scans: &[],
    spine: &[("a", "b", &[]), ("ab", "c", &[])],
    joinable: &["a", "b", "c", "ab", "bc", "abc"],
    steps: &[("a", "b", 1), ("a", "bc", 1), ("b", "c", 2), ("ab", "c", 2)],
    whole: true,
};

/// (a Left b ON a.x = b.x) Left c ON COALESCE(b.x, 0) = c.x
#[test]
fn tree_3(rt: HostRuntime) -> Result<(), Fail> {
    check(&rt, rt.alloc(), &TREE_3)
}

const TREE_3: Facts = Facts {
    tree: &[
        Op::Leaf(0),
        Op::Leaf(1),
        Op::Join(JoinKind::Left, &[Cond::Eq(Term::X(0), Term::X(1))]),
        Op::Leaf(2),
        Op::Join(JoinKind::Left, &[Cond::Eq(Term::XOrZero(1), Term::X(2))]),
    ],
    conds: &[],
    place: "",
    items: "abc",
    joins: &[
        Known {
            kind: JoinKind::Left,
            sides: ("a", "b"),
            sets: ("a", "b"),
            region: 0,
            members: 1,
        },
        Known {
            kind: JoinKind::Left,
            sides: ("ab", "c"),
            sets: ("ab", "c"),
            region: 0,
            members: 1,
        },
    ],
    clauses: &[],
    scans: &[],
    spine: &[("a", "b", &[]), ("ab", "c", &[])],
    joinable: &["a", "b", "c", "ab", "abc"],
    steps: &[("a", "b", 1), ("ab", "c", 2)],
    whole: true,
};

/// (a Left b ON a.x = b.x) Anti c ON b.x = c.x
#[test]
fn tree_4(rt: HostRuntime) -> Result<(), Fail> {
    check(&rt, rt.alloc(), &TREE_4)
}

const TREE_4: Facts = Facts {
    tree: &[
        Op::Leaf(0),
        Op::Leaf(1),
        Op::Join(JoinKind::Left, &[Cond::Eq(Term::X(0), Term::X(1))]),
        Op::Leaf(2),
        Op::Join(JoinKind::Anti, &[Cond::Eq(Term::X(1), Term::X(2))]),
    ],
    conds: &[],
    place: "",
    items: "abc",
    joins: &[
        Known {
            kind: JoinKind::Left,
            sides: ("a", "b"),
            sets: ("a", "b"),
            region: 0,
            members: 1,
        },
        Known {
            kind: JoinKind::Anti,
            sides: ("ab", "c"),
            sets: ("ab", "c"),
            region: 0,
            members: 1,
        },
    ],
    clauses: &[],
    scans: &[],
    spine: &[("a", "b", &[]), ("ab", "c", &[])],
    joinable: &["a", "b", "c", "ab", "abc"],
    steps: &[("a", "b", 1), ("ab", "c", 2)],
    whole: true,
};

/// (a Left (b Left c ON b.x = c.x) ON a.x = b.x) Left d ON COALESCE(b.x, c.x) = d.x
#[test]
fn tree_5(rt: HostRuntime) -> Result<(), Fail> {
    check(&rt, rt.alloc(), &TREE_5)
}

const TREE_5: Facts = Facts {
    tree: &[
        Op::Leaf(0),
        Op::Leaf(1),
        Op::Leaf(2),
        Op::Join(JoinKind::Left, &[Cond::Eq(Term::X(1), Term::X(2))]),
        Op::Join(JoinKind::Left, &[Cond::Eq(Term::X(0), Term::X(1))]),
        Op::Leaf(3),
        Op::Join(JoinKind::Left, &[Cond::Eq(Term::XOrX(1, 2), Term::X(3))]),
    ],
    conds: &[],
    place: "",
    items: "abcd",
    joins: &[
        Known {
            kind: JoinKind::Left,
            sides: ("b", "c"),
            sets: ("b", "c"),
            region: 2,
            members: 1,
        },
        Known {
            kind: JoinKind::Left,
            sides: ("a", "bc"),
            sets: ("a", "b"),
            region: 0,
            members: 1,
        },
        Known {
            kind: JoinKind::Left,
            sides: ("abc", "d"),
            sets: ("abc", "d"),
            region: 0,
            members: 1,
        },
    ],
    clauses: &[],
    scans: &[],
    spine: &[("b", "c", &[]), ("a", "bc", &[]), ("abc", "d", &[])],
    joinable: &["a", "b", "c", "d", "ab", "bc", "abc", "abcd"],
    steps: &[],
    whole: false,
};

/// (a Left (b Inner c ON b.x = c.x) ON a.x = b.x) Left d ON COALESCE(b.x, c.x) = d.x
#[test]
fn tree_6(rt: HostRuntime) -> Result<(), Fail> {
    check(&rt, rt.alloc(), &TREE_6)
}

const TREE_6: Facts = Facts {
    tree: &[
        Op::Leaf(0),
        Op::Leaf(1),
        Op::Leaf(2),
        Op::Join(JoinKind::Inner, &[Cond::Eq(Term::X(1), Term::X(2))]),
        Op::Join(JoinKind::Left, &[Cond::Eq(Term::X(0), Term::X(1))]),
        Op::Leaf(3),
        Op::Join(JoinKind::Left, &[Cond::Eq(Term::XOrX(1, 2), Term::X(3))]),
    ],
    conds: &[],
    place: "",
    items: "abcd",
    joins: &[
        Known {
            kind: JoinKind::Left,
            sides: ("a", "bc"),
            sets: ("a", "bc"),
            region: 0,
            members: 1,
        },
        Known {
            kind: JoinKind::Left,
            sides: ("abc", "d"),
            sets: ("bc", "d"),
            region: 0,
            members: 1,
        },
    ],
    clauses: &[(Cond::Eq(Term::X(1), Term::X(2)), 1, "bc")],
    scans: &[],
    spine: &[
        ("b", "c", &[Cond::Eq(Term::X(1), Term::X(2))]),
        ("a", "bc", &[]),
        ("abc", "d", &[]),
    ],
    joinable: &["a", "b", "c", "d", "bc", "abc", "bcd", "abcd"],
    steps: &[("bc", "d", 2), ("a", "bcd", 1)],
    whole: false,
};

/// (a Left b ON a.x = b.x) Left c ON COALESCE(b.x, 0) = c.x; NULL IN (c.x)
#[test]
fn tree_7(rt: HostRuntime) -> Result<(), Fail> {
    check(&rt, rt.alloc(), &TREE_7)
}

const TREE_7: Facts = Facts {
    tree: &[
        Op::Leaf(0),
        Op::Leaf(1),
        Op::Join(JoinKind::Left, &[Cond::Eq(Term::X(0), Term::X(1))]),
        Op::Leaf(2),
        Op::Join(
            JoinKind::Left,
            &[
                Cond::Eq(Term::XOrZero(1), Term::X(2)),
                Cond::NullIn(Term::X(2)),
            ],
        ),
    ],
    conds: &[],
    place: "",
    items: "abc",
    joins: &[
        Known {
            kind: JoinKind::Left,
            sides: ("a", "b"),
            sets: ("a", "b"),
            region: 0,
            members: 1,
        },
        Known {
            kind: JoinKind::Left,
            sides: ("ab", "c"),
            sets: ("ab", "c"),
            region: 0,
            members: 1,
        },
    ],
    clauses: &[(Cond::NullIn(Term::X(2)), 2, "c")],
    scans: &[(2, &[Cond::NullIn(Term::X(2))])],
    spine: &[("a", "b", &[]), ("ab", "c", &[])],
    joinable: &["a", "b", "c", "ab", "abc"],
    steps: &[("a", "b", 1), ("ab", "c", 2)],
    whole: true,
};

/// (a Left b ON a.x = b.x) Left c ON a.x = c.x
#[test]
fn tree_8(rt: HostRuntime) -> Result<(), Fail> {
    check(&rt, rt.alloc(), &TREE_8)
}

const TREE_8: Facts = Facts {
    tree: &[
        Op::Leaf(0),
        Op::Leaf(1),
        Op::Join(JoinKind::Left, &[Cond::Eq(Term::X(0), Term::X(1))]),
        Op::Leaf(2),
        Op::Join(JoinKind::Left, &[Cond::Eq(Term::X(0), Term::X(2))]),
    ],
    conds: &[],
    place: "",
    items: "abc",
    joins: &[
        Known {
            kind: JoinKind::Left,
            sides: ("a", "b"),
            sets: ("a", "b"),
            region: 0,
            members: 1,
        },
        Known {
            kind: JoinKind::Left,
            sides: ("ab", "c"),
            sets: ("a", "c"),
            region: 0,
            members: 1,
        },
    ],
    clauses: &[],
    scans: &[],
    spine: &[("a", "b", &[]), ("ab", "c", &[])],
    joinable: &["a", "b", "c", "ab", "ac", "abc"],
    steps: &[("a", "b", 1), ("a", "c", 2), ("ab", "c", 2), ("ac", "b", 1)],
    whole: true,
};

/// ((a Left b ON a.x = b.x) Left c ON b.x = c.x) Left d ON COALESCE(c.x, 0) = d.x
#[test]
fn tree_9(rt: HostRuntime) -> Result<(), Fail> {
    check(&rt, rt.alloc(), &TREE_9)
}

const TREE_9: Facts = Facts {
    tree: &[
        Op::Leaf(0),
        Op::Leaf(1),
        Op::Join(JoinKind::Left, &[Cond::Eq(Term::X(0), Term::X(1))]),
        Op::Leaf(2),
        Op::Join(JoinKind::Left, &[Cond::Eq(Term::X(1), Term::X(2))]),
        Op::Leaf(3),
        Op::Join(JoinKind::Left, &[Cond::Eq(Term::XOrZero(2), Term::X(3))]),
    ],
    conds: &[],
    place: "",
    items: "abcd",
    joins: &[
        Known {
            kind: JoinKind::Left,
            sides: ("a", "b"),
            sets: ("a", "b"),
            region: 0,
            members: 1,
        },
        Known {
            kind: JoinKind::Left,
            sides: ("ab", "c"),
            sets: ("b", "c"),
            region: 0,
            members: 1,
        },
        Known {
            kind: JoinKind::Left,
            sides: ("abc", "d"),
            sets: ("abc", "d"),
            region: 0,
            members: 1,
        },
    ],
    clauses: &[],
    scans: &[],
    spine: &[("a", "b", &[]), ("ab", "c", &[]), ("abc", "d", &[])],
    joinable: &["a", "b", "c", "d", "ab", "bc", "abc", "abcd"],
    steps: &[],
    whole: false,
};

/// (a Left (b Inner c ON b.x = c.x) ON a.x = c.x) Left d ON COALESCE(b.y, 0) = d.x
#[test]
fn tree_10(rt: HostRuntime) -> Result<(), Fail> {
    check(&rt, rt.alloc(), &TREE_10)
}

const TREE_10: Facts = Facts {
    tree: &[
        Op::Leaf(0),
        Op::Leaf(1),
        Op::Leaf(2),
        Op::Join(JoinKind::Inner, &[Cond::Eq(Term::X(1), Term::X(2))]),
        Op::Join(JoinKind::Left, &[Cond::Eq(Term::X(0), Term::X(2))]),
        Op::Leaf(3),
        Op::Join(JoinKind::Left, &[Cond::Eq(Term::YOrZero(1), Term::X(3))]),
    ],
    conds: &[],
    place: "",
    items: "abcd",
    joins: &[
        Known {
            kind: JoinKind::Left,
            sides: ("a", "bc"),
            sets: ("a", "bc"),
            region: 0,
            members: 1,
        },
        Known {
            kind: JoinKind::Left,
            sides: ("abc", "d"),
            sets: ("abc", "d"),
            region: 0,
            members: 1,
        },
    ],
    clauses: &[(Cond::Eq(Term::X(1), Term::X(2)), 1, "bc")],
    scans: &[],
    spine: &[
        ("b", "c", &[Cond::Eq(Term::X(1), Term::X(2))]),
        ("a", "bc", &[]),
        ("abc", "d", &[]),
    ],
    joinable: &["a", "b", "c", "d", "bc", "abc", "abcd"],
    steps: &[],
    whole: false,
};

/// (a Left (b Left c ON b.x = c.x) ON a.x = b.x) Left d ON c.x = d.x
#[test]
fn tree_11(rt: HostRuntime) -> Result<(), Fail> {
    check(&rt, rt.alloc(), &TREE_11)
}

const TREE_11: Facts = Facts {
    tree: &[
        Op::Leaf(0),
        Op::Leaf(1),
        Op::Leaf(2),
        Op::Join(JoinKind::Left, &[Cond::Eq(Term::X(1), Term::X(2))]),
        Op::Join(JoinKind::Left, &[Cond::Eq(Term::X(0), Term::X(1))]),
        Op::Leaf(3),
        Op::Join(JoinKind::Left, &[Cond::Eq(Term::X(2), Term::X(3))]),
    ],
    conds: &[],
    place: "",
    items: "abcd",
    joins: &[
        Known {
            kind: JoinKind::Left,
            sides: ("b", "c"),
            sets: ("b", "c"),
            region: 2,
            members: 1,
        },
        Known {
            kind: JoinKind::Left,
            sides: ("a", "bc"),
            sets: ("a", "b"),
            region: 0,
            members: 1,
        },
        Known {
            kind: JoinKind::Left,
            sides: ("abc", "d"),
            sets: ("c", "d"),
            region: 0,
            members: 1,
        },
    ],
    clauses: &[],
    scans: &[],
    spine: &[("b", "c", &[]), ("a", "bc", &[]), ("abc", "d", &[])],
    joinable: &["a", "b", "c", "d", "ab", "bc", "cd", "abc", "bcd", "abcd"],
    steps: &[
        ("c", "d", 3),
        ("b", "cd", 1),
        ("bc", "d", 3),
        ("a", "bcd", 2),
        ("ab", "cd", 1),
    ],
    whole: false,
};

/// a Left (b Left c ON b.x = c.x) ON b.x IS NULL
#[test]
fn tree_12(rt: HostRuntime) -> Result<(), Fail> {
    check(&rt, rt.alloc(), &TREE_12)
}

const TREE_12: Facts = Facts {
    tree: &[
        Op::Leaf(0),
        Op::Leaf(1),
        Op::Leaf(2),
        Op::Join(JoinKind::Left, &[Cond::Eq(Term::X(1), Term::X(2))]),
        Op::Join(JoinKind::Left, &[Cond::IsNull(Term::X(1))]),
    ],
    conds: &[],
    place: "",
    items: "abc",
    joins: &[
        Known {
            kind: JoinKind::Left,
            sides: ("b", "c"),
            sets: ("b", "c"),
            region: 2,
            members: 1,
        },
        Known {
            kind: JoinKind::Left,
            sides: ("a", "bc"),
            sets: ("a", "bc"),
            region: 0,
            members: 0,
        },
    ],
    clauses: &[(Cond::IsNull(Term::X(1)), 2, "b")],
    scans: &[(1, &[Cond::IsNull(Term::X(1))])],
    spine: &[("b", "c", &[]), ("a", "bc", &[])],
    joinable: &["a", "b", "c", "bc", "abc"],
    steps: &[("a", "bc", 2), ("b", "c", 1)],
    whole: true,
};

/// a Left (b Left c ON b.x = c.x) ON a.x = b.x
#[test]
fn tree_13(rt: HostRuntime) -> Result<(), Fail> {
    check(&rt, rt.alloc(), &TREE_13)
}

const TREE_13: Facts = Facts {
    tree: &[
        Op::Leaf(0),
        Op::Leaf(1),
        Op::Leaf(2),
        Op::Join(JoinKind::Left, &[Cond::Eq(Term::X(1), Term::X(2))]),
        Op::Join(JoinKind::Left, &[Cond::Eq(Term::X(0), Term::X(1))]),
    ],
    conds: &[],
    place: "",
    items: "abc",
    joins: &[
        Known {
            kind: JoinKind::Left,
            sides: ("b", "c"),
            sets: ("b", "c"),
            region: 2,
            members: 1,
        },
        Known {
            kind: JoinKind::Left,
            sides: ("a", "bc"),
            sets: ("a", "b"),
            region: 0,
            members: 1,
        },
    ],
    clauses: &[],
    scans: &[],
    spine: &[("b", "c", &[]), ("a", "bc", &[])],
    joinable: &["a", "b", "c", "ab", "bc", "abc"],
    steps: &[("a", "b", 2), ("a", "bc", 2), ("b", "c", 1), ("ab", "c", 1)],
    whole: true,
};

/// a Left (b Inner c ON nothing) ON a.x = b.x
#[test]
fn tree_14(rt: HostRuntime) -> Result<(), Fail> {
    check(&rt, rt.alloc(), &TREE_14)
}

const TREE_14: Facts = Facts {
    tree: &[
        Op::Leaf(0),
        Op::Leaf(1),
        Op::Leaf(2),
        Op::Join(JoinKind::Inner, &[]),
        Op::Join(JoinKind::Left, &[Cond::Eq(Term::X(0), Term::X(1))]),
    ],
    conds: &[],
    place: "",
    items: "abc",
    joins: &[Known {
        kind: JoinKind::Left,
        sides: ("a", "bc"),
        sets: ("a", "bc"),
        region: 0,
        members: 1,
    }],
    clauses: &[],
    scans: &[],
    spine: &[("b", "c", &[]), ("a", "bc", &[])],
    joinable: &["a", "b", "c", "bc", "abc"],
    steps: &[("a", "bc", 1), ("b", "c", 0), ("c", "b", 0)],
    whole: true,
};

/// a Left ((b Left c ON b.x = c.x) Semi d ON c.x = d.x) ON a.x = b.x
#[test]
fn tree_15(rt: HostRuntime) -> Result<(), Fail> {
    check(&rt, rt.alloc(), &TREE_15)
}

const TREE_15: Facts = Facts {
    tree: &[
        Op::Leaf(0),
        Op::Leaf(1),
        Op::Leaf(2),
        Op::Join(JoinKind::Left, &[Cond::Eq(Term::X(1), Term::X(2))]),
        Op::Leaf(3),
        Op::Join(JoinKind::Semi, &[Cond::Eq(Term::X(2), Term::X(3))]),
        Op::Join(JoinKind::Left, &[Cond::Eq(Term::X(0), Term::X(1))]),
    ],
    conds: &[],
    place: "",
    items: "abcd",
    joins: &[
        Known {
            kind: JoinKind::Left,
            sides: ("b", "c"),
            sets: ("b", "c"),
            region: 3,
            members: 1,
        },
        Known {
            kind: JoinKind::Semi,
            sides: ("bc", "d"),
            sets: ("bc", "d"),
            region: 3,
            members: 1,
        },
        Known {
            kind: JoinKind::Left,
            sides: ("a", "bcd"),
            sets: ("a", "bcd"),
            region: 0,
            members: 1,
        },
    ],
    clauses: &[],
    scans: &[],
    spine: &[("b", "c", &[]), ("bc", "d", &[]), ("a", "bcd", &[])],
    joinable: &["a", "b", "c", "d", "bc", "bcd", "abcd"],
    steps: &[],
    whole: false,
};

/// a Left (b Anti (c Left d ON c.x = d.x) ON b.x = c.x) ON a.x = b.x
#[test]
fn tree_16(rt: HostRuntime) -> Result<(), Fail> {
    check(&rt, rt.alloc(), &TREE_16)
}

const TREE_16: Facts = Facts {
    tree: &[
        Op::Leaf(0),
        Op::Leaf(1),
        Op::Leaf(2),
        Op::Leaf(3),
        Op::Join(JoinKind::Left, &[Cond::Eq(Term::X(2), Term::X(3))]),
        Op::Join(JoinKind::Anti, &[Cond::Eq(Term::X(1), Term::X(2))]),
        Op::Join(JoinKind::Left, &[Cond::Eq(Term::X(0), Term::X(1))]),
    ],
    conds: &[],
    place: "",
    items: "abcd",
    joins: &[
        Known {
            kind: JoinKind::Left,
            sides: ("c", "d"),
            sets: ("c", "d"),
            region: 2,
            members: 1,
        },
        Known {
            kind: JoinKind::Anti,
            sides: ("b", "cd"),
            sets: ("b", "cd"),
            region: 3,
            members: 1,
        },
        Known {
            kind: JoinKind::Left,
            sides: ("a", "bcd"),
            sets: ("a", "bcd"),
            region: 0,
            members: 1,
        },
    ],
    clauses: &[],
    scans: &[],
    spine: &[("c", "d", &[]), ("b", "cd", &[]), ("a", "bcd", &[])],
    joinable: &["a", "b", "c", "d", "cd", "bcd", "abcd"],
    steps: &[],
    whole: false,
};

/// a Left (b Left c ON b.x = c.x) ON b.x = c.x; a.x = b.x
#[test]
fn tree_17(rt: HostRuntime) -> Result<(), Fail> {
    check(&rt, rt.alloc(), &TREE_17)
}

const TREE_17: Facts = Facts {
    tree: &[
        Op::Leaf(0),
        Op::Leaf(1),
        Op::Leaf(2),
        Op::Join(JoinKind::Left, &[Cond::Eq(Term::X(1), Term::X(2))]),
        Op::Join(
            JoinKind::Left,
            &[
                Cond::Eq(Term::X(1), Term::X(2)),
                Cond::Eq(Term::X(0), Term::X(1)),
            ],
        ),
    ],
    conds: &[],
    place: "",
    items: "abc",
    joins: &[
        Known {
            kind: JoinKind::Left,
            sides: ("b", "c"),
            sets: ("b", "c"),
            region: 2,
            members: 1,
        },
        Known {
            kind: JoinKind::Left,
            sides: ("a", "bc"),
            sets: ("a", "bc"),
            region: 0,
            members: 1,
        },
    ],
    clauses: &[(Cond::Eq(Term::X(1), Term::X(2)), 2, "bc")],
    scans: &[],
    spine: &[
        ("b", "c", &[Cond::Eq(Term::X(1), Term::X(2))]),
        ("a", "bc", &[]),
    ],
    joinable: &["a", "b", "c", "bc", "abc"],
    steps: &[("a", "bc", 2), ("b", "c", 1)],
    whole: true,
};

/// a Left ((b Left c ON b.x = c.x) Inner d ON FALSE) ON a.x = b.x
#[test]
fn tree_18(rt: HostRuntime) -> Result<(), Fail> {
    check(&rt, rt.alloc(), &TREE_18)
}

const TREE_18: Facts = Facts {
    tree: &[
        Op::Leaf(0),
        Op::Leaf(1),
        Op::Leaf(2),
        Op::Join(JoinKind::Left, &[Cond::Eq(Term::X(1), Term::X(2))]),
        Op::Leaf(3),
        Op::Join(JoinKind::Inner, &[Cond::False]),
        Op::Join(JoinKind::Left, &[Cond::Eq(Term::X(0), Term::X(1))]),
    ],
    conds: &[],
    place: "",
    items: "abcd",
    joins: &[
        Known {
            kind: JoinKind::Left,
            sides: ("b", "c"),
            sets: ("b", "c"),
            region: 2,
            members: 1,
        },
        Known {
            kind: JoinKind::Left,
            sides: ("a", "bcd"),
            sets: ("a", "bcd"),
            region: 0,
            members: 1,
        },
    ],
    clauses: &[(Cond::False, 2, "bcd")],
    scans: &[],
    spine: &[
        ("b", "c", &[]),
        ("bc", "d", &[Cond::False]),
        ("a", "bcd", &[]),
    ],
    joinable: &["a", "b", "c", "d", "bc", "bd", "bcd", "abcd"],
    steps: &[],
    whole: false,
};

/// a Left (b Left c ON b.x = c.x) ON a.x = b.x, output PH(1; c)
#[test]
fn tree_19(rt: HostRuntime) -> Result<(), Fail> {
    check(&rt, rt.alloc(), &TREE_19)
}

const TREE_19: Facts = Facts {
    tree: &[
        Op::Leaf(0),
        Op::Leaf(1),
        Op::Leaf(2),
        Op::Join(JoinKind::Left, &[Cond::Eq(Term::X(1), Term::X(2))]),
        Op::Join(JoinKind::Left, &[Cond::Eq(Term::X(0), Term::X(1))]),
    ],
    conds: &[],
    place: "c",
    items: "abc",
    joins: &[
        Known {
            kind: JoinKind::Left,
            sides: ("b", "c"),
            sets: ("b", "c"),
            region: 2,
            members: 1,
        },
        Known {
            kind: JoinKind::Left,
            sides: ("a", "bc"),
            sets: ("a", "bc"),
            region: 0,
            members: 1,
        },
    ],
    clauses: &[],
    scans: &[],
    spine: &[("b", "c", &[]), ("a", "bc", &[])],
    joinable: &["a", "b", "c", "bc", "abc"],
    steps: &[("a", "bc", 2), ("b", "c", 1)],
    whole: true,
};

/// a Left (b Left c ON b.x = c.x) ON a.x = b.x, output PH(1; a, c)
#[test]
fn tree_20(rt: HostRuntime) -> Result<(), Fail> {
    check(&rt, rt.alloc(), &TREE_20)
}

const TREE_20: Facts = Facts {
    tree: &[
        Op::Leaf(0),
        Op::Leaf(1),
        Op::Leaf(2),
        Op::Join(JoinKind::Left, &[Cond::Eq(Term::X(1), Term::X(2))]),
        Op::Join(JoinKind::Left, &[Cond::Eq(Term::X(0), Term::X(1))]),
    ],
    conds: &[],
    place: "ac",
    items: "abc",
    joins: &[
        Known {
            kind: JoinKind::Left,
            sides: ("b", "c"),
            sets: ("b", "c"),
            region: 2,
            members: 1,
        },
        Known {
            kind: JoinKind::Left,
            sides: ("a", "bc"),
            sets: ("a", "b"),
            region: 0,
            members: 1,
        },
    ],
    clauses: &[],
    scans: &[],
    spine: &[("b", "c", &[]), ("a", "bc", &[])],
    joinable: &["a", "b", "c", "ab", "bc", "abc"],
    steps: &[("a", "b", 2), ("a", "bc", 2), ("b", "c", 1), ("ab", "c", 1)],
    whole: true,
};

/// a Left ((b Left c ON b.x = c.x) Left d ON c.x = d.x) ON a.x = d.x
#[test]
fn tree_21(rt: HostRuntime) -> Result<(), Fail> {
    check(&rt, rt.alloc(), &TREE_21)
}

const TREE_21: Facts = Facts {
    tree: &[
        Op::Leaf(0),
        Op::Leaf(1),
        Op::Leaf(2),
        Op::Join(JoinKind::Left, &[Cond::Eq(Term::X(1), Term::X(2))]),
        Op::Leaf(3),
        Op::Join(JoinKind::Left, &[Cond::Eq(Term::X(2), Term::X(3))]),
        Op::Join(JoinKind::Left, &[Cond::Eq(Term::X(0), Term::X(3))]),
    ],
    conds: &[],
    place: "",
    items: "abcd",
    joins: &[
        Known {
            kind: JoinKind::Left,
            sides: ("b", "c"),
            sets: ("b", "c"),
            region: 3,
            members: 1,
        },
        Known {
            kind: JoinKind::Left,
            sides: ("bc", "d"),
            sets: ("c", "d"),
            region: 3,
            members: 1,
        },
        Known {
            kind: JoinKind::Left,
            sides: ("a", "bcd"),
            sets: ("a", "bcd"),
            region: 0,
            members: 1,
        },
    ],
    clauses: &[],
    scans: &[],
    spine: &[("b", "c", &[]), ("bc", "d", &[]), ("a", "bcd", &[])],
    joinable: &["a", "b", "c", "d", "bc", "cd", "bcd", "abcd"],
    steps: &[("c", "d", 2), ("b", "cd", 1)],
    whole: false,
};

/// a Left (b Left c ON COALESCE(b.x, 0) = c.x) ON a.x = b.x
#[test]
fn tree_22(rt: HostRuntime) -> Result<(), Fail> {
    check(&rt, rt.alloc(), &TREE_22)
}

const TREE_22: Facts = Facts {
    tree: &[
        Op::Leaf(0),
        Op::Leaf(1),
        Op::Leaf(2),
        Op::Join(JoinKind::Left, &[Cond::Eq(Term::XOrZero(1), Term::X(2))]),
        Op::Join(JoinKind::Left, &[Cond::Eq(Term::X(0), Term::X(1))]),
    ],
    conds: &[],
    place: "",
    items: "abc",
    joins: &[
        Known {
            kind: JoinKind::Left,
            sides: ("b", "c"),
            sets: ("b", "c"),
            region: 2,
            members: 1,
        },
        Known {
            kind: JoinKind::Left,
            sides: ("a", "bc"),
            sets: ("a", "bc"),
            region: 0,
            members: 1,
        },
    ],
    clauses: &[],
    scans: &[],
    spine: &[("b", "c", &[]), ("a", "bc", &[])],
    joinable: &["a", "b", "c", "bc", "abc"],
    steps: &[("a", "bc", 2), ("b", "c", 1)],
    whole: true,
};

/// a Left (b Left (c Left d ON c.x = d.x) ON COALESCE(b.x, 0) = c.x) ON a.x = b.x
#[test]
fn tree_23(rt: HostRuntime) -> Result<(), Fail> {
    check(&rt, rt.alloc(), &TREE_23)
}

const TREE_23: Facts = Facts {
    tree: &[
        Op::Leaf(0),
        Op::Leaf(1),
        Op::Leaf(2),
        Op::Leaf(3),
        Op::Join(JoinKind::Left, &[Cond::Eq(Term::X(2), Term::X(3))]),
        Op::Join(JoinKind::Left, &[Cond::Eq(Term::XOrZero(1), Term::X(2))]),
        Op::Join(JoinKind::Left, &[Cond::Eq(Term::X(0), Term::X(1))]),
    ],
    conds: &[],
    place: "",
    items: "abcd",
    joins: &[
        Known {
            kind: JoinKind::Left,
            sides: ("c", "d"),
            sets: ("c", "d"),
            region: 2,
            members: 1,
        },
        Known {
            kind: JoinKind::Left,
            sides: ("b", "cd"),
            sets: ("b", "c"),
            region: 3,
            members: 1,
        },
        Known {
            kind: JoinKind::Left,
            sides: ("a", "bcd"),
            sets: ("a", "bcd"),
            region: 0,
            members: 1,
        },
    ],
    clauses: &[],
    scans: &[],
    spine: &[("c", "d", &[]), ("b", "cd", &[]), ("a", "bcd", &[])],
    joinable: &["a", "b", "c", "d", "bc", "cd", "bcd", "abcd"],
    steps: &[],
    whole: false,
};

/// a Anti (b Left c ON b.x = c.x) ON a.x = b.x
#[test]
fn tree_24(rt: HostRuntime) -> Result<(), Fail> {
    check(&rt, rt.alloc(), &TREE_24)
}

const TREE_24: Facts = Facts {
    tree: &[
        Op::Leaf(0),
        Op::Leaf(1),
        Op::Leaf(2),
        Op::Join(JoinKind::Left, &[Cond::Eq(Term::X(1), Term::X(2))]),
        Op::Join(JoinKind::Anti, &[Cond::Eq(Term::X(0), Term::X(1))]),
    ],
    conds: &[],
    place: "",
    items: "abc",
    joins: &[
        Known {
            kind: JoinKind::Left,
            sides: ("b", "c"),
            sets: ("b", "c"),
            region: 2,
            members: 1,
        },
        Known {
            kind: JoinKind::Anti,
            sides: ("a", "bc"),
            sets: ("a", "bc"),
            region: 0,
            members: 1,
        },
    ],
    clauses: &[],
    scans: &[],
    spine: &[("b", "c", &[]), ("a", "bc", &[])],
    joinable: &["a", "b", "c", "bc", "abc"],
    steps: &[("a", "bc", 2), ("b", "c", 1)],
    whole: true,
};

/// a Left b ON a.x = b.x, WHERE b.x = b.x
#[test]
fn tree_25(rt: HostRuntime) -> Result<(), Fail> {
    check(&rt, rt.alloc(), &TREE_25)
}

const TREE_25: Facts = Facts {
    tree: &[
        Op::Leaf(0),
        Op::Leaf(1),
        Op::Join(JoinKind::Left, &[Cond::Eq(Term::X(0), Term::X(1))]),
    ],
    conds: &[Cond::Eq(Term::X(1), Term::X(1))],
    place: "",
    items: "ab",
    joins: &[Known {
        kind: JoinKind::Left,
        sides: ("a", "b"),
        sets: ("a", "b"),
        region: 0,
        members: 1,
    }],
    clauses: &[(Cond::Eq(Term::X(1), Term::X(1)), 0, "ab")],
    scans: &[],
    spine: &[("a", "b", &[Cond::Eq(Term::X(1), Term::X(1))])],
    joinable: &["a", "b", "ab"],
    steps: &[("a", "b", 1)],
    whole: true,
};

/// a Left b ON b.y IS NULL
#[test]
fn tree_26(rt: HostRuntime) -> Result<(), Fail> {
    check(&rt, rt.alloc(), &TREE_26)
}

const TREE_26: Facts = Facts {
    tree: &[
        Op::Leaf(0),
        Op::Leaf(1),
        Op::Join(JoinKind::Left, &[Cond::IsNull(Term::Y(1))]),
    ],
    conds: &[],
    place: "",
    items: "ab",
    joins: &[Known {
        kind: JoinKind::Left,
        sides: ("a", "b"),
        sets: ("a", "b"),
        region: 0,
        members: 0,
    }],
    clauses: &[(Cond::IsNull(Term::Y(1)), 1, "b")],
    scans: &[(1, &[Cond::IsNull(Term::Y(1))])],
    spine: &[("a", "b", &[])],
    joinable: &["a", "b", "ab"],
    steps: &[("a", "b", 1)],
    whole: true,
};

/// (a Left b ON a.x = b.x) Left c ON b.x = c.x, WHERE c.x = c.x
#[test]
fn tree_27(rt: HostRuntime) -> Result<(), Fail> {
    check(&rt, rt.alloc(), &TREE_27)
}

const TREE_27: Facts = Facts {
    tree: &[
        Op::Leaf(0),
        Op::Leaf(1),
        Op::Join(JoinKind::Left, &[Cond::Eq(Term::X(0), Term::X(1))]),
        Op::Leaf(2),
        Op::Join(JoinKind::Left, &[Cond::Eq(Term::X(1), Term::X(2))]),
    ],
    conds: &[Cond::Eq(Term::X(2), Term::X(2))],
    place: "",
    items: "abc",
    joins: &[
        Known {
            kind: JoinKind::Left,
            sides: ("a", "b"),
            sets: ("a", "b"),
            region: 0,
            members: 1,
        },
        Known {
            kind: JoinKind::Left,
            sides: ("ab", "c"),
            sets: ("b", "c"),
            region: 0,
            members: 1,
        },
    ],
    clauses: &[(Cond::Eq(Term::X(2), Term::X(2)), 0, "abc")],
    scans: &[],
    spine: &[
        ("a", "b", &[]),
        ("ab", "c", &[Cond::Eq(Term::X(2), Term::X(2))]),
    ],
    joinable: &["a", "b", "c", "ab", "bc", "abc"],
    steps: &[("a", "b", 1), ("a", "bc", 1), ("b", "c", 2), ("ab", "c", 2)],
    whole: true,
};

/// a Left (b Semi c ON b.x = c.x) ON a.x = b.x, WHERE a.y = b.x
#[test]
fn tree_28(rt: HostRuntime) -> Result<(), Fail> {
    check(&rt, rt.alloc(), &TREE_28)
}

const TREE_28: Facts = Facts {
    tree: &[
        Op::Leaf(0),
        Op::Leaf(1),
        Op::Leaf(2),
        Op::Join(JoinKind::Semi, &[Cond::Eq(Term::X(1), Term::X(2))]),
        Op::Join(JoinKind::Left, &[Cond::Eq(Term::X(0), Term::X(1))]),
    ],
    conds: &[Cond::Eq(Term::Y(0), Term::X(1))],
    place: "",
    items: "abc",
    joins: &[
        Known {
            kind: JoinKind::Semi,
            sides: ("b", "c"),
            sets: ("b", "c"),
            region: 2,
            members: 1,
        },
        Known {
            kind: JoinKind::Left,
            sides: ("a", "bc"),
            sets: ("a", "bc"),
            region: 0,
            members: 1,
        },
    ],
    clauses: &[(Cond::Eq(Term::Y(0), Term::X(1)), 0, "abc")],
    scans: &[],
    spine: &[
        ("b", "c", &[]),
        ("a", "bc", &[Cond::Eq(Term::Y(0), Term::X(1))]),
    ],
    joinable: &["a", "b", "c", "bc", "abc"],
    steps: &[("a", "bc", 2), ("b", "c", 1)],
    whole: true,
};

/// a Left (b Left c ON FALSE) ON a.x = b.x
#[test]
fn tree_30(rt: HostRuntime) -> Result<(), Fail> {
    check(&rt, rt.alloc(), &TREE_30)
}

const TREE_30: Facts = Facts {
    tree: &[
        Op::Leaf(0),
        Op::Leaf(1),
        Op::Leaf(2),
        Op::Join(JoinKind::Left, &[Cond::False]),
        Op::Join(JoinKind::Left, &[Cond::Eq(Term::X(0), Term::X(1))]),
    ],
    conds: &[],
    place: "",
    items: "abc",
    joins: &[
        Known {
            kind: JoinKind::Left,
            sides: ("b", "c"),
            sets: ("b", "c"),
            region: 2,
            members: 1,
        },
        Known {
            kind: JoinKind::Left,
            sides: ("a", "bc"),
            sets: ("a", "b"),
            region: 0,
            members: 1,
        },
    ],
    clauses: &[],
    scans: &[],
    spine: &[("b", "c", &[]), ("a", "bc", &[])],
    joinable: &["a", "b", "c", "ab", "bc", "abc"],
    steps: &[("a", "b", 2), ("a", "bc", 2), ("b", "c", 1), ("ab", "c", 1)],
    whole: true,
};

/// (a Inner b ON a.x = b.x) Left c ON a.x IS NULL
#[test]
fn tree_31(rt: HostRuntime) -> Result<(), Fail> {
    check(&rt, rt.alloc(), &TREE_31)
}

const TREE_31: Facts = Facts {
    tree: &[
        Op::Leaf(0),
        Op::Leaf(1),
        Op::Join(JoinKind::Inner, &[Cond::Eq(Term::X(0), Term::X(1))]),
        Op::Leaf(2),
        Op::Join(JoinKind::Left, &[Cond::IsNull(Term::X(0))]),
    ],
    conds: &[],
    place: "",
    items: "abc",
    joins: &[Known {
        kind: JoinKind::Left,
        sides: ("ab", "c"),
        sets: ("a", "c"),
        region: 0,
        members: 1,
    }],
    clauses: &[(Cond::Eq(Term::X(0), Term::X(1)), 0, "ab")],
    scans: &[],
    spine: &[
        ("a", "b", &[Cond::Eq(Term::X(0), Term::X(1))]),
        ("ab", "c", &[]),
    ],
    joinable: &["a", "b", "c", "ab", "ac", "abc"],
    steps: &[
        ("a", "b", 0),
        ("a", "c", 1),
        ("b", "a", 0),
        ("b", "ac", 0),
        ("ab", "c", 1),
        ("ac", "b", 0),
    ],
    whole: true,
};

/// (a Inner b ON a.x = b.x) Inner c ON a.x = c.x
#[test]
fn tree_34(rt: HostRuntime) -> Result<(), Fail> {
    check(&rt, rt.alloc(), &TREE_34)
}

const TREE_34: Facts = Facts {
    tree: &[
        Op::Leaf(0),
        Op::Leaf(1),
        Op::Join(JoinKind::Inner, &[Cond::Eq(Term::X(0), Term::X(1))]),
        Op::Leaf(2),
        Op::Join(JoinKind::Inner, &[Cond::Eq(Term::X(0), Term::X(2))]),
    ],
    conds: &[],
    place: "",
    items: "abc",
    joins: &[],
    clauses: &[
        (Cond::Eq(Term::X(0), Term::X(1)), 0, "ab"),
        (Cond::Eq(Term::X(0), Term::X(2)), 0, "ac"),
    ],
    scans: &[],
    spine: &[
        ("a", "b", &[Cond::Eq(Term::X(0), Term::X(1))]),
        ("ab", "c", &[Cond::Eq(Term::X(0), Term::X(2))]),
    ],
    joinable: &["a", "b", "c", "ab", "ac", "bc", "abc"],
    steps: &[
        ("a", "b", 0),
        ("a", "c", 0),
        ("a", "bc", 0),
        ("b", "a", 0),
        ("b", "c", 0),
        ("b", "ac", 0),
        ("ab", "c", 0),
        ("c", "a", 0),
        ("c", "b", 0),
        ("c", "ab", 0),
        ("ac", "b", 0),
        ("bc", "a", 0),
    ],
    whole: true,
};

/// a Left ((b Left c ON b.x = c.x) Left d ON b.x = d.x) ON b.x = c.x
#[test]
fn tree_35(rt: HostRuntime) -> Result<(), Fail> {
    check(&rt, rt.alloc(), &TREE_35)
}

const TREE_35: Facts = Facts {
    tree: &[
        Op::Leaf(0),
        Op::Leaf(1),
        Op::Leaf(2),
        Op::Join(JoinKind::Left, &[Cond::Eq(Term::X(1), Term::X(2))]),
        Op::Leaf(3),
        Op::Join(JoinKind::Left, &[Cond::Eq(Term::X(1), Term::X(3))]),
        Op::Join(JoinKind::Left, &[Cond::Eq(Term::X(1), Term::X(2))]),
    ],
    conds: &[],
    place: "",
    items: "abcd",
    joins: &[
        Known {
            kind: JoinKind::Left,
            sides: ("b", "c"),
            sets: ("b", "c"),
            region: 3,
            members: 1,
        },
        Known {
            kind: JoinKind::Left,
            sides: ("bc", "d"),
            sets: ("b", "d"),
            region: 3,
            members: 1,
        },
        Known {
            kind: JoinKind::Left,
            sides: ("a", "bcd"),
            sets: ("a", "bcd"),
            region: 0,
            members: 0,
        },
    ],
    clauses: &[(Cond::Eq(Term::X(1), Term::X(2)), 3, "bc")],
    scans: &[],
    spine: &[
        ("b", "c", &[Cond::Eq(Term::X(1), Term::X(2))]),
        ("bc", "d", &[]),
        ("a", "bcd", &[]),
    ],
    joinable: &["a", "b", "c", "d", "bc", "bd", "bcd", "abcd"],
    steps: &[],
    whole: false,
};

/// a Anti b ON a.x = b.x
#[test]
fn tree_36(rt: HostRuntime) -> Result<(), Fail> {
    check(&rt, rt.alloc(), &TREE_36)
}

const TREE_36: Facts = Facts {
    tree: &[
        Op::Leaf(0),
        Op::Leaf(1),
        Op::Join(JoinKind::Anti, &[Cond::Eq(Term::X(0), Term::X(1))]),
    ],
    conds: &[],
    place: "",
    items: "ab",
    joins: &[Known {
        kind: JoinKind::Anti,
        sides: ("a", "b"),
        sets: ("a", "b"),
        region: 0,
        members: 1,
    }],
    clauses: &[],
    scans: &[],
    spine: &[("a", "b", &[])],
    joinable: &["a", "b", "ab"],
    steps: &[("a", "b", 1)],
    whole: true,
};

/// a Left From(b; FALSE) ON a.x = b.x
#[test]
fn tree_29(rt: HostRuntime) -> Result<(), Fail> {
    check(&rt, rt.alloc(), &TREE_29)
}

const TREE_29: Facts = Facts {
    tree: &[
        Op::Leaf(0),
        Op::Leaf(1),
        Op::From(&[Cond::False]),
        Op::Join(JoinKind::Left, &[Cond::Eq(Term::X(0), Term::X(1))]),
    ],
    conds: &[],
    place: "",
    items: "ab",
    joins: &[Known {
        kind: JoinKind::Left,
        sides: ("a", "b"),
        sets: ("a", "b"),
        region: 0,
        members: 1,
    }],
    clauses: &[(Cond::False, 1, "b")],
    scans: &[(1, &[Cond::False])],
    spine: &[("a", "b", &[])],
    joinable: &["a", "b", "ab"],
    steps: &[("a", "b", 1)],
    whole: true,
};

/// a Left From(b Left c ON b.x = c.x; c.x = b.x) ON a.x = b.x
#[test]
fn tree_32(rt: HostRuntime) -> Result<(), Fail> {
    check(&rt, rt.alloc(), &TREE_32)
}

const TREE_32: Facts = Facts {
    tree: &[
        Op::Leaf(0),
        Op::Leaf(1),
        Op::Leaf(2),
        Op::Join(JoinKind::Left, &[Cond::Eq(Term::X(1), Term::X(2))]),
        Op::From(&[Cond::Eq(Term::X(2), Term::X(1))]),
        Op::Join(JoinKind::Left, &[Cond::Eq(Term::X(0), Term::X(1))]),
    ],
    conds: &[],
    place: "",
    items: "abc",
    joins: &[
        Known {
            kind: JoinKind::Left,
            sides: ("b", "c"),
            sets: ("b", "c"),
            region: 2,
            members: 1,
        },
        Known {
            kind: JoinKind::Left,
            sides: ("a", "bc"),
            sets: ("a", "bc"),
            region: 0,
            members: 1,
        },
    ],
    clauses: &[(Cond::Eq(Term::X(2), Term::X(1)), 2, "bc")],
    scans: &[],
    spine: &[
        ("b", "c", &[Cond::Eq(Term::X(2), Term::X(1))]),
        ("a", "bc", &[]),
    ],
    joinable: &["a", "b", "c", "bc", "abc"],
    steps: &[("a", "bc", 2), ("b", "c", 1)],
    whole: true,
};

/// From(a Inner b ON a.x = b.x; b.x = a.x)
#[test]
fn tree_33(rt: HostRuntime) -> Result<(), Fail> {
    check(&rt, rt.alloc(), &TREE_33)
}

const TREE_33: Facts = Facts {
    tree: &[
        Op::Leaf(0),
        Op::Leaf(1),
        Op::Join(JoinKind::Inner, &[Cond::Eq(Term::X(0), Term::X(1))]),
        Op::From(&[Cond::Eq(Term::X(1), Term::X(0))]),
    ],
    conds: &[],
    place: "",
    items: "ab",
    joins: &[],
    clauses: &[
        (Cond::Eq(Term::X(0), Term::X(1)), 0, "ab"),
        (Cond::Eq(Term::X(1), Term::X(0)), 0, "ab"),
    ],
    scans: &[],
    spine: &[(
        "a",
        "b",
        &[
            Cond::Eq(Term::X(0), Term::X(1)),
            Cond::Eq(Term::X(1), Term::X(0)),
        ],
    )],
    joinable: &["a", "b", "ab"],
    steps: &[("a", "b", 0), ("b", "a", 0)],
    whole: true,
};

/// Two left joins, either of which may come first: (a Left b ON a.x = b.y) Left c ON b.x = c.y
#[test]
fn two_left_joins(rt: HostRuntime) -> Result<(), Fail> {
    check(&rt, rt.alloc(), &TWO_LEFT_JOINS)
}

const TWO_LEFT_JOINS: Facts = Facts {
    tree: &[
        Op::Leaf(0),
        Op::Leaf(1),
        Op::Join(JoinKind::Left, &[Cond::Eq(Term::X(0), Term::Y(1))]),
        Op::Leaf(2),
        Op::Join(JoinKind::Left, &[Cond::Eq(Term::X(1), Term::Y(2))]),
    ],
    conds: &[],
    place: "",
    items: "abc",
    joins: &[
        Known {
            kind: JoinKind::Left,
            sides: ("a", "b"),
            sets: ("a", "b"),
            region: 0,
            members: 1,
        },
        Known {
            kind: JoinKind::Left,
            sides: ("ab", "c"),
            sets: ("b", "c"),
            region: 0,
            members: 1,
        },
    ],
    clauses: &[],
    scans: &[],
    spine: &[("a", "b", &[]), ("ab", "c", &[])],
    joinable: &["a", "b", "c", "ab", "bc", "abc"],
    steps: &[("a", "b", 1), ("a", "bc", 1), ("b", "c", 2), ("ab", "c", 2)],
    whole: true,
};

/// A condition that rejects no null: (a Left b ON a.x = b.y) Left c ON COALESCE(b.x, 0) = c.y
#[test]
fn rejects_no_null(rt: HostRuntime) -> Result<(), Fail> {
    check(&rt, rt.alloc(), &REJECTS_NO_NULL)
}

const REJECTS_NO_NULL: Facts = Facts {
    tree: &[
        Op::Leaf(0),
        Op::Leaf(1),
        Op::Join(JoinKind::Left, &[Cond::Eq(Term::X(0), Term::Y(1))]),
        Op::Leaf(2),
        Op::Join(JoinKind::Left, &[Cond::Eq(Term::XOrZero(1), Term::Y(2))]),
    ],
    conds: &[],
    place: "",
    items: "abc",
    joins: &[
        Known {
            kind: JoinKind::Left,
            sides: ("a", "b"),
            sets: ("a", "b"),
            region: 0,
            members: 1,
        },
        Known {
            kind: JoinKind::Left,
            sides: ("ab", "c"),
            sets: ("ab", "c"),
            region: 0,
            members: 1,
        },
    ],
    clauses: &[],
    scans: &[],
    spine: &[("a", "b", &[]), ("ab", "c", &[])],
    joinable: &["a", "b", "c", "ab", "abc"],
    steps: &[("a", "b", 1), ("ab", "c", 2)],
    whole: true,
};

/// A condition inside the right side: a Left From(b Left c ON b.x = c.y; c.x IS NULL) ON a.x = b.y
#[test]
fn condition_inside(rt: HostRuntime) -> Result<(), Fail> {
    check(&rt, rt.alloc(), &CONDITION_INSIDE)
}

const CONDITION_INSIDE: Facts = Facts {
    tree: &[
        Op::Leaf(0),
        Op::Leaf(1),
        Op::Leaf(2),
        Op::Join(JoinKind::Left, &[Cond::Eq(Term::X(1), Term::Y(2))]),
        Op::From(&[Cond::IsNull(Term::X(2))]),
        Op::Join(JoinKind::Left, &[Cond::Eq(Term::X(0), Term::Y(1))]),
    ],
    conds: &[],
    place: "",
    items: "abc",
    joins: &[
        Known {
            kind: JoinKind::Left,
            sides: ("b", "c"),
            sets: ("b", "c"),
            region: 2,
            members: 1,
        },
        Known {
            kind: JoinKind::Left,
            sides: ("a", "bc"),
            sets: ("a", "bc"),
            region: 0,
            members: 1,
        },
    ],
    clauses: &[(Cond::IsNull(Term::X(2)), 2, "bc")],
    scans: &[],
    spine: &[("b", "c", &[Cond::IsNull(Term::X(2))]), ("a", "bc", &[])],
    joinable: &["a", "b", "c", "bc", "abc"],
    steps: &[("a", "bc", 2), ("b", "c", 1)],
    whole: true,
};
