ghost use Rattle.std.specs.Prelude.{◌≡◌, codes};
ghost use Rattle.jp_explain_tests.specs.Examples.{below, listed, names, quotes, signed, sublinks, tested};
ghost use Rattle.jp_explain.specs.Expressions.{expr_text};
ghost use Rattle.jp_explain.specs.Plans.{explain_text};
ghost use Rattle.jp_explain_tests.specs.Layouts.{conditioned, layout};

/// A law: what some expressions are printed as.
pub fn worked_expressions()
    ensures signed { expr_text names signed ≡ codes "(a.x - (a.id * b_3.y)) = (-a.id)" }
    ensures tested { expr_text names tested ≡ codes "NOT (CASE -a.x WHEN a.id THEN a.x - (a.id * b_3.y) ELSE NULL END IS NOT NULL)" }
    ensures listed { expr_text names listed ≡ codes "PH(a.x - (a.id * b_3.y); a, b_3) IN (a.x - (a.id * b_3.y), NULL)" }
    ensures sublinks { expr_text names sublinks ≡ codes "EXISTS(#1) IN (#2)" }
    ensures quotes { expr_text names quotes ≡ codes "'''' || ''''" }
    ensures below { expr_text names below ≡ codes "a.x < -7" }
{}

/// A law: how the lines of a planned statement are laid out.
pub fn worked_layout()
    ensures { explain_text layout ≡ codes "Sort b.id DESC NULLS LAST\nDistinct\nNest Inner rows=3 cost=8\n  Sub s rows=1 cost=2\n    Distinct\n    Scan a rows=4 cost=4\n  Scan b rows=3 cost=3\n#1:\n  Distinct\n  Scan d rows=6 cost=6\n#2:\n  Distinct\n  Full rows=5 cost=9\n    Scan l rows=2 cost=2\n    Scan r rows=3 cost=3\n" }
{}

/// A law: where the conditions of a left join, of what is tested behind it and of a scan stand.
pub fn worked_conditions()
    ensures { explain_text conditioned ≡ codes "Nest Left rows=1 cost=8\n  on: a.id = b.id\n  filter: EXISTS(#1)\n  Scan a rows=3 cost=1\n    filter: a.id IS NOT NULL\n  Scan b rows=2 cost=1\n#1:\n  Distinct\n  Scan c rows=5 cost=1\n" }
{}
