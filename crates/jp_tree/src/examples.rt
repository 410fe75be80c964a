ghost use Rattle.jp_tree.specs.Examples.{a_scan};
ghost use Rattle.jp_tree.specs.Prepared.{IsWhole};

/// A law: the plan of a select from one table is whole.
pub fn worked_prepared()
    ensures { IsWhole a_scan }
{}
