ghost use Rattle.std.specs.Prelude.{◌≡◌, ◌-◌, ◌^◌, pos, negsuc, true, false, [], ◌∷◌, Some, None};
ghost use Rattle.jp_ast.specs.declared.tree.JoinWord.TheVariants as join;
ghost use Rattle.jp_statements.specs.Whole.{is_whole_select};
ghost use Rattle.jp_statements.specs.Entries.{entries_in_select};
ghost use Rattle.jp_statements.specs.Examples.{number, and, exists, table, sub, joined, star, select, plain, selected, of_join};

/// Laws: which small selects are whole.
pub fn worked_selects()
    ensures whole { is_whole_select plain ≡ true }
    ensures no_target { is_whole_select (select [] (table ∷ []) None) ≡ false }
    ensures no_item { is_whole_select (select (star ∷ []) [] None) ≡ false }
    ensures no_item_in_a_sublink { is_whole_select (selected (exists (select (star ∷ []) [] None))) ≡ false }
    ensures condition { is_whole_select (of_join join.Inner (Some (number (pos 0)))) ≡ true }
    ensures no_condition { is_whole_select (of_join join.Inner None) ≡ false }
    ensures cross { is_whole_select (of_join join.Cross None) ≡ true }
    ensures condition_of_cross { is_whole_select (of_join join.Cross (Some (number (pos 0)))) ≡ false }
    ensures one_member { is_whole_select (selected (and (number (pos 0) ∷ []))) ≡ false }
    ensures two_members { is_whole_select (selected (and (number (pos 0) ∷ number (pos 0) ∷ []))) ≡ true }
    ensures widest { is_whole_select (selected (number (pos (2 ^ 127 - 1)))) ≡ true }
    ensures too_wide { is_whole_select (selected (number (pos (2 ^ 127)))) ≡ false }
    ensures below_zero { is_whole_select (selected (number (negsuc 0))) ≡ false }
{}

/// Laws: how many entries small selects have.
pub fn worked_entries()
    ensures table { entries_in_select plain ≡ 1 }
    ensures sub_select { entries_in_select (select (star ∷ []) (sub plain ∷ []) None) ≡ 2 }
    ensures join { entries_in_select (of_join join.Cross None) ≡ 2 }
    ensures sublink { entries_in_select (selected (and (exists plain ∷ exists plain ∷ []))) ≡ 3 }
    ensures on { entries_in_select (of_join join.Left (Some (exists plain))) ≡ 3 }
{}
