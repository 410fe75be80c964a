#![tactic(auto, using(crate::proofs::WalkLaws::walking))]

ghost use Rattle.std.specs.Prelude.{◌≡◌, [], Ok};
ghost use Rattle.jp_resolution.specs.Answers.{Gives};
ghost use Rattle.jp_resolve_parts.specs.Outs.{outputs_behind, after_new};
ghost use Rattle.jp_resolve_parts.specs.Views.{answer_map, beside_new, source_behind};
ghost use Rattle.jp_resolve.specs.Walk as spec;

use crate::counting::Resolver;
use crate::names::{output_name, place_of};
use jp_ast::{Ast, FromItem, Select, Target};
use jp_query::{Expr, JoinTree};
use jp_resolution::{Counts, Entry, ResolveError, Selection, TypedExpr};
use jp_resolve_parts::{
    Arm, Outputs, and_node, behind, between_node, bool_literal, both, boxed, case_node,
    coalesce_node, compare_node, concat_node, condition, exists_node, in_list_node, in_select_node,
    inner_levels, is_node, kind_of, name_expr, new_outputs, next_sublink, not_node, null_literal,
    number_literal, one_entry, one_sublink, or_node, product_node, push_entry, push_level,
    push_typed, qualified_entry, qualified_expr, sign_node, sub_source, sum_node, table_source,
    text_literal,
};
use sqlite_items::{Boxed, Items};

impl Resolver<'_> {
    /// An expression where these levels are visible and so much begins before it.
    #[cycle(walking)]
    pub fn expr(
        &self,
        ast: &Ast,
        levels: &[Items<Entry>],
        before: Counts,
    ) -> Result<TypedExpr, ResolveError>
        ensures { Gives (spec.expr_in self.now.catalog.now ast.now levels.now before) result }
    {
        match ast {
            Ast::Number { value, at } => {
                let node = number_literal(self.alloc, *at, *value)?;
                Ok(node)
            }
            Ast::Text { value, .. } => {
                let node = text_literal(self.alloc, value)?;
                Ok(node)
            }
            Ast::Bool { value, .. } => {
                let node = bool_literal(self.alloc, *value)?;
                Ok(node)
            }
            Ast::Null { .. } => {
                let node = null_literal(self.alloc)?;
                Ok(node)
            }
            Ast::Name { name, at } => {
                let node = name_expr(self.alloc, *at, name.as_str(), levels)?;
                Ok(node)
            }
            Ast::Qualified {
                qualifier,
                name,
                at,
            } => {
                let node = qualified_expr(
                    self.alloc,
                    *at,
                    qualifier.as_str(),
                    name.as_str(),
                    levels,
                )?;
                Ok(node)
            }
            Ast::Sign { minus, operand, at } => {
                let operand = self.expr(operand.get(), levels, before)?;
                let node = sign_node(self.alloc, *at, *minus, operand)?;
                Ok(node)
            }
            Ast::Sum { terms, at } => {
                let terms = self.terms(terms.as_slice(), levels, before)?;
                let node = sum_node(self.alloc, *at, terms)?;
                Ok(node)
            }
            Ast::Product { factors, at } => {
                let factors = self.exprs(factors.as_slice(), levels, before)?;
                let node = product_node(self.alloc, *at, factors)?;
                Ok(node)
            }
            Ast::Concat { parts, at } => {
                let parts = self.exprs(parts.as_slice(), levels, before)?;
                let node = concat_node(self.alloc, *at, parts)?;
                Ok(node)
            }
            Ast::Compare {
                op,
                left,
                right,
                at,
            } => {
                let counts = self.expr_counts(left.get())?;
                let after = both(before, counts)?;
                let left = self.expr(left.get(), levels, before)?;
                let right = self.expr(right.get(), levels, after)?;
                let node = compare_node(self.alloc, *at, *op, left, right)?;
                Ok(node)
            }
            Ast::Between {
                operand,
                low,
                high,
                at,
            } => {
                let counts = self.expr_counts(operand.get())?;
                let before_low = both(before, counts)?;
                let counts = self.expr_counts(low.get())?;
                let before_high = both(before_low, counts)?;
                let operand = self.expr(operand.get(), levels, before)?;
                let low = self.expr(low.get(), levels, before_low)?;
                let high = self.expr(high.get(), levels, before_high)?;
                let node = between_node(self.alloc, *at, operand, low, high)?;
                Ok(node)
            }
            Ast::InList { operand, list, at } => {
                let counts = self.expr_counts(operand.get())?;
                let after = both(before, counts)?;
                let operand = self.expr(operand.get(), levels, before)?;
                let list = self.exprs(list.as_slice(), levels, after)?;
                let node = in_list_node(self.alloc, *at, operand, list)?;
                Ok(node)
            }
            Ast::InSelect {
                operand,
                select,
                at,
            } => {
                let sub = next_sublink(before)?;
                let inside = both(before, one_sublink())?;
                let counts = self.expr_counts(operand.get())?;
                let after = both(inside, counts)?;
                let operand = self.expr(operand.get(), levels, inside)?;
                let selection = self.select(select.get(), levels, after)?;
                let node = in_select_node(self.alloc, *at, sub, operand, selection)?;
                Ok(node)
            }
            Ast::And { list, at } => {
                let list = self.exprs(list.as_slice(), levels, before)?;
                let node = and_node(self.alloc, *at, list)?;
                Ok(node)
            }
            Ast::Or { list, at } => {
                let list = self.exprs(list.as_slice(), levels, before)?;
                let node = or_node(self.alloc, *at, list)?;
                Ok(node)
            }
            Ast::Not { operand, at } => {
                let operand = self.expr(operand.get(), levels, before)?;
                let node = not_node(self.alloc, *at, operand)?;
                Ok(node)
            }
            Ast::Is {
                operand,
                negated,
                word,
                at,
            } => {
                let operand = self.expr(operand.get(), levels, before)?;
                let node = is_node(self.alloc, *at, *negated, *word, operand)?;
                Ok(node)
            }
            Ast::Exists { select, .. } => {
                let sub = next_sublink(before)?;
                let inside = both(before, one_sublink())?;
                let selection = self.select(select.get(), levels, inside)?;
                let node = exists_node(self.alloc, sub, selection)?;
                Ok(node)
            }
            Ast::Coalesce { list, at } => {
                let list = self.exprs(list.as_slice(), levels, before)?;
                let node = coalesce_node(self.alloc, *at, list)?;
                Ok(node)
            }
            Ast::Case {
                operand,
                arms,
                otherwise,
                at,
            } => {
                let counts = self.boxed_counts(operand)?;
                let before_arms = both(before, counts)?;
                let counts = self.arm_counts(arms.as_slice())?;
                let before_else = both(before_arms, counts)?;
                let operand = self.maybe(operand, levels, before)?;
                let arms = self.arms(arms.as_slice(), levels, before_arms)?;
                let otherwise = self.maybe(otherwise, levels, before_else)?;
                let node = case_node(self.alloc, *at, operand, arms, otherwise)?;
                Ok(node)
            }
        }
    }

    /// A part of CASE that may be missing.
    #[cycle(walking)]
    fn maybe(
        &self,
        part: &Option<Boxed<Ast>>,
        levels: &[Items<Entry>],
        before: Counts,
    ) -> Result<Option<TypedExpr>, ResolveError>
        ensures { Gives (spec.maybe_in self.now.catalog.now part.now levels.now before) result }
    {
        match part {
            Some(part) => {
                let operand = self.expr(part.get(), levels, before)?;
                Ok(Some(operand))
            }
            None => Ok(None),
        }
    }

    /// A list of expressions.
    #[cycle(walking)]
    fn exprs(
        &self,
        asts: &[Ast],
        levels: &[Items<Entry>],
        before: Counts,
    ) -> Result<Vec<TypedExpr>, ResolveError>
        ensures { Gives (spec.exprs_in self.now.catalog.now asts.now levels.now before) (answer_map (λ v. v.items) result) }
    {
        let mut found = Vec::new(self.alloc);
        let mut after = before;
        'asts: for ast in asts {
            let counts = self.expr_counts(ast)?;
            let operand = self.expr(ast, levels, after)?;
            found.push(operand)?;
            after = both(after, counts)?;
        }
        Ok(found)
    }

    /// The terms of a sum.
    #[cycle(walking)]
    fn terms(
        &self,
        terms: &[(bool, Ast)],
        levels: &[Items<Entry>],
        before: Counts,
    ) -> Result<Vec<(bool, TypedExpr)>, ResolveError>
        ensures { Gives (spec.terms_in self.now.catalog.now terms.now levels.now before) (answer_map (λ v. v.items) result) }
    {
        let mut found = Vec::new(self.alloc);
        let mut after = before;
        'terms: for term in terms {
            let counts = self.expr_counts(&term.1)?;
            let operand = self.expr(&term.1, levels, after)?;
            found.push((term.0, operand))?;
            after = both(after, counts)?;
        }
        Ok(found)
    }

    /// The arms of CASE.
    #[cycle(walking)]
    fn arms(
        &self,
        arms: &[(Ast, Ast)],
        levels: &[Items<Entry>],
        before: Counts,
    ) -> Result<Vec<Arm>, ResolveError>
        ensures { Gives (spec.arms_in self.now.catalog.now arms.now levels.now before) (answer_map (λ v. v.items) result) }
    {
        let mut found = Vec::new(self.alloc);
        let mut after = before;
        'arms: for arm in arms {
            let counts = self.expr_counts(&arm.0)?;
            let before_then = both(after, counts)?;
            let counts_then = self.expr_counts(&arm.1)?;
            let when = self.expr(&arm.0, levels, after)?;
            let then = self.expr(&arm.1, levels, before_then)?;
            found.push((when, then))?;
            after = both(before_then, counts_then)?;
        }
        Ok(found)
    }

    /// The list of a condition that may be missing.
    #[cycle(walking)]
    fn cond(
        &self,
        cond: &Option<Ast>,
        levels: &[Items<Entry>],
        before: Counts,
    ) -> Result<Items<Expr>, ResolveError>
        ensures { Gives (spec.cond_in self.now.catalog.now cond.now levels.now before) result }
    {
        match cond {
            Some(ast) => {
                let operand = self.expr(ast, levels, before)?;
                let conds = condition(self.alloc, place_of(ast), operand)?;
                Ok(conds)
            }
            None => Ok(Items::new(self.alloc)),
        }
    }

    /// A select without ORDER BY, inside the outer levels.
    #[cycle(walking)]
    pub fn select(
        &self,
        select: &Select,
        outer: &[Items<Entry>],
        before: Counts,
    ) -> Result<Selection, ResolveError>
        ensures { Gives (spec.select_in self.now.catalog.now select.now outer.now before) result }
    {
        let counts = self.target_counts(select.targets.as_slice())?;
        let before_items = both(before, counts)?;
        let counts = self.item_counts(select.items.as_slice())?;
        let before_cond = both(before_items, counts)?;
        let mut entries = Items::new(self.alloc);
        let members = self.items(select.items.as_slice(), outer, &mut entries, before_items)?;
        let levels = inner_levels(self.alloc, entries.as_slice(), outer)?;
        let conds = self.cond(&select.cond, levels.as_slice(), before_cond)?;
        let outputs = self.targets(select.targets.as_slice(), levels.as_slice(), before)?;
        let tree = boxed(
            self.alloc,
            JoinTree::From {
                members,
                conds: Items::new(self.alloc),
            },
        )?;
        let Outputs { list, columns } = outputs;
        Ok(Selection {
            entries,
            outputs: list,
            columns,
            distinct: select.distinct,
            tree,
            conds,
        })
    }

    /// A FROM list: its trees, and its entries behind the earlier ones.
    #[cycle(walking)]
    fn items(
        &self,
        items: &[FromItem],
        outer: &[Items<Entry>],
        entries: &mut Items<Entry>,
        before: Counts,
    ) -> Result<Items<JoinTree>, ResolveError>
        ensures { Gives (spec.sources_behind [] entries.old (spec.items_in self.now.catalog.now items.now outer.now entries.old before)) (beside_new result entries.new) }
    {
        let mut trees = Items::new(self.alloc);
        let mut after = before;
        'items: for item in items {
            let counts = self.one_item_counts(item)?;
            let tree = self.item(item, outer, entries, after)?;
            trees.push(tree.into_inner())?;
            after = both(after, counts)?;
        }
        Ok(trees)
    }

    /// A FROM item: its tree, and its entries behind the earlier ones.
    #[cycle(walking)]
    fn item(
        &self,
        item: &FromItem,
        outer: &[Items<Entry>],
        entries: &mut Items<Entry>,
        before: Counts,
    ) -> Result<Boxed<JoinTree>, ResolveError>
        ensures { Gives (source_behind entries.old (spec.item_in self.now.catalog.now item.now outer.now entries.old before)) (beside_new result entries.new) }
    {
        match item {
            FromItem::Table { name, alias, at } => {
                let tree = table_source(
                    self.alloc,
                    self.catalog,
                    *at,
                    name,
                    alias,
                    entries,
                    before,
                )?;
                Ok(tree)
            }
            FromItem::Sub { select, alias, at } => {
                let inside = both(before, one_entry())?;
                let selection = self.select(select.get(), outer, inside)?;
                let tree = sub_source(self.alloc, *at, alias, selection, entries, before)?;
                Ok(tree)
            }
            FromItem::Join {
                kind,
                left,
                right,
                on,
                ..
            } => {
                let counts = self.one_item_counts(left.get())?;
                let before_right = both(before, counts)?;
                let counts = self.one_item_counts(right.get())?;
                let before_on = both(before_right, counts)?;
                let start = entries.len();
                let left = self.item(left.get(), outer, entries, before)?;
                let right = self.item(right.get(), outer, entries, before_right)?;
                let own = behind(entries.as_slice(), start);
                let levels = inner_levels(self.alloc, own, outer)?;
                let on = self.cond(on, levels.as_slice(), before_on)?;
                let kind = kind_of(*kind);
                let tree = boxed(
                    self.alloc,
                    JoinTree::Join {
                        kind,
                        left,
                        right,
                        on,
                    },
                )?;
                Ok(tree)
            }
        }
    }

    /// The outputs of targets.
    #[cycle(walking)]
    fn targets(
        &self,
        targets: &[Target],
        levels: &[Items<Entry>],
        before: Counts,
    ) -> Result<Outputs, ResolveError>
        ensures { Gives (outputs_behind (record { list = []; columns = [] }) (spec.all_outputs_in self.now.catalog.now targets.now levels.now before)) result }
    {
        let mut outputs = new_outputs(self.alloc);
        let mut after = before;
        'targets: for target in targets {
            let counts = self.one_target_counts(target)?;
            self.target(target, levels, &mut outputs, after)?;
            after = both(after, counts)?;
        }
        Ok(outputs)
    }

    /// The outputs of a target, behind others.
    #[cycle(walking)]
    fn target(
        &self,
        target: &Target,
        levels: &[Items<Entry>],
        outputs: &mut Outputs,
        before: Counts,
    ) -> Result<(), ResolveError>
        ensures { Gives (outputs_behind outputs.old (spec.target_in self.now.catalog.now target.now levels.now before)) (after_new result outputs.new) }
    {
        match target {
            Target::All { .. } => {
                push_level(self.alloc, outputs, levels)?;
                Ok(())
            }
            Target::AllOf { name, at } => {
                let entry = qualified_entry(*at, levels, name.as_str())?;
                push_entry(self.alloc, outputs, entry)?;
                Ok(())
            }
            Target::One { expr, alias } => {
                let operand = self.expr(expr, levels, before)?;
                let name = output_name(self.alloc, alias, expr)?;
                push_typed(self.alloc, outputs, name, operand)?;
                Ok(())
            }
        }
    }
}
