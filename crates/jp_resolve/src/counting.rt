#![tactic(auto, using(crate::proofs::CountLaws::counting))]

ghost use Rattle.std.specs.Prelude.{◌≡◌, Ok};
ghost use Rattle.jp_resolution.specs.Answers.{Gives};
ghost use Rattle.jp_resolution.specs.Counting.{both};
ghost use Rattle.jp_resolve.specs.Walk as spec;

use jp_ast::{Ast, FromItem, Select, Target};
use jp_catalog::Catalog;
use jp_resolution::{Counts, ResolveError};
use jp_resolve_parts::{both, no_counts, one_entry, one_sublink};
use sqlite_items::Boxed;
use std::alloc::Global;

/// Resolves the parts of a statement over a catalogue.
#[derive(Clone, Copy)]
pub struct Resolver<'a> {
    pub alloc: Global,
    pub catalog: &'a Catalog,
}

impl Resolver<'_> {
    /// What stands in an expression.
    #[cycle(counting)]
    pub fn expr_counts(&self, ast: &Ast) -> Result<Counts, ResolveError>
        ensures { Gives (Ok (spec.counts_of_expr self.now.catalog.now ast.now)) result }
    {
        match ast {
            Ast::Number { .. } => Ok(no_counts()),
            Ast::Text { .. } => Ok(no_counts()),
            Ast::Bool { .. } => Ok(no_counts()),
            Ast::Null { .. } => Ok(no_counts()),
            Ast::Name { .. } => Ok(no_counts()),
            Ast::Qualified { .. } => Ok(no_counts()),
            Ast::Sign { operand, .. } => {
                let counts = self.expr_counts(operand.get())?;
                Ok(counts)
            }
            Ast::Sum { terms, .. } => {
                let counts = self.term_counts(terms.as_slice())?;
                Ok(counts)
            }
            Ast::Product { factors, .. } => {
                let counts = self.list_counts(factors.as_slice())?;
                Ok(counts)
            }
            Ast::Concat { parts, .. } => {
                let counts = self.list_counts(parts.as_slice())?;
                Ok(counts)
            }
            Ast::Compare { left, right, .. } => {
                let left = self.expr_counts(left.get())?;
                let right = self.expr_counts(right.get())?;
                let counts = both(left, right)?;
                Ok(counts)
            }
            Ast::Between {
                operand,
                low,
                high,
                ..
            } => {
                let operand = self.expr_counts(operand.get())?;
                let low = self.expr_counts(low.get())?;
                let high = self.expr_counts(high.get())?;
                let range = both(low, high)?;
                let counts = both(operand, range)?;
                Ok(counts)
            }
            Ast::InList { operand, list, .. } => {
                let operand = self.expr_counts(operand.get())?;
                let list = self.list_counts(list.as_slice())?;
                let counts = both(operand, list)?;
                Ok(counts)
            }
            Ast::InSelect {
                operand,
                select,
                ..
            } => {
                let operand = self.expr_counts(operand.get())?;
                let select = self.select_counts(select.get())?;
                let inside = both(operand, select)?;
                let counts = both(one_sublink(), inside)?;
                Ok(counts)
            }
            Ast::And { list, .. } => {
                let counts = self.list_counts(list.as_slice())?;
                Ok(counts)
            }
            Ast::Or { list, .. } => {
                let counts = self.list_counts(list.as_slice())?;
                Ok(counts)
            }
            Ast::Not { operand, .. } => {
                let counts = self.expr_counts(operand.get())?;
                Ok(counts)
            }
            Ast::Is { operand, .. } => {
                let counts = self.expr_counts(operand.get())?;
                Ok(counts)
            }
            Ast::Exists { select, .. } => {
                let select = self.select_counts(select.get())?;
                let counts = both(one_sublink(), select)?;
                Ok(counts)
            }
            Ast::Coalesce { list, .. } => {
                let counts = self.list_counts(list.as_slice())?;
                Ok(counts)
            }
            Ast::Case {
                operand,
                arms,
                otherwise,
                ..
            } => {
                let operand = self.boxed_counts(operand)?;
                let arms = self.arm_counts(arms.as_slice())?;
                let otherwise = self.boxed_counts(otherwise)?;
                let results = both(arms, otherwise)?;
                let counts = both(operand, results)?;
                Ok(counts)
            }
        }
    }

    /// What stands in a part of CASE that may be missing.
    #[cycle(counting)]
    pub fn boxed_counts(&self, part: &Option<Boxed<Ast>>) -> Result<Counts, ResolveError>
        ensures { Gives (Ok (spec.counts_of_maybe self.now.catalog.now part.now)) result }
    {
        match part {
            Some(part) => {
                let counts = self.expr_counts(part.get())?;
                Ok(counts)
            }
            None => Ok(no_counts()),
        }
    }

    /// What stands in a condition that may be missing.
    #[cycle(counting)]
    pub fn cond_counts(&self, cond: &Option<Ast>) -> Result<Counts, ResolveError>
        ensures { Gives (Ok (spec.counts_of_maybe self.now.catalog.now cond.now)) result }
    {
        match cond {
            Some(cond) => {
                let counts = self.expr_counts(cond)?;
                Ok(counts)
            }
            None => Ok(no_counts()),
        }
    }

    /// What stands in a list of expressions.
    #[cycle(counting)]
    pub fn list_counts(&self, asts: &[Ast]) -> Result<Counts, ResolveError>
        ensures { Gives (Ok (spec.counts_of_exprs self.now.catalog.now asts.now)) result }
    {
        let mut counts = no_counts();
        'asts: for ast in asts {
            let more = self.expr_counts(ast)?;
            counts = both(counts, more)?;
        }
        Ok(counts)
    }

    /// What stands in the terms of a sum.
    #[cycle(counting)]
    pub fn term_counts(&self, terms: &[(bool, Ast)]) -> Result<Counts, ResolveError>
        ensures { Gives (Ok (spec.counts_of_terms self.now.catalog.now terms.now)) result }
    {
        let mut counts = no_counts();
        'terms: for term in terms {
            let more = self.expr_counts(&term.1)?;
            counts = both(counts, more)?;
        }
        Ok(counts)
    }

    /// What stands in the arms of CASE.
    #[cycle(counting)]
    pub fn arm_counts(&self, arms: &[(Ast, Ast)]) -> Result<Counts, ResolveError>
        ensures { Gives (Ok (spec.counts_of_arms self.now.catalog.now arms.now)) result }
    {
        let mut counts = no_counts();
        'arms: for arm in arms {
            let when = self.expr_counts(&arm.0)?;
            let then = self.expr_counts(&arm.1)?;
            let more = both(when, then)?;
            counts = both(counts, more)?;
        }
        Ok(counts)
    }

    /// What stands in a select.
    #[cycle(counting)]
    pub fn select_counts(&self, select: &Select) -> Result<Counts, ResolveError>
        ensures { Gives (Ok (spec.counts_of_select self.now.catalog.now select.now)) result }
    {
        let targets = self.target_counts(select.targets.as_slice())?;
        let items = self.item_counts(select.items.as_slice())?;
        let cond = self.cond_counts(&select.cond)?;
        let lists = both(targets, items)?;
        let counts = both(lists, cond)?;
        Ok(counts)
    }

    /// What stands in targets.
    #[cycle(counting)]
    pub fn target_counts(&self, targets: &[Target]) -> Result<Counts, ResolveError>
        ensures { Gives (Ok (spec.counts_of_targets self.now.catalog.now targets.now)) result }
    {
        let mut counts = no_counts();
        'targets: for target in targets {
            let more = self.one_target_counts(target)?;
            counts = both(counts, more)?;
        }
        Ok(counts)
    }

    /// What stands in a target.
    #[cycle(counting)]
    pub fn one_target_counts(&self, target: &Target) -> Result<Counts, ResolveError>
        ensures { Gives (Ok (spec.counts_of_target self.now.catalog.now target.now)) result }
    {
        match target {
            Target::All { .. } => Ok(no_counts()),
            Target::AllOf { .. } => Ok(no_counts()),
            Target::One { expr, .. } => {
                let counts = self.expr_counts(expr)?;
                Ok(counts)
            }
        }
    }

    /// What stands in FROM items.
    #[cycle(counting)]
    pub fn item_counts(&self, items: &[FromItem]) -> Result<Counts, ResolveError>
        ensures { Gives (Ok (spec.counts_of_items self.now.catalog.now items.now)) result }
    {
        let mut counts = no_counts();
        'items: for item in items {
            let more = self.one_item_counts(item)?;
            counts = both(counts, more)?;
        }
        Ok(counts)
    }

    /// What stands in a FROM item. A chain of joins is deep on its left side, so it is walked there.
    #[cycle(counting)]
    pub fn one_item_counts(&self, item: &FromItem) -> Result<Counts, ResolveError>
        ensures { Gives (Ok (spec.counts_of_item self.now.catalog.now item.now)) result }
    {
        let mut counts = no_counts();
        let mut spine = item;
        'joins: while let FromItem::Join {
            left,
            right,
            on,
            ..
        } = spine
        {
            let right = self.one_item_counts(right.get())?;
            let on = self.cond_counts(on)?;
            let join = both(right, on)?;
            counts = both(join, counts)?;
            spine = left.get();
        }
        match spine {
            FromItem::Sub { select, .. } => {
                let select = self.select_counts(select.get())?;
                let entry = both(one_entry(), select)?;
                let whole = both(entry, counts)?;
                Ok(whole)
            }
            _ => {
                let whole = both(one_entry(), counts)?;
                Ok(whole)
            }
        }
    }
}
