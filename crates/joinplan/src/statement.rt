ghost use Rattle.std.specs.Prelude.{◌≡◌, ◌≤◌, IfErr, IfOk, [], length, true};
ghost use Rattle.jp_base.specs.Answers.{OrMemory};
ghost use Rattle.jp_query.specs.Conditions.{IsBounded, IsTyped};
ghost use Rattle.jp_query.specs.Freshness.{IsFresh};
ghost use Rattle.jp_resolution.specs.Schemas.{schema_of};
ghost use Rattle.jp_statements.specs.Whole.{is_whole};
ghost use Rattle.joinplan.specs.Answers.{query_of, statement_of};
ghost use Rattle.joinplan.specs.Refusals.{IsOfStatement};
ghost use Rattle.joinplan.specs.declared.refusal.Refusal.TheVariants as refusal;

use crate::refusal::Refusal;
use jp_ast::Stmt;
use jp_catalog::Catalog;
use jp_lex::{each_source_is_cut_as_answered, tokens};
use jp_parse::parse;
use jp_query::Query;
use jp_resolve::resolve;
use std::alloc::Global;

/// The statement of a source, or the first refusal of its tokens, its nesting or its grammar.
pub fn statement_of(alloc: Global, source: &[u8]) -> Result<Stmt, Refusal>
    requires { length source.now ≤ 65536 }
    ensures given { OrMemory refusal.Memory (statement_of source.now) result }
    ensures own { IfErr result IsOfStatement }
    ensures whole { IfOk result (λ s. is_whole s ≡ true) }
{
    each_source_is_cut_as_answered();
    let tokens = match tokens(alloc, source) {
        Ok(tokens) => tokens,
        Err(error) => return Err(Refusal::from(error)),
    };
    match parse(alloc, tokens.as_slice()) {
        Ok(stmt) => Ok(stmt),
        Err(error) => Err(Refusal::from(error)),
    }
}

/// The query of a statement over a catalogue, or the first refusal of its names and types.
pub fn query_of(alloc: Global, catalog: &Catalog, stmt: &Stmt) -> Result<Query, Refusal>
    requires { is_whole stmt.now ≡ true }
    ensures given { OrMemory refusal.Memory (query_of catalog.now stmt.now) result }
    ensures own { IfErr result IsOfStatement }
    ensures typed { IfOk result (IsTyped (schema_of catalog.now) []) }
    ensures bounded { IfOk result (IsBounded (schema_of catalog.now) []) }
    ensures fresh { IfOk result IsFresh }
{
    match resolve(alloc, catalog, stmt) {
        Ok(query) => Ok(query),
        Err(error) => Err(Refusal::from(error)),
    }
}
