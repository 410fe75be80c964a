#![tactic(auto, using(crate::proofs::NameLaws::naming))]

ghost use Rattle.std.specs.Prelude.{◌≡◌, Ok};
ghost use Rattle.jp_ast.specs.declared.tree.Ast.{out-Ast};
ghost use Rattle.jp_resolution.specs.Answers.{Gives};
ghost use Rattle.jp_resolution.specs.Resolving.{output_name, place_of_ast, label_of};

use jp_ast::Ast;
use jp_base::Txt;
use jp_resolution::ResolveError;
use std::alloc::Global;

/// The place of an expression's first token.
pub fn place_of(ast: &Ast) -> u32
    ensures { result ≡ place_of_ast (out-Ast ast.now) }
{
    match ast {
        Ast::Number { at, .. } => *at,
        Ast::Text { at, .. } => *at,
        Ast::Bool { at, .. } => *at,
        Ast::Null { at } => *at,
        Ast::Name { at, .. } => *at,
        Ast::Qualified { at, .. } => *at,
        Ast::Sign { at, .. } => *at,
        Ast::Sum { at, .. } => *at,
        Ast::Product { at, .. } => *at,
        Ast::Concat { at, .. } => *at,
        Ast::Compare { at, .. } => *at,
        Ast::Between { at, .. } => *at,
        Ast::InList { at, .. } => *at,
        Ast::InSelect { at, .. } => *at,
        Ast::And { at, .. } => *at,
        Ast::Or { at, .. } => *at,
        Ast::Not { at, .. } => *at,
        Ast::Is { at, .. } => *at,
        Ast::Exists { at, .. } => *at,
        Ast::Coalesce { at, .. } => *at,
        Ast::Case { at, .. } => *at,
    }
}

/// The name of an output: its alias, else the name of its column, else `?column?`.
pub fn output_name(alloc: Global, alias: &Option<Txt>, ast: &Ast) -> Result<Txt, ResolveError>
    ensures { Gives (Ok (output_name alias.now (label_of (out-Ast ast.now)))) result }
{
    if let Some(alias) = alias {
        let name = alias.copy(alloc)?;
        return Ok(name);
    }
    match ast {
        Ast::Name { name, .. } => {
            let name = name.copy(alloc)?;
            Ok(name)
        }
        Ast::Qualified { name, .. } => {
            let name = name.copy(alloc)?;
            Ok(name)
        }
        _ => {
            let name = Txt::new(alloc, "?column?")?;
            Ok(name)
        }
    }
}
