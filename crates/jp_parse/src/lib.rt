//! The grammar of statements: the reader that makes a syntax tree of the tokens of a source.
#![tactic(auto)]

mod atoms;
mod from;
mod grammar;
mod laws;
mod levels;
mod parts;
mod select;
mod whole;

pub use jp_ast::{
    Ast, CmpWord, FromItem, IsWord, JoinWord, OrderAst, ParseError, Select, Stmt, Target,
};
pub use laws::{
    content_is_that_of_the_form, each_list_has_one_answer, each_list_is_read_as_it_derives,
};
pub use whole::parse;
