//! Tests of the tokens of a source and of the grammar, over public calls alone.
#![tactic(auto)]

#[cfg(test)]
mod cases;
#[cfg(test)]
mod nesting;
#[cfg(test)]
mod shown;
#[cfg(test)]
mod statements;
#[cfg(test)]
mod token_cases;
#[cfg(test)]
mod tokens_cut;
