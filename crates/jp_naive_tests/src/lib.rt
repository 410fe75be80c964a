//! Tests of the slow evaluator over public calls alone: what small queries give.
#![tactic(auto)]

#[cfg(test)]
mod queries;
#[cfg(test)]
mod rows;
