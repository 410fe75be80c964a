//! Tests of sessions over public calls alone: the text of rows.
#![tactic(auto)]

#[cfg(test)]
mod output;
