//! Tests of resolution over the whole language, from text to query, over public calls alone.
#![tactic(auto)]

#[cfg(test)]
mod cases;
#[cfg(test)]
mod verdicts;
