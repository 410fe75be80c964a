//! Tests of special joins, joinable sets and steps on small trees, over public calls alone.
#![tactic(auto)]

#[cfg(test)]
mod build;
#[cfg(test)]
mod compare;
#[cfg(test)]
mod sizes;
#[cfg(test)]
mod table;
#[cfg(test)]
mod trees;
