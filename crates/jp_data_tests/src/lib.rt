//! Tests of catalogues and of tables, over public calls alone.
#![tactic(auto)]

#[cfg(test)]
mod catalogue_cases;
#[cfg(test)]
mod catalogues;
#[cfg(test)]
mod table_cases;
#[cfg(test)]
mod tables;
