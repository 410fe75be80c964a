//! Lemmas that several crates need and that speak of no type of this repository: members of lists, and lists that hold each
//! member once. There is no code here; the proofs of other crates cite `proofs/`.
#![tactic(auto)]
