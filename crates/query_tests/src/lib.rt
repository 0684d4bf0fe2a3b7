//! Query: what the clauses of this shelf's crates do not say, in rows. A crate that has its tests within it is proved twice, so they stand here.
#![tactic(auto)]

#[cfg(test)]
mod tests;
