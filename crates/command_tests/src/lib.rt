//! Service: which messages are refused, and what the others ask for, in rows.
#![tactic(auto)]

#[cfg(test)]
mod tests;
