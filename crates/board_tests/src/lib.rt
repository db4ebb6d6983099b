//! Tests of the board, step by step, of what no clause says: they have a crate of their own, since a crate with tests
//! is proved twice.
#![tactic(auto)]

#[cfg(test)]
mod tests;
