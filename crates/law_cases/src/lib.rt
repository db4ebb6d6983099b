//! Worked cases of laws, in `proofs/`: of each relation an instance that it has, and a step of a
//! wrong kernel that it refuses. Nothing here runs.
#![tactic(auto)]
