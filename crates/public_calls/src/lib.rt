//! Public calls of the crates below the program. The clauses of a call say what it answers, but
//! where it may answer that it is out of memory, a body that always does so is still proved. So
//! each such call that no run of the program makes is tried here once, with ample memory. Beside
//! them stands what no clause says: what real files and sockets do, and that a great table or line
//! takes no great time.
//!
//! The crate has tests alone, and nothing stands on it: a crate with tests is proved a second time
//! with them, so they stand here and not in the crates that they call.
#![tactic(auto)]

#[cfg(test)]
mod tests;
