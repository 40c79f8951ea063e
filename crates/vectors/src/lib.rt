//! Worked rows as data, in tables: streams, documents and words, each run through the whole program
//! (`run` of `dump_replay`) over ends in memory, in one piece and in small ones. The crate has tests
//! alone, and nothing stands on it.
#![tactic(auto)]

#[cfg(test)]
mod tests;
