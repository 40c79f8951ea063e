//! The string tables of MC-NBFS and MC-NBFSE: what an identifier names. An even one names a static
//! string, which both ends know from the start, and 2i + 1 names string i of the session, of those
//! that one direction brought.
//!
//! The one idea is that a table is plain data, a finite map and a list (`specs/StringTable`). Its
//! two halves have files of their own: `specs/StaticStrings` the map, and `specs/SessionStrings`
//! the list, with what its strings cost. In each half and in both, a function looks an identifier
//! up, and another gives the least identifier of a text. `laws` has what holds of them.
#![tactic(auto)]

pub mod laws;
