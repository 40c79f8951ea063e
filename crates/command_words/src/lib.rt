//! What the program's arguments ask for: a task on sessions, with the file of the static strings and
//! quotas, or the history of a reliable sequence.
//!
//! The first word is the program's name, and isn't judged. The second is a command. The others are
//! its options, in any order and each at most once. An option and its value are two words, of
//! which the second doesn't begin with a hyphen, or one, `--name=value`, in which the value begins
//! after the first equals sign. A value isn't empty. A number is decimal digits without a leading
//! zero, or the zero alone.
//!
//! Every command but `rehearse` has `--static NAME`, which has to be there, and `--payload`, `--depth`,
//! `--dictionary`, `--content` and `--session`, each with a number. A quota that isn't given is the
//! default, and the default content is four times the payload where that is more; the quota of a
//! Via is always the default. All of these but `build` and `gen` have `--reply-payload`,
//! `--reply-depth`, `--reply-dictionary` and `--reply-content` too, for what a receiver sends; one that
//! isn't given is that of what an initiator sends, but the content goes with `--reply-payload` where
//! that is given. Quotas that aren't valid, and any other words, are not understood.
//!
//! - `check` and `dump` have `--replies` with a mode, where a receiver's stream is read, and
//!   `--encoding` with 7, 8, `msbin1` or `msbinsession1`, which is 8 where it is missing, and has no
//!   effect on an initiator's stream, whose own records name one.
//! - `build` has `--via`, which has to be there and is of at most 2,048 bytes, `--mode` with a
//!   mode, which is duplex where it is missing, and `--encoding`.
//! - `replay` has `--endpoint` with the Via that is served alone, and `--actions` with the name of
//!   a file.
//! - `serve` has these two, `--listen` with a place, which has to be there, and `--connections`
//!   with a number from 1 to 1,000,000, which is the greatest where it is missing.
//! - `call` has the options of `build`, `--connect` with a place, which has to be there, and
//!   `--second` with the name of a file.
//! - `relay` has `--listen` and `--connect` with places and `--via`, which all have to be there,
//!   `--connections` and `--endpoint` as `serve`, and `--back-static` with the name of a file.
//! - `pool` has the options of `serve`, but its `--connections` is from 1 to 1,024, which is the
//!   greatest where it is missing, and `--sessions` likewise.
//! - `gen` has `--seed` with a number below 2^64 and `--count` with one of at most 1,000,000, which
//!   both have to be there.
//! - `rehearse` has `--id` with a text, which has to be there and has a character other than white
//!   space, and `--window` with a number from 1 to 1,024, which is 32 where it is missing.
//!
//! `read` returns the one request that the arguments are, or that they aren't valid. The definitions
//! don't speak of how words are read: `specs/Options` has the options and the two ways to spell one,
//! `specs/Commands` the commands and the options of each, `specs/Values` how numbers and names are
//! written, `specs/Tasks` what there is to do, `specs/Requests` what values ask for and which words
//! are a request. The options are read by the crate `clap`. What holds by the definitions alone is
//! in `laws`.
#![tactic(auto)]

mod action;
mod described;
mod judged;
pub mod laws;
mod naming;
mod number;
mod option_name;
mod parsed;
mod quotas;
mod request;
mod task;
mod words;

pub use request::{Request, SessionRequest};
pub use task::{Detail, Opening, Origin, Rehearsal, Relaying, Serving, Task};
pub use words::{WordsFault, read};
