//! Connections that carry one session behind the other, many of them served at once.
//!
//! The one idea: initiators keep their connections, as WCF's pools of connections do, and begin the
//! next session right behind the End of the last one. So a connection is a list of sessions, each
//! with strings of its own, and what is owed for its bytes is what is owed for the first session
//! and then what is owed for those behind it (`specs/OwedTurns.antt`). [`serve_turns`] serves them
//! in turn; `specs/Turns.antt` says what of each session's bytes was read and answered, and why no
//! more were served.
//!
//! [`pool`] accepts connections as they come and serves each by [`serve_turns`] on a thread of its
//! own (`specs/Pooling.antt`). What happens on a connection stays on it. Where a thread can't be
//! started the connection is served by the caller, and those that follow wait. That threads run at
//! once, and when, isn't promised. [`pool_connections`] writes a line of each connection when all
//! are served (`specs/PoolLines.antt`).
#![tactic(auto)]

mod lines;
mod pooling;
mod reporting;
mod serving;
mod threads;
mod turning;
mod turns;

pub use pooling::{PoolReport, PoolWire, TurnsList, pool};
pub use reporting::pool_connections;
pub use serving::serve_turns;
pub use turns::{Outcomes, Turns, TurnsEnd};
