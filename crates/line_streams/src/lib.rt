//! Input whose units are lines, each of which may bring an event, as a stream for the loop of
//! `stream_loop`.
//!
//! The one idea is that what lines mean is apart from how their bytes come. A [`LineEnd`] answers
//! whole lines, one after the other, by rules of its own (`specs/LineRules`): what each leaves and
//! brings, or why it is refused, and why the input may not end. A [`LineStream`] is the reading end
//! of any: it finds the line feeds in whatever pieces the bytes come, holds the bytes of the
//! unfinished line alone, and refuses more bytes than may be. So lines of documents, to be written
//! or to be kept, and lines of a history are read in the same way.
#![tactic(auto)]

mod line_end;
mod line_stream;

pub use line_end::LineEnd;
pub use line_stream::LineStream;
