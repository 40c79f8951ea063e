//! Services, and what a server answers a request with.
//!
//! The one idea: a service is a function of a request's action and the content of its Body, and an
//! answer is a function of the request's document and that function. `answered` of
//! `specs/Answers.antt` has its cases in the order in which a request is judged by SOAP 1.2 and
//! WS-Addressing, in whose version the request is, 1.0 or that of August 2004, and
//! `specs/Refusals.antt` has the fault of each reason not to serve one. `answer` and `answer_owned`
//! are proved to give it, or to say that it is larger than may be sent: what it copies of Body or
//! of a file, and the names in a fault, are measured before they are copied.
//!
//! There are two services: `EchoService` gives the content of Body back, and `TableService` gives
//! the text that a file has for the action (`specs/Actions.antt`).
#![tactic(auto)]

mod actions;
mod answers;
mod dispatch;
mod echo;
mod fault;
mod judging;
pub mod laws;
mod planning;
mod refusals;
mod service;
mod table;

pub use answers::{Answer, Measured};
pub use dispatch::{answer, answer_owned};
pub use echo::EchoService;
pub use fault::{ActionFault, ActionKind};
pub use refusals::unfit_doc;
pub use service::{BodyUse, Served, Service};
pub use table::TableService;
