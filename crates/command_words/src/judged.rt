// What the values of options mean.
ghost use Rattle.std.specs.Prelude.{◌≡◌, ◌≤◌, ◌↔◌, IfNone, IfSome, IsTrue, length};
ghost use Rattle.clap.specs.declared.parser.matches.ArgMatches.{ArgMatches};
ghost use Rattle.nbfx_values.specs.Limits.{usual_limits};
ghost use Rattle.nbfx_values.specs.QuotasOf.{limits_of};
ghost use Rattle.command_words.specs.WordAnswers.{found_values};
ghost use Rattle.command_words.specs.Values as spec;
ghost use Rattle.command_words.specs.Values.{text_behind};
ghost use Rattle.command_words.specs.Asking.{asked_of, opening_of, rehearsal_of, serving_of, session_of, task_of};
ghost use Rattle.command_words.specs.Requests.{AskFor, AskForSessions, AskForTask, AskToBuild, AskToCall, AskToGenerate, AskToPool, AskToRehearse, AskToRelay, AskToReport, AskToServe, Asked, AskedOfSessions, IsOpening, IsOrigin, serving_in};
ghost use Rattle.command_words.specs.Tasks.{Opening as AskedOpening, Rehearsal as AskedRehearsal, Task as AskedTask};

use crate::action::Action;
use crate::naming::{encoding_in, mode_in, mode_named};
use crate::number::{number_in, number_within};
use crate::option_name::OptionName;
use crate::parsed::given_for;
use crate::quotas::quotas_of;
use crate::request::{Request, SessionRequest};
use crate::task::{Detail, Opening, Origin, Rehearsal, Relaying, Serving, Task};
use clap::ArgMatches;
use nbfx_values::{Kind, Quotas};

/// How many connections are accepted at most, and where no number is given.
const MOST_CONNECTIONS: u32 = 1_000_000;

/// How many connections are answered at once at most, and where no number is given.
const MOST_AT_ONCE: u32 = 1_024;

/// The same of the sessions of one connection.
const MOST_IN_TURN: u32 = 1_024;

/// How many documents are made at most.
const MOST_DOCUMENTS: u32 = 1_000_000;

/// How far the numbers of a sequence may be ahead at most, and where no number is given.
const MOST_WINDOW: u32 = 1_024;

const USUAL_WINDOW: u32 = 32;

// The end of a session whose stream is to be read.
fn origin_in(replies: Option<&str>, kind: Kind) -> Option<Origin>
    ensures said { IfSome result (IsOrigin (text_behind replies.entry) kind) }
    ensures none { IfNone result ((origin : Origin)
        → ¬ IsOrigin (text_behind replies.entry) kind origin) }
{
    let Some(name) = replies else {
        return Some(Origin::Initiator);
    };
    let mode = mode_named(name)?;
    Some(Origin::Receiver { mode, kind })
}

// The report that the values ask for.
fn report_in<'w>(detail: Detail, matches: &ArgMatches<'w>) -> Option<Task<'w>>
    ensures meant { IfSome result
        (λ task. AskToReport detail (found_values matches.now) (task_of task)) }
    ensures none { IfNone result ((task : AskedTask)
        → ¬ AskToReport detail (found_values matches.now) task) }
{
    let encoding = encoding_in(given_for(matches, OptionName::Encoding))?;
    let replies = given_for(matches, OptionName::Replies);
    let origin = origin_in(replies, encoding.kind())?;
    Some(Task::Report { detail, origin })
}

// Whether a Via is within its quota.
fn is_short(via: &str) -> bool
    ensures { IsTrue result ↔ (length via.now ≤ usual_limits.via) }
{
    via.len() <= Quotas::usual().via as usize
}

// How a session is to be opened.
fn opening_in<'w>(matches: &ArgMatches<'w>) -> Option<Opening<'w>>
    ensures opens { IfSome result
        (λ opening. IsOpening (found_values matches.now) (opening_of opening)) }
    ensures none { IfNone result ((opening : AskedOpening)
        → ¬ IsOpening (found_values matches.now) opening) }
{
    let via = given_for(matches, OptionName::Via)?;
    if !is_short(via) {
        return None;
    }
    let mode = mode_in(given_for(matches, OptionName::Mode))?;
    let encoding = encoding_in(given_for(matches, OptionName::Encoding))?;
    Some(Opening {
        via,
        mode,
        encoding,
    })
}

// The writing of a session that the values ask for.
fn build_in<'w>(matches: &ArgMatches<'w>) -> Option<Task<'w>>
    ensures meant { IfSome result (λ task. AskToBuild (found_values matches.now) (task_of task)) }
    ensures none { IfNone result ((task : AskedTask)
        → ¬ AskToBuild (found_values matches.now) task) }
{
    Some(Task::Build(opening_in(matches)?))
}

// How sessions are to be served.
fn serving_in<'w>(matches: &ArgMatches<'w>) -> Serving<'w>
    ensures { serving_of result ≡ serving_in (found_values matches.now) }
{
    Serving {
        endpoint: given_for(matches, OptionName::Endpoint),
        actions: given_for(matches, OptionName::Actions),
    }
}

// The answering of connections that the values ask for.
fn serve_in<'w>(matches: &ArgMatches<'w>) -> Option<Task<'w>>
    ensures meant { IfSome result (λ task. AskToServe (found_values matches.now) (task_of task)) }
    ensures none { IfNone result ((task : AskedTask)
        → ¬ AskToServe (found_values matches.now) task) }
{
    let listen = given_for(matches, OptionName::Listen)?;
    let number = given_for(matches, OptionName::Connections);
    let connections = number_within(number, MOST_CONNECTIONS, 1, MOST_CONNECTIONS)?;
    let serving = serving_in(matches);
    Some(Task::Serve {
        listen,
        connections,
        serving,
    })
}

// The call of a server that the values ask for.
fn call_in<'w>(matches: &ArgMatches<'w>) -> Option<Task<'w>>
    ensures meant { IfSome result (λ task. AskToCall (found_values matches.now) (task_of task)) }
    ensures none { IfNone result ((task : AskedTask)
        → ¬ AskToCall (found_values matches.now) task) }
{
    let connect = given_for(matches, OptionName::Connect)?;
    let opening = opening_in(matches)?;
    let second = given_for(matches, OptionName::Second);
    Some(Task::Call {
        connect,
        opening,
        second,
    })
}

// The joining of sessions that the values ask for.
fn relay_in<'w>(matches: &ArgMatches<'w>) -> Option<Task<'w>>
    ensures meant { IfSome result (λ task. AskToRelay (found_values matches.now) (task_of task)) }
    ensures none { IfNone result ((task : AskedTask)
        → ¬ AskToRelay (found_values matches.now) task) }
{
    let listen = given_for(matches, OptionName::Listen)?;
    let connect = given_for(matches, OptionName::Connect)?;
    let via = given_for(matches, OptionName::Via)?;
    if !is_short(via) {
        return None;
    }
    let number = given_for(matches, OptionName::Connections);
    let connections = number_within(number, MOST_CONNECTIONS, 1, MOST_CONNECTIONS)?;
    Some(Task::Relay(Relaying {
        listen,
        connect,
        via,
        back_statics: given_for(matches, OptionName::BackStatic),
        connections,
        endpoint: given_for(matches, OptionName::Endpoint),
    }))
}

// The answering of connections at once that the values ask for.
fn pool_in<'w>(matches: &ArgMatches<'w>) -> Option<Task<'w>>
    ensures meant { IfSome result (λ task. AskToPool (found_values matches.now) (task_of task)) }
    ensures none { IfNone result ((task : AskedTask)
        → ¬ AskToPool (found_values matches.now) task) }
{
    let listen = given_for(matches, OptionName::Listen)?;
    let number = given_for(matches, OptionName::Connections);
    let connections = number_within(number, MOST_AT_ONCE, 1, MOST_AT_ONCE)?;
    let turns = given_for(matches, OptionName::Sessions);
    let sessions = number_within(turns, MOST_IN_TURN, 1, MOST_IN_TURN)?;
    Some(Task::Pool {
        listen,
        connections,
        sessions,
        serving: serving_in(matches),
    })
}

// The making of documents that the values ask for.
fn generate_in<'w>(matches: &ArgMatches<'w>) -> Option<Task<'w>>
    ensures meant { IfSome result
        (λ task. AskToGenerate (found_values matches.now) (task_of task)) }
    ensures none { IfNone result ((task : AskedTask)
        → ¬ AskToGenerate (found_values matches.now) task) }
{
    let seed = number_in(given_for(matches, OptionName::Seed)?)?;
    let count = given_for(matches, OptionName::Count)?;
    let count = number_within(Some(count), 0, 0, MOST_DOCUMENTS)?;
    Some(Task::Generate { seed, count })
}

// What the values ask a command to do.
fn task_in<'w>(action: Action, matches: &ArgMatches<'w>) -> Option<Task<'w>>
    ensures meant { IfSome result
        (λ task. AskForTask action (found_values matches.now) (task_of task)) }
    ensures none { IfNone result ((task : AskedTask)
        → ¬ AskForTask action (found_values matches.now) task) }
{
    match action {
        Action::Check => report_in(Detail::Summary, matches),
        Action::Dump => report_in(Detail::Whole, matches),
        Action::Build => build_in(matches),
        Action::Replay => Some(Task::Replay(serving_in(matches))),
        Action::Serve => serve_in(matches),
        Action::Call => call_in(matches),
        Action::Relay => relay_in(matches),
        Action::Pool => pool_in(matches),
        Action::Gen => generate_in(matches),
        Action::Rehearse => None,
    }
}

// Whether a text has white space alone.
fn is_blank(text: &str) -> bool
    ensures { result ≡ spec.is_blank text.now }
{
    text.as_bytes()
        .iter()
        .all(|c| matches!(*c, b' ' | b'\t' | b'\n' | b'\r'))
}

// The sequence whose history the values ask for.
fn rehearsal_in<'w>(matches: &ArgMatches<'w>) -> Option<Rehearsal<'w>>
    ensures meant { IfSome result
        (λ sequence. AskToRehearse (found_values matches.now) (rehearsal_of sequence)) }
    ensures none { IfNone result ((asked : AskedRehearsal)
        → ¬ AskToRehearse (found_values matches.now) asked) }
{
    let id = given_for(matches, OptionName::Id)?;
    if is_blank(id) {
        return None;
    }
    let number = given_for(matches, OptionName::Window);
    let window = number_within(number, USUAL_WINDOW, 1, MOST_WINDOW)?;
    Some(Rehearsal { id, window })
}

// What the values ask of a command on sessions.
fn session_in<'w>(action: Action, matches: &ArgMatches<'w>) -> Option<SessionRequest<'w>>
    ensures meant { IfSome result (λ request.
        AskForSessions action (found_values matches.now) (session_of request)) }
    ensures none { IfNone result ((asked : AskedOfSessions)
        → ¬ AskForSessions action (found_values matches.now) asked) }
{
    let statics = given_for(matches, OptionName::Static)?;
    let quotas = quotas_of(matches)?;
    let task = task_in(action, matches)?;
    Some(SessionRequest {
        statics,
        quotas,
        task,
    })
}

/// What the values of its options ask of a command; None where one of them isn't valid.
pub fn judged<'w>(action: Action, matches: &ArgMatches<'w>) -> Option<Request<'w>>
    ensures meant { IfSome result (λ request.
        AskFor action (found_values matches.now) (asked_of request)) }
    ensures none { IfNone result ((asked : Asked)
        → ¬ AskFor action (found_values matches.now) asked) }
{
    match action {
        Action::Rehearse => Some(Request::Rehearse(rehearsal_in(matches)?)),
        action => Some(Request::Sessions(session_in(action, matches)?)),
    }
}
