// The commands, and the options of each.
ghost use Rattle.std.specs.Prelude.{◌≡◌, ◌≢◌, IfNone, IfSome};
ghost use Rattle.command_words.specs.Commands.{options_of, word_of};

use crate::option_name::OptionName;

/// A command of the program.
#[derive(Clone, Copy, Debug, PartialEq, Eq)]
pub enum Action {
    /// `check`: reads a stream and reports it.
    Check,
    /// `dump`: reads a stream, reports it, and prints its documents.
    Dump,
    /// `build`: writes documents as a session.
    Build,
    /// `replay`: answers a stream as a server.
    Replay,
    /// `serve`: answers connections as a server.
    Serve,
    /// `call`: calls a server.
    Call,
    /// `relay`: joins the sessions of peers with sessions of a server.
    Relay,
    /// `pool`: answers connections as a server, all at once.
    Pool,
    /// `gen`: makes documents, and reads them from their session.
    Gen,
    /// `rehearse`: plays the history of a reliable sequence.
    Rehearse,
}

// The options of a command on sessions: its own, and then those of every such command.
macro_rules! options {
    ($($own:ident),+) => {
        [
            $(OptionName::$own,)+
            OptionName::Static,
            OptionName::Payload,
            OptionName::Depth,
            OptionName::Dictionary,
            OptionName::Content,
            OptionName::Session,
        ]
    };
}

// The same, of a command on what both ends of a session send.
macro_rules! two_way_options {
    ($($own:ident),+) => {
        options![$($own,)+ ReplyPayload, ReplyDepth, ReplyDictionary, ReplyContent]
    };
}

static READING: [OptionName; 12] = two_way_options![Replies, Encoding];

static BUILDING: [OptionName; 9] = options![Via, Mode, Encoding];

static REPLAYING: [OptionName; 12] = two_way_options![Endpoint, Actions];

static SERVING: [OptionName; 14] = two_way_options![Listen, Connections, Endpoint, Actions];

static CALLING: [OptionName; 15] = two_way_options![Connect, Via, Mode, Encoding, Second];

static RELAYING: [OptionName; 16] = two_way_options![
    Listen,
    Connect,
    Via,
    BackStatic,
    Connections,
    Endpoint
];

static POOLING: [OptionName; 15] = two_way_options![
    Listen,
    Connections,
    Sessions,
    Endpoint,
    Actions
];

static GENERATING: [OptionName; 8] = options![Seed, Count];

static REHEARSING: [OptionName; 2] = [OptionName::Id, OptionName::Window];

/// The command that a word names; None where it names none.
pub fn action_of(word: &str) -> Option<Action>
    ensures named { IfSome result (λ action. word.now ≡ word_of action) }
    ensures unknown { IfNone result ((action : Action) → word.now ≢ word_of action) }
{
    match word {
        "check" => Some(Action::Check),
        "dump" => Some(Action::Dump),
        "build" => Some(Action::Build),
        "replay" => Some(Action::Replay),
        "serve" => Some(Action::Serve),
        "call" => Some(Action::Call),
        "relay" => Some(Action::Relay),
        "pool" => Some(Action::Pool),
        "gen" => Some(Action::Gen),
        "rehearse" => Some(Action::Rehearse),
        _ => None,
    }
}

/// The word that names a command.
pub fn word_of(action: Action) -> &'static str
    ensures { result.now ≡ word_of action }
{
    match action {
        Action::Check => "check",
        Action::Dump => "dump",
        Action::Build => "build",
        Action::Replay => "replay",
        Action::Serve => "serve",
        Action::Call => "call",
        Action::Relay => "relay",
        Action::Pool => "pool",
        Action::Gen => "gen",
        Action::Rehearse => "rehearse",
    }
}

/// The options that a command has.
pub fn options_of(action: Action) -> &'static [OptionName]
    ensures { result.now ≡ options_of action }
{
    match action {
        Action::Check | Action::Dump => READING.as_slice(),
        Action::Build => BUILDING.as_slice(),
        Action::Replay => REPLAYING.as_slice(),
        Action::Serve => SERVING.as_slice(),
        Action::Call => CALLING.as_slice(),
        Action::Relay => RELAYING.as_slice(),
        Action::Pool => POOLING.as_slice(),
        Action::Gen => GENERATING.as_slice(),
        Action::Rehearse => REHEARSING.as_slice(),
    }
}
