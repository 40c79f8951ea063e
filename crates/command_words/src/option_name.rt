// The options by name.
ghost use Rattle.std.specs.Prelude.{◌≡◌};
ghost use Rattle.command_words.specs.Options.{option_text};

/// An option of a command: `--` and the variant's words in lower case, with a hyphen between them.
#[derive(Clone, Copy, Debug, PartialEq, Eq)]
pub enum OptionName {
    /// The file of the static strings.
    Static,
    /// The mode of a session whose replies are read.
    Replies,
    /// The Via of a session that is opened.
    Via,
    /// The mode of a session that is opened.
    Mode,
    /// The encoding of a session's envelopes.
    Encoding,
    /// The place where connections are accepted: a host and a port.
    Listen,
    /// How many connections are accepted.
    Connections,
    /// The place that is connected to: a host and a port.
    Connect,
    /// The file of a second list of documents.
    Second,
    /// The file of the static strings of the session that is opened.
    BackStatic,
    /// How many sessions of a connection are answered.
    Sessions,
    /// The number that determines the documents that are made.
    Seed,
    /// How many documents are made.
    Count,
    /// The identifier of a sequence.
    Id,
    /// How far numbers of a sequence may be ahead.
    Window,
    /// The only Via that is served.
    Endpoint,
    /// The file that has the reply's text for each action.
    Actions,
    /// The quota on the bytes of an envelope's payload.
    Payload,
    /// The quota on open elements.
    Depth,
    /// The quota on the cost of session strings.
    Dictionary,
    /// The quota on a document's content.
    Content,
    /// The quota on the bytes of a session.
    Session,
    /// The quota on the bytes of an envelope's payload that the receiver sends.
    ReplyPayload,
    /// The quota on open elements of what the receiver sends.
    ReplyDepth,
    /// The quota on the cost of session strings that the receiver sends.
    ReplyDictionary,
    /// The quota on the content of a document that the receiver sends.
    ReplyContent,
}

/// What stands after the two hyphens of an option.
pub fn option_text(option: OptionName) -> &'static str
    ensures { result.now ≡ option_text option }
{
    match option {
        OptionName::Static => "static",
        OptionName::Replies => "replies",
        OptionName::Via => "via",
        OptionName::Mode => "mode",
        OptionName::Encoding => "encoding",
        OptionName::Listen => "listen",
        OptionName::Connections => "connections",
        OptionName::Connect => "connect",
        OptionName::Second => "second",
        OptionName::BackStatic => "back-static",
        OptionName::Sessions => "sessions",
        OptionName::Seed => "seed",
        OptionName::Count => "count",
        OptionName::Id => "id",
        OptionName::Window => "window",
        OptionName::Endpoint => "endpoint",
        OptionName::Actions => "actions",
        OptionName::Payload => "payload",
        OptionName::Depth => "depth",
        OptionName::Dictionary => "dictionary",
        OptionName::Content => "content",
        OptionName::Session => "session",
        OptionName::ReplyPayload => "reply-payload",
        OptionName::ReplyDepth => "reply-depth",
        OptionName::ReplyDictionary => "reply-dictionary",
        OptionName::ReplyContent => "reply-content",
    }
}
