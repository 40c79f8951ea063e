// The event that a line says.
ghost use Rattle.std.specs.Prelude.{◌≡◌, IfOk};
ghost use Rattle.std.specs.Option.{option_copied};
ghost use Rattle.rehearsal.specs.Forms as spec;
ghost use Rattle.line_notation.specs.Quoted.{quoted_in};
ghost use Rattle.rehearsal.specs.Forms.{body_of, event_of, event_said, form_alone, form_with, keyword_in, keyword_word};
ghost use Rattle.rehearsal.specs.Reading.{Reads, event_or, submission_of, text_read};

use line_notation::{LineKind, QuoteFault, number_up_to, unquote};
use memchr::memchr;
use nbfx_values::{Item, Items, Scalar, Txt, Value};
use reliable_sequence::Event;
use std::alloc::Global;
use unit_streams::Memory;

/// The first word of a line, which is the variant's name in lower case.
#[derive(Clone, Copy, Debug, PartialEq, Eq)]
pub enum Keyword {
    /// A body is submitted.
    Submit,
    /// The last body is submitted.
    Last,
    /// The document of a number is sent.
    Send,
    /// A document that was sent arrives.
    Data,
    /// The next body is delivered.
    Deliver,
    /// An acknowledgement is sent.
    Ack,
    /// An acknowledgement that was sent arrives.
    Heard,
}

impl Keyword {
    const ALL: [Keyword; 7] = [
        Keyword::Submit,
        Keyword::Last,
        Keyword::Send,
        Keyword::Data,
        Keyword::Deliver,
        Keyword::Ack,
        Keyword::Heard,
    ];

    fn word(self) -> &'static str
        ensures { result.now ≡ keyword_word self }
    {
        match self {
            Keyword::Submit => "submit",
            Keyword::Last => "last",
            Keyword::Send => "send",
            Keyword::Data => "data",
            Keyword::Deliver => "deliver",
            Keyword::Ack => "ack",
            Keyword::Heard => "heard",
        }
    }

    // The keyword that a word is, if it is one.
    fn of(word: &[u8]) -> Option<Keyword>
        ensures { result ≡ keyword_in word.now }
    {
        Keyword::ALL
            .iter()
            .copied()
            .find(|keyword| keyword.word().as_bytes() == word)
    }
}

/// Why a line says no event.
#[derive(Clone, Copy, Debug, PartialEq, Eq)]
pub enum Stop {
    /// The line is refused.
    Bad(LineKind),
    /// Out of memory.
    Memory,
}

/// Numbers have at most ten digits.
const MOST_NUMBER: u64 = 9_999_999_999;

// The bytes before the first space, and those behind it.
fn parts(line: &[u8]) -> (&[u8], Option<&[u8]>)
    ensures { (result.0.now, option_copied result.1) ≡ spec.parts_of line.now }
{
    match memchr(b' ', line) {
        Some(at) => {
            let (word, behind) = line.split_at(at);
            (word, Some(&behind[1..]))
        }
        None => (line, None),
    }
}

// The place among what was sent that digits write.
fn place(digits: &[u8]) -> Option<u64>
    ensures { result ≡ spec.place_in digits.now }
{
    number_up_to(MOST_NUMBER, digits)
}

// The number of a body that digits write.
fn number(digits: &[u8]) -> Option<u64>
    ensures { result ≡ spec.number_in digits.now }
{
    match place(digits)? {
        0 => None,
        n => Some(n),
    }
}

// The body of one text.
fn body(alloc: Global, text: Txt) -> Result<Items, Memory>
    ensures { IfOk result (λ body. body ≡ body_of text) }
{
    let mut items = Items::new(alloc);
    items.push(Item::Text(Value::One(Scalar::Text(text))))?;
    Ok(items)
}

// The text in quotes that an argument is.
fn text(alloc: Global, argument: &[u8]) -> Result<Txt, Stop>
    ensures { Reads (text_read (quoted_in argument.now)) result }
{
    match unquote(alloc, argument) {
        Ok(text) => Ok(text),
        Err(QuoteFault::NotQuoted) => Err(Stop::Bad(LineKind::NotALine)),
        Err(QuoteFault::BadText) => Err(Stop::Bad(LineKind::BadText)),
        Err(QuoteFault::Memory) => Err(Stop::Memory),
    }
}

// The submission of the text in quotes that an argument is.
fn submitted(alloc: Global, argument: &[u8], last: bool) -> Result<Event, Stop>
    ensures { Reads (submission_of (quoted_in argument.now) last) result }
{
    let text = text(alloc, argument)?;
    match body(alloc, text) {
        Ok(body) => Ok(Event::Submit { body, last }),
        Err(_) => Err(Stop::Memory),
    }
}

// What a keyword says that stands alone.
fn alone(keyword: Keyword) -> Result<Event, Stop>
    ensures { Reads (event_said (form_alone keyword)) result }
{
    match keyword {
        Keyword::Deliver => Ok(Event::Deliver),
        Keyword::Ack => Ok(Event::SendAck),
        _ => Err(Stop::Bad(LineKind::NotALine)),
    }
}

// An event that there may be.
fn event(event: Option<Event>) -> Result<Event, Stop>
    ensures { Reads (event_or event) result }
{
    event.ok_or(Stop::Bad(LineKind::NotALine))
}

// What a keyword says with an argument.
fn with_argument(alloc: Global, keyword: Keyword, argument: &[u8]) -> Result<Event, Stop>
    ensures { Reads (event_said (form_with argument.now keyword)) result }
{
    match keyword {
        Keyword::Submit => submitted(alloc, argument, false),
        Keyword::Last => submitted(alloc, argument, true),
        Keyword::Send => event(number(argument).map(Event::Send)),
        Keyword::Data => event(place(argument).map(Event::Data)),
        Keyword::Heard => event(place(argument).map(Event::Ack)),
        Keyword::Deliver | Keyword::Ack => Err(Stop::Bad(LineKind::NotALine)),
    }
}

/// The event that a line says, which is given without its line feed. It fails where the line has no
/// form, else where its text isn't UTF-8, or without memory.
pub fn event_in(alloc: Global, line: &[u8]) -> Result<Event, Stop>
    ensures { Reads (event_of line.now) result }
{
    let (word, argument) = parts(line);
    let keyword = Keyword::of(word).ok_or(Stop::Bad(LineKind::NotALine))?;
    match argument {
        None => alone(keyword),
        Some(argument) => with_argument(alloc, keyword, argument),
    }
}
