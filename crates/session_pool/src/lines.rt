//! The lines of connections that were served at once.

ghost use Rattle.std.specs.Prelude.{◌≡◌, OnOk, [], length};
ghost use Rattle.io_edges.specs.Puts.{Puts};
ghost use Rattle.session_pool.specs.Turns.{last_of};
ghost use Rattle.session_pool.specs.PoolLines.{answers_of, counts_line, end_word, ended_word};
ghost use Rattle.session_pool.specs.PoolLines.{messages_of, pool_line, pool_lines};

use crate::turns::{Turns, TurnsEnd};
use duplex_server::{Inbound, Outbound, Outcome};
use io_edges::{Sink, SinkFault};
use line_notation::{Word, put_joined, put_labelled, put_plain};

// How many documents were read in sessions, and how many answers were put.
fn counts_of(outcomes: &[Outcome]) -> (u128, u128)
    ensures messages { result.0 ≡ messages_of outcomes.now }
    ensures answers { result.1 ≡ answers_of outcomes.now }
{
    let mut messages: u128 = 0;
    let mut answers: u128 = 0;
    for outcome in outcomes {
        messages = messages.saturating_add(u128::from(outcome.messages));
        answers = answers.saturating_add(u128::from(outcome.answers));
    }
    (messages, answers)
}

// The last of outcomes, where there is one.
fn last_of(outcomes: &[Outcome]) -> Option<Outcome>
    ensures { result ≡ last_of outcomes.now }
{
    match outcomes {
        [.., last] => Some(*last),
        [] => None,
    }
}

// Puts how the last session of a connection ended.
fn put_last<K: Sink>(outcome: Outcome, output: &mut K) -> Result<(), SinkFault>
    ensures { Puts (K.view output.old) (K.view output.new) (ended_word outcome outcome.outbound)
        result }
{
    match outcome.outbound {
        Outbound::WriteFault => return put_plain("write-fault", output),
        Outbound::Memory => return put_plain("memory", output),
        Outbound::Done => {}
    }
    match outcome.inbound {
        Inbound::Ended => put_plain("ended", output),
        Inbound::Offended(offence) => {
            put_labelled("offence-", u64::from(offence.reason.number()), output)
        }
        Inbound::ReadFault => put_plain("read-fault", output),
        Inbound::Memory => put_plain("memory", output),
    }
}

// Puts why no more sessions of a connection were served.
fn put_end<K: Sink>(turns: &Turns, output: &mut K) -> Result<(), SinkFault>
    ensures { Puts (K.view output.old) (K.view output.new) (end_word turns.now turns.now.end)
        result }
{
    match turns.end {
        TurnsEnd::Done => put_plain("done", output),
        TurnsEnd::Most => put_plain("most", output),
        TurnsEnd::Stopped => match last_of(turns.outcomes.as_slice()) {
            Some(outcome) => put_last(outcome, output),
            None => put_plain("", output),
        },
        TurnsEnd::ReadFault => put_plain("read-fault", output),
        TurnsEnd::Memory => put_plain("memory", output),
    }
}

// Puts the number of a connection and what its sessions counted.
fn put_counts<K: Sink>(number: u64, turns: &Turns, output: &mut K) -> Result<(), SinkFault>
    ensures { Puts (K.view output.old) (K.view output.new)
        (counts_line number (length turns.now.outcomes) (messages_of turns.now.outcomes)
        (answers_of turns.now.outcomes)) result }
{
    let outcomes = turns.outcomes.as_slice();
    let (messages, answers) = counts_of(outcomes);
    let words = [
        Word::Plain("connection "),
        Word::Natural(u128::from(number)),
        Word::Plain(" sessions "),
        Word::Natural(outcomes.len() as u128),
        Word::Plain(" messages "),
        Word::Natural(messages),
        Word::Plain(" answers "),
        Word::Natural(answers),
        Word::Plain(" end "),
    ];
    put_joined(&words, output)
}

// Puts the line of the connection with this number.
fn put_line<K: Sink>(number: u64, turns: &Turns, output: &mut K) -> Result<(), SinkFault>
    ensures { Puts (K.view output.old) (K.view output.new) (pool_line number turns.now) result }
{
    put_counts(number, turns, output)?;
    put_end(turns, output)?;
    put_plain("\n", output)
}

/// Puts the lines of connections, numbered from 0, and writes what the output holds. It fails as
/// the output does.
pub fn put_lines<K: Sink>(list: &[Turns], output: &mut K) -> Result<(), SinkFault>
    ensures puts { Puts (K.view output.old) (K.view output.new) (pool_lines 0 list.now) result }
    ensures emptied { OnOk result ((K.view output.new).held ≡ []) }
{
    let mut number: u64 = 0;
    for turns in list {
        put_line(number, turns, output)?;
        number += 1;
    }
    output.flush()
}
