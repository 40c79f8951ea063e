// What is written of a history as its lines are played.

ghost use Rattle.std.specs.Prelude.{◌≡◌};
ghost use Rattle.std.specs.Option.{option_copied};
ghost use Rattle.io_edges.specs.Puts.{Puts};
ghost use Rattle.rehearsal.specs.History.{counts_line, delivered_if, no_counts, text_of};

use crate::fault::HistoryFault;
use crate::played::Played;
use io_edges::{Sink, SinkFault};
use line_notation::{Word, put_words};
use nbfx_values::{Item, Items, Scalar, Value};
use reliable_sequence::Counts;
use stream_loop::Reporter;

/// Writes a line for each body that is delivered, and at last the counts.
#[derive(Debug, Drop)]
pub struct HistoryReporter {
    /// After the last line.
    pub counts: Counts,
}

impl HistoryReporter {
    /// A reporter before the first line.
    pub fn new() -> HistoryReporter
        ensures { result ≡ record { counts = no_counts } }
    {
        HistoryReporter {
            counts: Counts {
                submitted: 0,
                delivered: 0,
                acknowledged: 0,
            },
        }
    }
}

// The text of a body that is one text; of any other none.
fn text_of(body: &Items) -> &str
    ensures { result.now ≡ text_of body.now }
{
    match body.as_slice() {
        [Item::Text(Value::One(Scalar::Text(text)))] => text.as_str(),
        _ => "",
    }
}

// Puts the line of a body that is delivered, if there is one.
fn put_delivered<K: Sink>(body: &Option<Items>, output: &mut K) -> Result<(), SinkFault>
    ensures { Puts (K.view output.old) (K.view output.new) (delivered_if body.now) result }
{
    match body {
        None => Ok(()),
        Some(body) => put_words("delivered", &[Word::Quoted(text_of(body))], output),
    }
}

// Puts the line of the counts.
fn put_counts<K: Sink>(counts: Counts, output: &mut K) -> Result<(), SinkFault>
    ensures { Puts (K.view output.old) (K.view output.new) (counts_line counts) result }
{
    let words = [
        Word::Natural(u128::from(counts.submitted)),
        Word::Plain("delivered"),
        Word::Natural(u128::from(counts.delivered)),
        Word::Plain("acknowledged"),
        Word::Natural(u128::from(counts.acknowledged)),
    ];
    put_words("submitted", &words, output)
}

impl Reporter<Played, HistoryFault> for HistoryReporter {
    ghost use Rattle.reliable_sequence.specs.declared.events.Counts.{Counts as Numbers};
    ghost use Rattle.rehearsal.specs.History.{told};

    ghost State = { Numbers };

    ghost rules = { λ _. told };

    ghost state = { λ reporter. reporter.counts };

    fn put_event<K: Sink>(&mut self, event: &Played, output: &mut K) -> Result<(), SinkFault> {
        self.counts = event.counts;
        put_delivered(&event.body, output)
    }

    fn put_ending<K: Sink>(
        &mut self,
        refusal: &Option<HistoryFault>,
        output: &mut K,
    ) -> Result<(), SinkFault> {
        match refusal {
            None => put_counts(self.counts, output),
            Some(_) => Ok(()),
        }
    }
}
