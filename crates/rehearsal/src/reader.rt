// A reader of a history, in any pieces.
#![tactic(auto, unfolding(crate::specs::HistoryReaderState::StandsFor, crate::specs::HistoryReaderState::settings_of, crate::specs::HistoryReaderState::taken_of))]

ghost use Rattle.std.specs.Prelude.{◌≡◌, ◌<◌, ◌≤◌, ◌^◌, ℕ, List, [], Bool, false, IfOk};
ghost use Rattle.std.specs.List.{list_all};
ghost use Rattle.soap_envelope.specs.Characters.{is_white};

use crate::MOST_BYTES;
use crate::fault::HistoryFault;
use crate::played::Played;
use crate::player::Player;
use line_notation::LineKind;
use line_streams::{LineEnd, LineStream};
use std::alloc::Global;
use stream_loop::{FeedFault, ReadingEnd};
use unit_streams::Memory;

/// The lines of the history of one sequence.
#[derive(Drop)]
pub struct HistoryLines<'s> {
    /// The sequence's identifier.
    pub identifier: &'s str,
    /// Its window.
    pub window: u32,
    /// What plays the lines.
    pub player: Player,
}

impl<'s> LineEnd for HistoryLines<'s> {
    ghost use Rattle.line_streams.specs.LineRules.{each_silent};
    ghost use Rattle.rehearsal.specs.Forms.{event_of};
    ghost use Rattle.rehearsal.specs.History.{Settings as Sequence, Situation as Stand, brought, history_rules};
    ghost use Rattle.rehearsal.specs.PlayerState.{Plays, set_to};

    type Event = Played;

    type Refusal = HistoryFault;

    ghost Situation = { Stand };

    ghost Settings = { Sequence };

    ghost settings = { set_to };

    ghost rules = { history_rules };

    ghost silent = { λ x. each_silent (λ z line. brought z (event_of line)) };

    ghost is_in = { λ lines z. Plays z lines.player };

    ghost count = { λ lines. lines.player.lines };

    ghost most_lines = { 2 ^ 62 };

    fn line(&mut self, line: &[u8]) -> Result<Option<Played>, FeedFault<HistoryFault>> {
        let played = self.player.play(line)?;
        Ok(Some(played))
    }

    fn fault_at_end(&self, within_line: bool) -> Option<HistoryFault> {
        if !within_line {
            return None;
        }
        let line = self.player.lines + 1;
        let kind = LineKind::NotALine;
        Some(HistoryFault::Line { line, kind })
    }

    fn too_long(&self) -> HistoryFault {
        HistoryFault::TooLong
    }

    fn reuse(&mut self, _event: Played) {}
}

/// Reads the lines of a history, in whatever pieces their bytes come, and answers what each brings.
/// It holds the bytes of the unfinished line, both ends of the sequence, and all documents that
/// were sent between them.
#[derive(Drop)]
pub struct HistoryReader<'s> {
    stream: LineStream<HistoryLines<'s>>,
}

impl<'s> HistoryReader<'s> {
    ghost use Rattle.rehearsal.specs.HistoryReaderState.{StandsFor, settings_of};

    /// A reader before the first byte, of the history of the sequence with this identifier, which
    /// isn't blank, and this window, from 1 to 1,024. It fails without memory.
    pub fn new(alloc: Global, identifier: &'s str, window: u32) -> Result<HistoryReader<'s>, Memory>
        requires some { 0 < window }
        requires most { window ≤ 1024 }
        requires identifier { list_all is_white identifier.now ≡ false }
        ensures stands { IfOk result (λ reader. StandsFor reader []) }
        ensures settings { IfOk result (λ reader. settings_of reader
            ≡ record { identifier = identifier.entry.now; window = window }) }
    {
        let player = Player::new(alloc, identifier, window)?;
        let lines = HistoryLines {
            identifier,
            window,
            player,
        };
        Ok(HistoryReader {
            stream: LineStream::new(alloc, lines, MOST_BYTES),
        })
    }
}

impl<'s> ReadingEnd for HistoryReader<'s> {
    type Event = Played;

    type Refusal = HistoryFault;

    ghost use Rattle.rehearsal.specs.History.{Situation as Stand, history};
    ghost use Rattle.rehearsal.specs.HistoryReaderState.{StandsFor, counts_taken, settings_of, taken_of};
    ghost use Rattle.rehearsal.specs.declared.played.Played.{Played as Brought};

    ghost Situation = { Stand };

    ghost UnitOf = { List ℕ };

    ghost Completed = { Brought };

    ghost event_for = { λ played. played };

    ghost grammar = { λ reader. history (settings_of reader) };

    ghost stands = { StandsFor };

    ghost taken = { taken_of };

    ghost most = { λ reader. 1073741824 };

    ghost ends = { λ _. false };

    ghost counts = { counts_taken };

    fn feed(&mut self, piece: &[u8]) -> Result<(usize, Option<Played>), FeedFault<HistoryFault>> {
        self.stream.feed(piece)
    }

    fn end_of_input(&mut self) -> Result<(), HistoryFault> {
        self.stream.end_of_input()
    }

    fn is_end(&self, _event: &Played) -> bool {
        false
    }

    fn recycle(&mut self, event: Played) {
        self.stream.recycle(event);
    }
}
