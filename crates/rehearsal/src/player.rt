// A world that goes on line by line.
ghost use Rattle.std.specs.Prelude.{◌≡◌, ◌≤◌, ◌+◌, ◌<◌, ◌^◌, IfOk, false};
ghost use Rattle.reliable_sequence.specs.Rehearsal.{nothing_kept};
ghost use Rattle.soap_envelope.specs.Characters.{is_white};
ghost use Rattle.std.specs.List.{list_all};
ghost use Rattle.rehearsal.specs.History.{submitted_in};

use crate::fault::HistoryFault;
use crate::line::{Stop, event_in};
use crate::played::Played;
use reliable_sequence::World;
use std::alloc::Global;
use stream_loop::FeedFault;
use unit_streams::Memory;

/// Plays whole lines, one after the other. Out of memory, its world is gone.
#[derive(Drop)]
pub struct Player {
    alloc: Global,
    pub world: Option<World>,
    pub lines: u64,
    ghost few: { submitted_in world ≤ lines },
    ghost low: { lines ≤ 2 ^ 62 },
}

impl Player {
    ghost use Rattle.rehearsal.specs.History.{Situation};
    ghost use Rattle.rehearsal.specs.PlayerState.{Plays, PlaysLine};

    /// The player of a new world. It fails without memory for it.
    pub fn new(alloc: Global, identifier: &str, window: u32) -> Result<Player, Memory>
        requires some { 0 < window }
        requires most { window ≤ 1024 }
        requires identifier { list_all is_white identifier.now ≡ false }
        ensures { IfOk result (λ player. Plays (record {
          kept = nothing_kept identifier.now window;
          lines = 0;
        }) player) }
    {
        let world = World::new(alloc, identifier, window)?;
        Ok(Player {
            alloc,
            world: Some(world),
            lines: 0,
        })
    }

    /// Plays a line, which is given without its line feed, and answers what it brings. It fails
    /// where the line is refused, or without memory.
    pub fn play(&mut self, line: &[u8]) -> Result<Played, FeedFault<HistoryFault>>
        requires { self.old.lines < 2 ^ 62 }
        ensures answers { (z : Situation) → Plays z self.old
            → PlaysLine z line.now self.new result }
        ensures few { self.new.lines ≤ self.old.lines + 1 }
    {
        let event = match event_in(self.alloc, line) {
            Ok(event) => event,
            Err(Stop::Bad(kind)) => {
                let line = self.lines + 1;
                return Err(FeedFault::Refused(HistoryFault::Line { line, kind }));
            }
            Err(Stop::Memory) => return Err(FeedFault::Memory),
        };
        let Some(world) = self.world.take() else {
            return Err(FeedFault::Memory);
        };
        let Ok((world, body)) = world.step(self.alloc, event) else {
            return Err(FeedFault::Memory);
        };
        let counts = world.counts();
        self.lines += 1;
        self.world = Some(world);
        Ok(Played { body, counts })
    }
}
