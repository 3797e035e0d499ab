ghost use Rattle.meaning.specs.Throws.{catches, roused};
ghost use Rattle.player.specs.Players.{Does};
ghost use Rattle.stack64.specs.Listed.{listed};
ghost use Rattle.stack64.specs.Moves.{Popped};

use super::Player;
use crate::kinds::{Flow, Stuck};
use code::{Handler, Slot};
use records::Position;
use stack64::Stack64;

// Discards the handlers in catch above the newest armed one, and takes that.
fn rouse(handlers: &mut Stack64<Handler>) -> Option<Handler>
    ensures { Popped (roused (listed handlers.old)) result (listed handlers.new) }
{
    while let Some(handler) = handlers.pop() {
        if handler.armed {
            return Some(handler);
        }
    }
    None
}

impl<'a> Player<'a> {
    // A throw: to the newest armed handler, or out. (A `Flow`, as the rules have it: a throw comes to what operations do.)
    pub fn catch(&mut self, handle: u64, at: Position) -> Result<Flow, Stuck>
        ensures { Does self.old result self.new (catches handle at) }
    {
        let Some(handler) = rouse(&mut self.handlers) else {
            return Ok(Flow::Fault { handle, at });
        };
        if handler.values > self.values.len()
            || handler.slots > self.live_slots()
            || handler.iters > self.iters.len()
        {
            return Err(Stuck);
        }
        self.handlers.push(Handler {
            armed: false,
            ..handler
        })?;
        self.values.truncate(handler.values);
        self.cut_slots(handler.slots);
        self.iters.truncate(handler.iters);
        if let Some(name) = handler.name {
            self.declare_slot(Slot {
                name,
                handle,
                constant: false,
            })?;
        }
        Ok(Flow::Goto(handler.target))
    }
}
