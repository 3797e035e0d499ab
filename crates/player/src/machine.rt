mod calls;
mod parts;
mod settling;
mod slots;
mod steps;
mod throws;

ghost use Rattle.std.specs.Prelude.{◌-◌, ◌≤◌, length};
ghost use Rattle.player.specs.Modes.{due};

use crate::kinds::Mode;
use code::{Handler, Instr, Row, Slot};
use stack64::Stack64;

// A script that is being played: code, rows and slot memory are the caller's from load to close.
#[derive(Drop)]
pub struct Player<'a> {
    slots: &'a mut [Slot],
    code: &'a [Instr],
    rows: &'a [Row],
    // how many names there are
    names: u32,
    place: usize,
    mode: Mode,
    values: Stack64<u64>,
    iters: Stack64<u64>,
    handlers: Stack64<Handler>,
    // how many slots are live; with a `tables::Stack`, `close` has no proof: no rule for a `&mut [T]` in a struct within `self`
    live: usize,
    ghost sound: { live ≤ length slots.now },
    // a player that waits stands at an operation
    ghost placed: { due mode ≤ length code.now - place },
}
