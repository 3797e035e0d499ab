// A whole replay: load, every call in turn with its reply, close.
#![tactic(auto)]

ghost use Rattle.std.specs.Prelude.{◌≡◌, min, map, length, take, drop, replicate};
ghost use Rattle.meaning.specs.Calls.{after_calls, loaded, replies};
ghost use Rattle.player.specs.Replies.{call_of, reply_of};
ghost use Rattle.player.specs.Players.{Kept};
ghost use Rattle.player.specs.States.{state};
ghost use Rattle.slot_memory.specs.Memory.{blank_slot};

use code::{Instr, Row, Slot};
use player::{Call, Player, Reply};

// Every call in turn, as long as there is room for its reply; says how many.
pub fn perform_all(player: &mut Player<'_>, calls: &[Call], out: &mut [Reply]) -> usize
    ensures kept { Kept player.old player.new }
    ensures count { result ≡ min (length calls.now) (length out.old) }
    ensures said { map reply_of (take result out.new) ≡ replies player.old.code.now player.old.rows.now player.old.names (map call_of (take result calls.now)) (state player.old) }
    ensures left { state player.new ≡ after_calls player.old.code.now player.old.rows.now player.old.names (map call_of (take result calls.now)) (state player.old) }
    ensures rest { drop result out.new ≡ drop result out.old }
{
    let count = calls.len().min(out.len());
    // by place: what the elements of `out` became is not told of its `iter_mut` under `zip`
    for i in 0..count {
        out[i] = player.perform(calls[i]);
    }
    count
}

// From load to close over lent slot memory, which is blank afterwards.
pub fn replay<'x>(
    code: &'x [Instr],
    rows: &'x [Row],
    names: u32,
    slots: &'x mut [Slot],
    calls: &[Call],
    out: &mut [Reply],
) -> usize
    ensures count { result ≡ min (length calls.now) (length out.old) }
    ensures said { map reply_of (take result out.new) ≡ replies code.now rows.now names (map call_of (take result calls.now)) (loaded (length slots.old)) }
    ensures rest { drop result out.new ≡ drop result out.old }
    ensures blank { slots.new ≡ replicate (length slots.old) blank_slot }
{
    let mut player = Player::load(code, rows, names, slots);
    let count = perform_all(&mut player, calls, out);
    player.close();
    count
}
