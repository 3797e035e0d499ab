// Operations and their targets.
#![tactic(auto)]

ghost use Rattle.std.specs.Prelude.{◌≡◌, ℕ, ◌+◌, Some};
ghost use Rattle.meaning.specs.SetCode.{target_of, move_op};
ghost use Rattle.meaning.specs.Writer.{shift_op};
ghost use Rattle.meaning.specs.LowerState.{aimed};

use code::Op;

// Where an operation goes, if it goes anywhere.
pub fn target_of(op: Op) -> Option<u32>
    ensures { result ≡ target_of op }
{
    match op {
        Op::Jump(target) => Some(target),
        Op::JumpIfTrue { target } => Some(target),
        Op::JumpIfFalse { target } => Some(target),
        Op::PushHandler { target, .. } => Some(target),
        Op::IterNext { exit, .. } => Some(exit),
        _ => None,
    }
}

// An operation with its target, if it has one, moved by a map of places.
pub fn move_target<F: FnOnce(u32) -> u32>(op: Op, place: F) -> Op
    requires { (t : ℕ) → target_of op ≡ Some t → F.pre place t }
    ensures moved { (μ : ℕ → ℕ) → ((t u : ℕ) → target_of op ≡ Some t → F.post place t u → u ≡ μ t) → result ≡ move_op μ op }
    ensures shifted { (d : ℕ) → ((t u : ℕ) → target_of op ≡ Some t → F.post place t u → u ≡ d + t) → result ≡ shift_op d op }
    ensures patched { (n : ℕ) → ((t u : ℕ) → target_of op ≡ Some t → F.post place t u → u ≡ n) → result ≡ aimed n op }
{
    match op {
        Op::Jump(target) => Op::Jump(place(target)),
        Op::JumpIfTrue { target } => Op::JumpIfTrue {
            target: place(target),
        },
        Op::JumpIfFalse { target } => Op::JumpIfFalse {
            target: place(target),
        },
        Op::PushHandler { target, catch_var } => Op::PushHandler {
            target: place(target),
            catch_var,
        },
        Op::IterNext { exit, counter_slot } => Op::IterNext {
            exit: place(exit),
            counter_slot,
        },
        _ => op,
    }
}

// An operation with another target, if it has one.
pub fn retarget(op: Op, target: u32) -> Op
    ensures moved { result ≡ move_op (λ _. target) op }
    ensures patched { result ≡ aimed target op }
{
    move_target(op, |_| target)
}
