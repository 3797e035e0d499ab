ghost use Rattle.std.specs.Prelude.{◌≡◌};
ghost use Rattle.records.specs.declared.refusals.Refusal.TheVariants.{Malformed};

use crate::kinds::UnknownNumber;

// Why a call is refused or declined: one list for all calls.
#[derive(Clone, Copy, Debug, PartialEq, Eq)]
pub enum Refusal {
    // 10 to 17: the input
    TooLarge,
    Malformed,
    LeftOut,
    TooDeep,
    BadReuse,
    OutsideLoop,
    EvalCall,
    UnknownExpression,
    // 21 to 24: memory
    SlotsFull,
    NoRoom,
    NoCodeRoom,
    SlotMemory,
    // 31 to 35: the player's state
    QuestionWaits,
    NoneWaits,
    Over,
    WrongCall,
    NotSettable,
}

// Numbers that stand for nothing are against the rules of records.
impl From<UnknownNumber> for Refusal {
    ghost from_gives = { λ _ e. e ≡ Malformed };

    fn from(_number: UnknownNumber) -> Refusal {
        Refusal::Malformed
    }
}
