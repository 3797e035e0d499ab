// What a script means, and what is proved of it: each function's contract is a theorem about the definitions in specs/.
#![tactic(auto)]

ghost use Rattle.meaning.specs.Starred.{Reproduced, worked};
ghost use Rattle.meaning.specs.Whole.{WholeAgreement};
ghost use Rattle.meaning.specs.WritersLawful.{WritersLawful};

// The worked scripts come out as they should.
pub fn worked_scripts() -> u8
    ensures { Reproduced worked }
{
    0
}

// Whole and Written keep the writers' law.
pub fn lawful_writers() -> u8
    ensures { WritersLawful }
{
    0
}

// After every list of calls the player agrees with the tree's run: for all records, rooms, slot memory and every writer
// that keeps the law, where lowering, setting and `fits` accept.
pub fn player_agrees() -> u8
    ensures { WholeAgreement }
{
    0
}
