// The player's calls, tried: every number at its edge and in its order, throws, and the 64 of each table.
#![tactic(auto)]

use code::{Answer, End, Instr, Op, Question, Row, Slot};
use player::{Answered, Call, Outcome, Player, Reply};
use records::Position;

// Where every operation of the tests stands, and where the caller's faults do.
const HERE: Position = Position { line: 7, column: 3 };

const THERE: Position = Position { line: 1, column: 2 };

const ROWS: [Row; 3] = [
    Row {
        kind: 1,
        number: 11,
    },
    Row {
        kind: 2,
        number: 12,
    },
    Row {
        kind: 3,
        number: 13,
    },
];

const NAMES: u32 = 2;

fn instr(op: Op) -> Instr {
    Instr { op, at: HERE }
}

fn declare(name: u32, is_const: bool) -> Instr {
    instr(Op::DeclareLocal {
        name,
        is_const,
        is_global: false,
    })
}

fn handler(target: u32, catch_var: Option<u32>) -> Instr {
    instr(Op::PushHandler { target, catch_var })
}

fn row(residual: u32) -> Instr {
    instr(Op::EvalAst {
        residual,
        rewind_scope: false,
    })
}

fn asking(e: u32) -> Instr {
    instr(Op::EvalExpr(e))
}

fn unit() -> Instr {
    instr(Op::Unit)
}

fn fault(handle: u64) -> Call {
    Call::Answer(Answer::Fault { handle, at: THERE })
}

fn value(handle: u64) -> Call {
    Call::Answer(Answer::Value(handle))
}

fn done() -> Call {
    Call::Answer(Answer::Done)
}

fn put(name: u32, handle: u64) -> Call {
    Call::Put { name, handle }
}

// The reply to the last of some calls, with slot memory lent.
fn last_over<'x>(
    slots: &'x mut [Slot],
    rows: &'x [Row],
    code: &'x [Instr],
    calls: &[Call],
) -> Option<Reply> {
    let mut player = Player::load(code, rows, NAMES, slots);
    let reply = calls.iter().map(|call| player.perform(*call)).last();
    player.close();
    reply
}

fn last(code: &[Instr], calls: &[Call]) -> Option<Reply> {
    let mut slots = [Slot::default(); 4];
    let rows = ROWS;
    last_over(&mut slots, &rows, code, calls)
}

// The number by which the last of some calls is declined.
fn declined(code: &[Instr], calls: &[Call]) -> Option<u32> {
    match last(code, calls)? {
        Reply::Declined(why) => Some(why.number()),
        _ => None,
    }
}

// The reply to a run when so many questions were answered.
fn after_answers(code: &[Instr], times: u32) -> Option<Reply> {
    let mut slots = [Slot::default(); 4];
    let rows = ROWS;
    let mut player = Player::load(code, &rows, NAMES, &mut slots);
    for _ in 0..times {
        let _ = player.perform(Call::Run(9));
        let _ = player.perform(value(8));
    }
    let reply = player.perform(Call::Run(9));
    player.close();
    Some(reply)
}

fn ran(outcome: Outcome) -> Option<Reply> {
    Some(Reply::Ran(outcome))
}

fn asks(steps: u32, question: Question) -> Option<Reply> {
    ran(Outcome::Asks(steps, question))
}

fn ends(steps: u32, handle: u64) -> Option<Reply> {
    ran(Outcome::Ended(steps, End::Value(handle)))
}

fn faults(steps: u32, handle: u64) -> Option<Reply> {
    ran(Outcome::Ended(steps, End::Fault { handle, at: HERE }))
}

fn answered(led: Answered) -> Option<Reply> {
    Some(Reply::Answered(led))
}

fn found(handle: Option<u64>) -> Option<Reply> {
    Some(Reply::Found(handle))
}

#[cfg(test)]
mod tests {
    use super::*;
    use player::fits;

    #[test]
    fn slot_memory_fits(rt: HostRuntime) {
        let slots = [Slot::default(); 3];
        assert!(rt; fits(&slots, 3).is_ok());
        assert_eq!(rt; fits(&slots, 4).map_err(|why| why.number()), Err(24));
    }

    #[test]
    fn limits_of_run(rt: HostRuntime) {
        let code = [instr(Op::Jump(0))];
        assert_eq!(rt; declined(&code, &[Call::Run(0)]), Some(34));
        assert_eq!(rt; last(&code, &[Call::Run(1)]), ran(Outcome::Spent(1)));
        assert_eq!(rt;
            last(&code, &[Call::Run(1_000_000)]),
            ran(Outcome::Spent(1_000_000))
        );
        assert_eq!(rt; declined(&code, &[Call::Run(1_000_001)]), Some(34));
        assert_eq!(rt; declined(&code, &[Call::Run(0), value(5)]), Some(32));
        assert_eq!(rt; declined(&code, &[put(9, 5)]), Some(32));
        assert_eq!(rt; last(&[], &[Call::Run(9)]), ran(Outcome::Stuck(1)));
    }

    #[test]
    fn numbers_in_order(rt: HostRuntime) {
        let code = [asking(1), unit(), instr(Op::Return)];
        assert_eq!(rt;
            last(&code, &[Call::Run(9)]),
            asks(1, Question::Expression(1))
        );
        assert_eq!(rt; declined(&code, &[Call::Run(9), Call::Run(0)]), Some(31));
        assert_eq!(rt; declined(&code, &[Call::Run(9), done()]), Some(34));
        assert_eq!(rt; declined(&code, &[Call::Run(9), put(2, 5)]), Some(34));
        assert_eq!(rt; declined(&code, &[Call::Run(9), put(1, 5)]), Some(35));
        assert_eq!(rt; declined(&code, &[Call::Run(9), Call::Look(2)]), Some(34));
        assert_eq!(rt; last(&code, &[Call::Run(9), Call::Look(1)]), found(None));
        assert_eq!(rt;
            last(&code, &[Call::Run(9), value(5)]),
            answered(Answered::Taken)
        );
        assert_eq!(rt;
            last(&code, &[Call::Run(9), value(5), Call::Run(2)]),
            ends(2, 0)
        );
        let over = [Call::Run(9), value(5), Call::Run(2), Call::Run(0)];
        assert_eq!(rt; declined(&code, &over), Some(33));
        assert_eq!(rt;
            last(&code, &[Call::Run(9), fault(6)]),
            answered(Answered::Ended(End::Fault {
                handle: 6,
                at: THERE
            }))
        );
        assert_eq!(rt;
            declined(&code, &[Call::Run(9), fault(6), value(5)]),
            Some(33)
        );
        assert_eq!(rt;
            declined(&code, &[Call::Run(9), fault(6), put(2, 5)]),
            Some(33)
        );
        assert_eq!(rt;
            declined(&code, &[Call::Run(9), fault(6), Call::Look(2)]),
            Some(33)
        );
    }

    #[test]
    fn puts_and_looks(rt: HostRuntime) {
        let code = [
            unit(),
            declare(1, true),
            unit(),
            declare(0, false),
            instr(Op::Bool(true)),
            declare(0, false),
            asking(1),
            instr(Op::UnwindTo(2)),
            asking(2),
        ];
        assert_eq!(rt;
            last(&code, &[Call::Run(9)]),
            asks(7, Question::Expression(1))
        );
        assert_eq!(rt; last(&code, &[Call::Run(9), Call::Look(0)]), found(Some(2)));
        assert_eq!(rt; declined(&code, &[Call::Run(9), put(1, 5)]), Some(35));
        assert_eq!(rt;
            last(&code, &[Call::Run(9), put(0, 5)]),
            Some(Reply::Written)
        );
        assert_eq!(rt;
            last(&code, &[Call::Run(9), put(0, 5), Call::Look(0)]),
            found(Some(5))
        );
        let older = [
            Call::Run(9),
            put(0, 5),
            value(6),
            Call::Run(2),
            Call::Look(0),
        ];
        assert_eq!(rt; last(&code, &older), found(Some(0)));
        let mut few = [Slot::default(); 2];
        let rows = ROWS;
        assert_eq!(rt;
            last_over(&mut few, &rows, &code, &[Call::Run(9)]),
            ran(Outcome::Stuck(6))
        );
    }

    #[test]
    fn throws_and_catches(rt: HostRuntime) {
        let code = [
            handler(4, Some(1)),
            unit(),
            asking(3),
            instr(Op::Return),
            instr(Op::LoadNamed(1)),
            instr(Op::Throw),
        ];
        assert_eq!(rt;
            last(&code, &[Call::Run(9), fault(77)]),
            answered(Answered::Taken)
        );
        assert_eq!(rt;
            last(&code, &[Call::Run(9), fault(77), Call::Look(1)]),
            found(Some(77))
        );
        assert_eq!(rt;
            last(&code, &[Call::Run(9), fault(77), Call::Run(1)]),
            ran(Outcome::Spent(1))
        );
        assert_eq!(rt;
            last(&code, &[Call::Run(9), fault(77), Call::Run(9)]),
            faults(2, 77)
        );
        let bare = [handler(3, None), unit(), asking(3), instr(Op::Return)];
        assert_eq!(rt;
            last(&bare, &[Call::Run(9), value(5), Call::Run(9)]),
            ends(1, 5)
        );
        assert_eq!(rt;
            last(&bare, &[Call::Run(9), fault(5), Call::Run(9)]),
            ran(Outcome::Stuck(1))
        );
        let test = [asking(1), instr(Op::JumpIfTrue { target: 0 })];
        assert_eq!(rt;
            last(&test, &[Call::Run(9), value(7), Call::Run(9)]),
            faults(1, 3)
        );
        let fixed = [
            unit(),
            declare(0, true),
            unit(),
            instr(Op::AssignLocal {
                slot: 0,
                var_name: 0,
                op: None,
            }),
        ];
        assert_eq!(rt; last(&fixed, &[Call::Run(9)]), faults(4, 4));
    }

    #[test]
    fn sixty_four_of_each(rt: HostRuntime) {
        let units = [unit(), instr(Op::Jump(0))];
        assert_eq!(rt; last(&units, &[Call::Run(128)]), ran(Outcome::Spent(128)));
        assert_eq!(rt; last(&units, &[Call::Run(129)]), ran(Outcome::Stuck(129)));
        let arms = [handler(0, None), instr(Op::Jump(0))];
        assert_eq!(rt; last(&arms, &[Call::Run(128)]), ran(Outcome::Spent(128)));
        assert_eq!(rt; last(&arms, &[Call::Run(129)]), ran(Outcome::Stuck(129)));
        let code = [unit(), instr(Op::IterInit), instr(Op::Jump(0))];
        assert_eq!(rt; after_answers(&code, 63), asks(3, Question::Iterate(0)));
        assert_eq!(rt; after_answers(&code, 64), ran(Outcome::Stuck(3)));
    }

    #[test]
    fn questions(rt: HostRuntime) {
        assert_eq!(rt;
            last(&[row(0)], &[Call::Run(1)]),
            asks(1, Question::Expression(11))
        );
        assert_eq!(rt;
            last(&[row(1)], &[Call::Run(1)]),
            asks(1, Question::Statement(12))
        );
        assert_eq!(rt; last(&[row(2)], &[Call::Run(1)]), ran(Outcome::Stuck(1)));
        assert_eq!(rt; last(&[row(3)], &[Call::Run(1)]), ran(Outcome::Stuck(1)));
        let named = [instr(Op::LoadNamed(1))];
        assert_eq!(rt; last(&named, &[Call::Run(1)]), asks(1, Question::Name(1)));
        let assigned = [unit(), instr(Op::AssignNamed { name: 0, op: None })];
        let assign = Question::Assign {
            name: 0,
            row: None,
            new: 0,
        };
        assert_eq!(rt; last(&assigned, &[Call::Run(2)]), asks(2, assign));
        assert_eq!(rt; declined(&assigned, &[Call::Run(2), value(5)]), Some(34));
        assert_eq!(rt;
            last(&assigned, &[Call::Run(2), done()]),
            answered(Answered::Taken)
        );
        let walk = [
            unit(),
            instr(Op::IterInit),
            instr(Op::IterNext {
                exit: 4,
                counter_slot: None,
            }),
            instr(Op::Return),
            unit(),
            instr(Op::Return),
        ];
        assert_eq!(rt;
            last(&walk, &[Call::Run(9), value(8), Call::Run(9)]),
            asks(1, Question::Next(8))
        );
        let item = [Call::Run(9), value(8), Call::Run(9), value(5), Call::Run(9)];
        assert_eq!(rt; last(&walk, &item), ends(1, 5));
        let end = [Call::Run(9), value(8), Call::Run(9), done(), Call::Run(9)];
        assert_eq!(rt; last(&walk, &end), ends(2, 0));
        let turned = [
            unit(),
            instr(Op::Bool(true)),
            instr(Op::Bool(false)),
            instr(Op::Rotate(2)),
            instr(Op::Return),
        ];
        assert_eq!(rt; last(&turned, &[Call::Run(9)]), ends(5, 2));
        let foreign = [instr(Op::Foreign(1))];
        assert_eq!(rt; last(&foreign, &[Call::Run(9)]), ran(Outcome::Stuck(1)));
    }
}
