ghost use Rattle.meaning.specs.Machine.{advances, arms, assigns, assigns_named, begins, branches, declares, disarms, drops, evaluates, exec, finishes, gives, loads_named, opening, overwrites, pops, pushes, resume, rotates, stores, stores_shared, throws, unwinds};
ghost use Rattle.player.specs.Players.{Does};

use super::Player;
use crate::kinds::{Flow, Stuck};
use code::{Answer, Handler, Op, Purpose, Question, RowKind, Slot, handles};
use records::Position;

// One method for each operation: what it comes to, with place and mode as they were. Where two are alike, each still has
// a rule of its own to follow.
impl<'a> Player<'a> {
    fn push(&mut self, handle: u64) -> Result<Flow, Stuck>
        ensures { Does self.old result self.new (pushes handle) }
    {
        self.values.push(handle)?;
        Ok(Flow::Next)
    }

    fn discard(&mut self) -> Result<Flow, Stuck>
        ensures { Does self.old result self.new pops }
    {
        self.values.pop().ok_or(Stuck)?;
        Ok(Flow::Next)
    }

    fn rotate(&mut self, n: u8) -> Result<Flow, Stuck>
        ensures { Does self.old result self.new (rotates n) }
    {
        if n > 0 {
            let handle = self.values.pop().ok_or(Stuck)?;
            self.values.insert(n as usize, handle)?;
        }
        Ok(Flow::Next)
    }

    fn branch(&mut self, on: bool, target: u32, at: Position) -> Result<Flow, Stuck>
        ensures { Does self.old result self.new (branches on target at) }
    {
        let value = match self.values.pop().ok_or(Stuck)? {
            handles::FALSE => false,
            handles::TRUE => true,
            _ => {
                return Ok(Flow::Fault {
                    handle: handles::NOT_A_TRUTH_VALUE,
                    at,
                });
            }
        };
        Ok(if value == on {
            Flow::Goto(target)
        } else {
            Flow::Next
        })
    }

    fn throw(&mut self, at: Position) -> Result<Flow, Stuck>
        ensures { Does self.old result self.new (throws at) }
    {
        let handle = self.values.pop().ok_or(Stuck)?;
        Ok(Flow::Fault { handle, at })
    }

    fn give(&mut self) -> Result<Flow, Stuck>
        ensures { Does self.old result self.new gives }
    {
        let handle = self.values.pop().ok_or(Stuck)?;
        Ok(Flow::Give(handle))
    }

    fn declare(&mut self, name: u32, constant: bool) -> Result<Flow, Stuck>
        ensures { Does self.old result self.new (declares name constant) }
    {
        let handle = self.values.pop().ok_or(Stuck)?;
        self.declare_slot(Slot {
            name,
            handle,
            constant,
        })?;
        Ok(Flow::Next)
    }

    fn unwind(&mut self, n: u16) -> Result<Flow, Stuck>
        ensures { Does self.old result self.new (unwinds n) }
    {
        let n = n as usize;
        if n > self.live_slots() {
            return Err(Stuck);
        }
        self.cut_slots(n);
        Ok(Flow::Next)
    }

    fn load_named(&mut self, name: u32) -> Result<Flow, Stuck>
        ensures { Does self.old result self.new (loads_named name) }
    {
        let Some(i) = self.find_slot(name) else {
            return Ok(Flow::Ask(Question::Name(name), Purpose::Push));
        };
        let slot = self.slot(i).ok_or(Stuck)?;
        self.push(slot.handle)
    }

    fn store(&mut self, i: u16, constant: bool) -> Result<Flow, Stuck>
        ensures { Does self.old result self.new (stores i constant) }
    {
        let i = i as usize;
        let handle = self.values.pop().ok_or(Stuck)?;
        let slot = self.slot(i).ok_or(Stuck)?;
        self.set_slot(
            i,
            Slot {
                handle,
                constant,
                ..slot
            },
        );
        Ok(Flow::Next)
    }

    fn overwrite(&mut self, i: u16, handle: u64) -> Result<Flow, Stuck>
        ensures { Does self.old result self.new (overwrites i handle) }
    {
        let i = i as usize;
        let slot = self.slot(i).ok_or(Stuck)?;
        self.set_slot(i, Slot { handle, ..slot });
        Ok(Flow::Next)
    }

    fn store_shared(&mut self, i: u16) -> Result<Flow, Stuck>
        ensures { Does self.old result self.new (stores_shared i) }
    {
        let handle = self.values.pop().ok_or(Stuck)?;
        self.overwrite(i, handle)
    }

    fn assign(&mut self, i: u16, row: Option<u32>, at: Position) -> Result<Flow, Stuck>
        ensures { Does self.old result self.new (assigns i row at) }
    {
        let new = self.values.pop().ok_or(Stuck)?;
        let slot = self.slot(i as usize).ok_or(Stuck)?;
        if slot.constant {
            return Ok(Flow::Fault {
                handle: handles::CONSTANT_ASSIGNED,
                at,
            });
        }
        let Some(row) = row else {
            return self.overwrite(i, new);
        };
        let old = slot.handle;
        Ok(Flow::Ask(Question::Combine { row, old, new }, Purpose::Store(i)))
    }

    fn assign_named(&mut self, name: u32, row: Option<u32>) -> Result<Flow, Stuck>
        ensures { Does self.old result self.new (assigns_named name row) }
    {
        let new = self.values.pop().ok_or(Stuck)?;
        Ok(Flow::Ask(Question::Assign { name, row, new }, Purpose::Assigned))
    }

    fn evaluate(&mut self, i: u32) -> Result<Flow, Stuck>
        ensures { Does self.old result self.new (evaluates self.old.rows.now i) }
    {
        let row = self.rows.get(i as usize).ok_or(Stuck)?;
        let question = match RowKind::try_from(row.kind)? {
            RowKind::Expression => Question::Expression(row.number),
            RowKind::Statement => Question::Statement(row.number),
        };
        Ok(Flow::Ask(question, Purpose::Push))
    }

    fn arm(&mut self, target: u32, name: Option<u32>) -> Result<Flow, Stuck>
        ensures { Does self.old result self.new (arms target name) }
    {
        let handler = Handler {
            armed: true,
            target,
            name,
            values: self.values.len(),
            slots: self.live_slots(),
            iters: self.iters.len(),
        };
        self.handlers.push(handler)?;
        Ok(Flow::Next)
    }

    fn disarm(&mut self) -> Result<Flow, Stuck>
        ensures { Does self.old result self.new disarms }
    {
        self.handlers.pop().ok_or(Stuck)?;
        Ok(Flow::Next)
    }

    fn iterate(&mut self) -> Result<Flow, Stuck>
        ensures { Does self.old result self.new opening }
    {
        if self.iters.is_full() {
            return Err(Stuck);
        }
        let handle = self.values.pop().ok_or(Stuck)?;
        Ok(Flow::Ask(Question::Iterate(handle), Purpose::Open))
    }

    fn begin(&mut self, iterator: u64) -> Result<Flow, Stuck>
        ensures { Does self.old result self.new (begins iterator) }
    {
        self.iters.push(iterator)?;
        Ok(Flow::Next)
    }

    fn advance(&mut self, exit: u32) -> Result<Flow, Stuck>
        ensures { Does self.old result self.new (advances exit) }
    {
        let iterator = self.iters.newest().ok_or(Stuck)?;
        Ok(Flow::Ask(Question::Next(iterator), Purpose::Advance(exit)))
    }

    fn drop_iterator(&mut self) -> Result<Flow, Stuck>
        ensures { Does self.old result self.new drops }
    {
        self.iters.pop().ok_or(Stuck)?;
        Ok(Flow::Next)
    }

    fn finish(&mut self, exit: u32) -> Result<Flow, Stuck>
        ensures { Does self.old result self.new (finishes exit) }
    {
        self.iters.pop().ok_or(Stuck)?;
        Ok(Flow::Goto(exit))
    }

    // One operation.
    pub fn exec(&mut self, op: Op, at: Position) -> Result<Flow, Stuck>
        ensures { Does self.old result self.new (exec self.old.rows.now op at) }
    {
        match op {
            Op::Unit => self.push(handles::UNIT),
            Op::Bool(true) => self.push(handles::TRUE),
            Op::Bool(false) => self.push(handles::FALSE),
            Op::StoreLocal { slot, is_const } => self.store(slot, is_const),
            Op::LoadNamed(name) => self.load_named(name),
            Op::AssignNamed { name, op } => self.assign_named(name, op),
            Op::AssignLocal { slot, op, .. } => self.assign(slot, op, at),
            Op::DeclareLocal { name, is_const, .. } => self.declare(name, is_const),
            Op::Pop => self.discard(),
            Op::Jump(target) => Ok(Flow::Goto(target)),
            Op::JumpIfTrue { target } => self.branch(true, target, at),
            Op::JumpIfFalse { target } => self.branch(false, target, at),
            Op::Rotate(n) => self.rotate(n),
            Op::UnwindTo(n) => self.unwind(n),
            Op::Tick | Op::Checkpoint => Ok(Flow::Next),
            Op::EvalAst { residual, .. } => self.evaluate(residual),
            Op::PushHandler { target, catch_var } => self.arm(target, catch_var),
            Op::PopHandler => self.disarm(),
            Op::IterInit => self.iterate(),
            Op::IterNext {
                exit,
                counter_slot: None,
            } => self.advance(exit),
            Op::IterDrop => self.drop_iterator(),
            Op::StoreShared(i) => self.store_shared(i),
            Op::Throw => self.throw(at),
            Op::Return => self.give(),
            Op::EvalExpr(e) => Ok(Flow::Ask(Question::Expression(e), Purpose::Push)),
            Op::IterNext {
                counter_slot: Some(_),
                ..
            }
            | Op::Foreign(_) => Err(Stuck),
        }
    }

    // An answer.
    pub fn resume(&mut self, purpose: Purpose, answer: Answer) -> Result<Flow, Stuck>
        ensures { Does self.old result self.new (resume purpose answer) }
    {
        match (purpose, answer) {
            (_, Answer::Fault { handle, at }) => Ok(Flow::Fault { handle, at }),
            (Purpose::Push | Purpose::Advance(_), Answer::Value(handle)) => self.push(handle),
            (Purpose::Store(i), Answer::Value(handle)) => self.overwrite(i, handle),
            (Purpose::Open, Answer::Value(handle)) => self.begin(handle),
            (Purpose::Assigned, Answer::Done) => Ok(Flow::Next),
            (Purpose::Advance(exit), Answer::Done) => self.finish(exit),
            (Purpose::Assigned, Answer::Value(_)) | (_, Answer::Done) => Err(Stuck),
        }
    }
}
