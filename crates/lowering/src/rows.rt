// Residual rows, names and operator rows.

ghost use Rattle.std.specs.Prelude.{◌≡◌, OnErr};
ghost use Rattle.records.specs.Tree.{records};
ghost use Rattle.meaning.specs.LowerState.{add_row, enter_name, enter_oper};
ghost use Rattle.meaning.specs.Lower.{residual as residual_m};
ghost use Rattle.tables.specs.Stacks.{KeptIfErr, SameLent, contents};
ghost use Rattle.lowering.specs.Fit.{most};
ghost use Rattle.lowering.specs.View.{AddedName, AddedOper, Did, Lent, parts};

use crate::state::{Lowering, Names, Operators};
use crate::words::{Numbers, Spelling};
use code::{AssignOp, Op, Row};
use records::{Refusal, Script};
use tables::enter;

// The number of a name, which is entered if it is new.
pub fn push_name(names: &mut Names, script: &Script, label: u32) -> Result<u32, Refusal>
    ensures lent { SameLent most names.old names.new }
    ensures did { AddedName (enter_name (records script.now) label) (contents most names.old) result (contents most names.new) }
    ensures kept { KeptIfErr most names.old result names.new }
{
    let place = enter(names, label, &Spelling(*script))?;
    Ok(place as u32)
}

// The number of an operator row, which is entered if it is new.
pub fn push_assign_op(operators: &mut Operators, entry: AssignOp) -> Result<u32, Refusal>
    ensures lent { SameLent most operators.old operators.new }
    ensures did { AddedOper (enter_oper entry) (contents most operators.old) result (contents most operators.new) }
    ensures kept { KeptIfErr most operators.old result operators.new }
{
    let place = enter(operators, entry, &Numbers)?;
    Ok(place as u32)
}

impl Lowering<'_, '_, '_, '_, '_, '_, '_, '_, '_, '_, '_, '_, '_> {
    // One row more; its place is answered.
    pub fn add_row(&mut self, kind: u32, number: u32) -> Result<u32, Refusal>
        ensures lent { Lent self.old self.new }
        ensures did { Did (add_row (record { kind = kind; number = number })) self.old result self.new }
        ensures only { parts self.new ≡ record (parts self.old) { rows = self.new.rows } }
        ensures kept { OnErr result (parts self.new ≡ parts self.old) }
    {
        let place = self.rows.push(Row { kind, number })?;
        Ok(place as u32)
    }

    // A row, and the operation that works it out. (Its kind is any number, as in the row: an enum would ask more of callers.)
    pub fn residual(&mut self, kind: u32, number: u32) -> Result<(), Refusal>
        ensures lent { Lent self.old self.new }
        ensures did { Did (residual_m kind number) self.old result self.new }
        ensures only { parts self.new ≡ record (parts self.old) { code = self.new.code; rows = self.new.rows } }
    {
        let residual = self.add_row(kind, number)?;
        self.emit(Op::EvalAst {
            residual,
            rewind_scope: true,
        })?;
        Ok(())
    }

    pub fn push_name(&mut self, label: u32) -> Result<u32, Refusal>
        ensures lent { Lent self.old self.new }
        ensures did { Did (enter_name (records self.old.script) label) self.old result self.new }
        ensures only { parts self.new ≡ record (parts self.old) { names = self.new.names } }
        ensures kept { OnErr result (parts self.new ≡ parts self.old) }
    {
        push_name(&mut *self.names, &self.script, label)
    }

    pub fn push_assign_op(&mut self, entry: AssignOp) -> Result<u32, Refusal>
        ensures lent { Lent self.old self.new }
        ensures did { Did (enter_oper entry) self.old result self.new }
        ensures only { parts self.new ≡ record (parts self.old) { operators = self.new.operators } }
        ensures kept { OnErr result (parts self.new ≡ parts self.old) }
    {
        push_assign_op(&mut *self.operators, entry)
    }
}
