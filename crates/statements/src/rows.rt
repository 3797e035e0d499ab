// Residual rows; a row keeps what it is of as a number.

ghost use Rattle.std.specs.Prelude.{◌≡◌};
ghost use Rattle.meaning.specs.Lower.{residual, statement_row as statement_row_m};
ghost use Rattle.lowering.specs.View.{Did, Lent, parts};

use code::{Lowered, RowKind};
use lowering::Lowering;
use records::Refusal;

// An expression is worked out by its row.
pub fn expression(c: &mut Lowering, expr: u32) -> Result<(), Refusal>
    ensures lent { Lent c.old c.new }
    ensures did { Did (residual 1 expr) c.old result c.new }
    ensures only { parts c.new ≡ record (parts c.old) { code = c.new.code; rows = c.new.rows } }
{
    c.residual(RowKind::Expression.into(), expr)
}

// A whole statement is left to its row: it leaves a value.
pub fn statement_row(c: &mut Lowering, number: u32) -> Result<Lowered, Refusal>
    ensures lent { Lent c.old c.new }
    ensures did { Did (statement_row_m number) c.old result c.new }
    ensures only { parts c.new ≡ record (parts c.old) { code = c.new.code; rows = c.new.rows } }
{
    c.residual(RowKind::Statement.into(), number)?;
    Ok(Lowered::Value)
}
