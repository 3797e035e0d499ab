// The expressions of residual rows.

ghost use Rattle.std.specs.Prelude.{◌≡◌};
ghost use Rattle.meaning.specs.SetCode.{expr_of};

use code::{Op, Row, RowKind};

// The expression that an operation works out, if its row is an expression's.
pub fn expr_of(rows: &[Row], op: Op) -> Option<u32>
    ensures { result ≡ expr_of rows.now op }
{
    let Op::EvalAst { residual, .. } = op else {
        return None;
    };
    let row = rows.get(residual as usize)?;
    match RowKind::try_from(row.kind) {
        Ok(RowKind::Expression) => Some(row.number),
        _ => None,
    }
}
