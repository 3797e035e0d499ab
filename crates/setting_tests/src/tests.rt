use crate::units::Units;
use code::{Instr, Op, Row};
use records::{Expr, Label, Position, Script};
use setting::{Compiled, set};
use std::array;
use std::process::Abort;
use std::test::Fail;
use writers::{Whole, Writer, Written};

fn at(column: u16) -> Position {
    Position { line: 1, column }
}

// An operation without a position; at a column.
fn op(op: Op) -> Instr {
    Instr::bare(op)
}

fn op_at(op: Op, column: u16) -> Instr {
    Instr { op, at: at(column) }
}

// The operation of a residual row.
fn eval(residual: u32) -> Instr {
    op(Op::EvalAst {
        residual,
        rewind_scope: true,
    })
}

// A residual row of an expression.
fn row(number: u32) -> Row {
    Row { kind: 1, number }
}

// An expression of a form at a column.
fn expr(form: u32, column: u16, end: u32, label: u32) -> Expr {
    Expr {
        form,
        at: at(column),
        start: Position::NONE,
        end,
        label,
    }
}

// The record that is unused.
fn unused() -> Expr {
    expr(0, 0, 0, 0)
}

// One opaque expression; two, one after the other.
fn one_expr() -> [Expr; 2] {
    [unused(), expr(3, 3, 2, 0)]
}

fn two_exprs() -> [Expr; 3] {
    [unused(), expr(3, 3, 2, 0), expr(3, 7, 3, 0)]
}

// The declaration of the first name.
fn declare() -> Instr {
    op(Op::DeclareLocal {
        name: 0,
        is_const: false,
        is_global: false,
    })
}

fn script<'a>(text: &'a [u8], labels: &'a [Label], exprs: &'a [Expr]) -> Script<'a> {
    Script {
        text,
        labels,
        exprs,
        operators: &[],
        nodes: &[],
        limit: 8,
        keep: false,
    }
}

fn is_blank(code: &[Instr]) -> bool {
    code.iter().all(|x| *x == op(Op::Unit))
}

// Sets code in memory that held something else: the code at the start, or the number of a refusal. None where what is past
// the code, or after a refusal anything, is not blank, or a place is still remembered.
fn answer<'a, W: Writer>(
    writer: &W,
    code: &Compiled,
    places: &mut [u32],
    out: &'a mut [Instr],
) -> Option<Result<&'a [Instr], u32>> {
    let result = set(writer, code, places, out);
    let (code, rest) = out.split_at_checked(result.unwrap_or(0))?;
    if !is_blank(rest) || places.iter().any(|place| *place != 0) {
        return None;
    }
    Some(result.map(|_| code).map_err(|why| why.number()))
}

// Is the answer what is wanted?
fn gives<W: Writer>(
    writer: &W,
    code: &Compiled,
    places: &mut [u32],
    out: &mut [Instr],
    want: Result<&[Instr], u32>,
) -> bool {
    answer(writer, code, places, out) == Some(want)
}

// The same in plenty of memory.
fn plenty<W: Writer>(writer: &W, code: &Compiled, want: Result<&[Instr], u32>) -> bool {
    gives(writer, code, &mut [7; 32], &mut [op(Op::Tick); 96], want)
}

// The same under both writers, which agree where all expressions are opaque.
fn both(rt: &impl Abort, code: &Compiled, want: &[Instr]) {
    assert!(rt; plenty(&Whole, code, Ok(want)));
    assert!(rt; plenty(&Written, code, Ok(want)));
}

// Code of opaque expressions alone.
fn opaque<'a>(exprs: &'a [Expr], ops: &'a [Instr], rows: &'a [Row]) -> Compiled<'a> {
    Compiled {
        script: script(&[], &[], exprs),
        names: &[],
        ops,
        rows,
    }
}

#[test]
fn an_empty_script(rt: HostRuntime) {
    let ops = [op(Op::Unit), op(Op::Return)];
    both(&rt, &opaque(&[], &ops, &[]), &ops);
}

// if e {v}
#[test]
fn an_if(rt: HostRuntime) {
    let exprs = two_exprs();
    let ops = [
        eval(0),
        op_at(Op::JumpIfFalse { target: 4 }, 3),
        eval(1),
        op(Op::Jump(5)),
        op(Op::Unit),
        op(Op::Return),
    ];
    let want = [
        op(Op::EvalExpr(1)),
        ops[1],
        op(Op::EvalExpr(2)),
        ops[3],
        ops[4],
        ops[5],
    ];
    both(&rt, &opaque(&exprs, &ops, &[row(1), row(2)]), &want);
}

// while c {break v;}
#[test]
fn a_while(rt: HostRuntime) {
    let exprs = two_exprs();
    let ops = [
        op_at(Op::Tick, 2),
        eval(0),
        op_at(Op::JumpIfFalse { target: 8 }, 3),
        eval(1),
        op(Op::Rotate(0)),
        op(Op::UnwindTo(0)),
        op(Op::Jump(9)),
        op(Op::Jump(1)),
        op(Op::Unit),
        op(Op::Return),
    ];
    let mut want = ops;
    want[1] = op(Op::EvalExpr(1));
    want[3] = op(Op::EvalExpr(2));
    both(&rt, &opaque(&exprs, &ops, &[row(1), row(2)]), &want);
}

// for x in e {try {break;} catch {}}
#[test]
fn a_for_with_try(rt: HostRuntime) {
    let exprs = one_expr();
    let ops = [
        eval(0),
        op_at(Op::IterInit, 4),
        op(Op::Unit),
        declare(),
        op_at(Op::Tick, 2),
        op_at(
            Op::IterNext {
                exit: 16,
                counter_slot: None,
            },
            3,
        ),
        op(Op::StoreShared(0)),
        op_at(
            Op::PushHandler {
                target: 14,
                catch_var: None,
            },
            6,
        ),
        op(Op::PopHandler),
        op(Op::IterDrop),
        op(Op::UnwindTo(0)),
        op(Op::Jump(17)),
        op(Op::PopHandler),
        op(Op::Jump(15)),
        op(Op::PopHandler),
        op(Op::Jump(5)),
        op(Op::UnwindTo(0)),
        op(Op::Unit),
        op(Op::Return),
    ];
    let mut want = ops;
    want[0] = op(Op::EvalExpr(1));
    both(&rt, &opaque(&exprs, &ops, &[row(1)]), &want);
}

// loop {if c {while d {} break v;}}
#[test]
fn a_loop_with_a_late_break(rt: HostRuntime) {
    let exprs = [
        unused(),
        expr(1, 3, 2, 0),
        expr(3, 7, 3, 0),
        expr(3, 11, 4, 0),
        expr(3, 15, 5, 0),
    ];
    let ops = [
        op_at(Op::Tick, 2),
        eval(0),
        op_at(Op::JumpIfFalse { target: 11 }, 7),
        op_at(Op::Tick, 10),
        eval(1),
        op_at(Op::JumpIfFalse { target: 7 }, 11),
        op(Op::Jump(4)),
        eval(2),
        op(Op::Rotate(0)),
        op(Op::UnwindTo(0)),
        op(Op::Jump(13)),
        op(Op::Jump(1)),
        op(Op::Unit),
        op(Op::Return),
    ];
    let mut want = ops;
    want[1] = op(Op::EvalExpr(2));
    want[4] = op(Op::EvalExpr(3));
    want[7] = op(Op::EvalExpr(4));
    both(&rt, &opaque(&exprs, &ops, &[row(2), row(3), row(4)]), &want);
}

// do {} until c
#[test]
fn a_do_until(rt: HostRuntime) {
    let exprs = one_expr();
    let ops = [
        op_at(Op::Tick, 2),
        eval(0),
        op_at(Op::JumpIfFalse { target: 1 }, 3),
        op(Op::Unit),
        op(Op::Return),
    ];
    let mut want = ops;
    want[1] = op(Op::EvalExpr(1));
    both(&rt, &opaque(&exprs, &ops, &[row(1)]), &want);
}

// let x; let x reusing the first
#[test]
fn a_reuse(rt: HostRuntime) {
    let exprs = two_exprs();
    let ops = [
        eval(0),
        declare(),
        eval(1),
        op(Op::StoreLocal {
            slot: 0,
            is_const: false,
        }),
        op(Op::Unit),
        op(Op::Return),
    ];
    let mut want = ops;
    want[0] = op(Op::EvalExpr(1));
    want[2] = op(Op::EvalExpr(2));
    both(&rt, &opaque(&exprs, &ops, &[row(1), row(2)]), &want);
}

// Names "a" and "b" of a text, of which the name table has the second.
const LABELS: [Label; 3] = [
    Label {
        start: 9,
        length: 9,
    },
    Label {
        start: 0,
        length: 1,
    },
    Label {
        start: 1,
        length: 1,
    },
];

// Code whose expressions have names.
fn named<'a>(
    exprs: &'a [Expr],
    ops: &'a [Instr],
    rows: &'a [Row],
    names: &'a [u32],
) -> Compiled<'a> {
    Compiled {
        script: script(b"ab", &LABELS, exprs),
        names,
        ops,
        rows,
    }
}

// All of b, any of (an opaque one, all of (true)), a.
fn nested() -> [Expr; 8] {
    [
        unused(),
        expr(6, 11, 8, 0),
        expr(5, 12, 3, 2),
        expr(7, 13, 7, 0),
        expr(3, 14, 5, 0),
        expr(6, 15, 7, 0),
        expr(2, 16, 7, 0),
        expr(5, 17, 8, 1),
    ]
}

// Its segment from place 1 on, after an operation; then a jump back and one to after it.
fn nested_ops() -> [Instr; 4] {
    [
        op(Op::Tick),
        eval(0),
        op_at(Op::JumpIfFalse { target: 1 }, 5),
        op(Op::Jump(3)),
    ]
}

fn nested_want() -> [Instr; 22] {
    [
        op(Op::Tick),
        op(Op::LoadNamed(0)),
        op_at(Op::JumpIfFalse { target: 19 }, 12),
        op(Op::EvalExpr(4)),
        op_at(Op::JumpIfTrue { target: 13 }, 14),
        op(Op::Bool(true)),
        op_at(Op::JumpIfFalse { target: 9 }, 16),
        op(Op::Bool(true)),
        op(Op::Jump(10)),
        op(Op::Bool(false)),
        op_at(Op::JumpIfTrue { target: 13 }, 15),
        op(Op::Bool(false)),
        op(Op::Jump(14)),
        op(Op::Bool(true)),
        op_at(Op::JumpIfFalse { target: 19 }, 13),
        op(Op::EvalExpr(7)),
        op_at(Op::JumpIfFalse { target: 19 }, 17),
        op(Op::Bool(true)),
        op(Op::Jump(20)),
        op(Op::Bool(false)),
        op_at(Op::JumpIfFalse { target: 1 }, 5),
        op(Op::Jump(21)),
    ]
}

#[test]
fn lists_in_lists(rt: HostRuntime) {
    let exprs = nested();
    let ops = nested_ops();
    let rows = [row(1)];
    let names = [2];
    let code = named(&exprs, &ops, &rows, &names);
    assert!(rt; plenty(&Written, &code, Ok(&nested_want())));
    let whole = [ops[0], op(Op::EvalExpr(1)), ops[2], ops[3]];
    assert!(rt; plenty(&Whole, &code, Ok(&whole)));
    let units = [ops[0], op(Op::Unit), ops[2], ops[3]];
    assert!(rt; plenty(&Units, &code, Ok(&units)));
}

// Just enough room, one place short, one remembered place short.
#[test]
fn rooms(rt: HostRuntime) {
    let exprs = nested();
    let ops = nested_ops();
    let rows = [row(1)];
    let names = [2];
    let code = named(&exprs, &ops, &rows, &names);
    assert!(rt;
        gives(
            &Written,
            &code,
            &mut [7; 4],
            &mut [op(Op::Tick); 22],
            Ok(&nested_want())
        )
    );
    assert!(rt;
        gives(
            &Written,
            &code,
            &mut [7; 4],
            &mut [op(Op::Tick); 21],
            Err(23)
        )
    );
    assert!(rt;
        gives(
            &Written,
            &code,
            &mut [7; 4],
            &mut [op(Op::Tick); 7],
            Err(23)
        )
    );
    assert!(rt;
        gives(
            &Written,
            &code,
            &mut [7; 3],
            &mut [op(Op::Tick); 22],
            Err(23)
        )
    );
}

// So many lists, each inside the one before, and so many opaque items in the innermost one.
fn tower(lists: u32, items: u32) -> [Expr; 40] {
    array::from_fn(|i| match i as u32 {
        0 => unused(),
        i if i <= lists => expr(6, 1, lists.wrapping_add(items).wrapping_add(1), 0),
        i => expr(3, 1, i.wrapping_add(1), 0),
    })
}

// How long the code of such an expression and a `Return` is, written in full.
fn tower_length(lists: u32, items: u32) -> Option<Result<usize, u32>> {
    let exprs = tower(lists, items);
    let ops = [eval(0), op(Op::Return)];
    let mut places = [7; 32];
    let mut out = [op(Op::Tick); 96];
    let code = answer(
        &Written,
        &opaque(&exprs, &ops, &[row(1)]),
        &mut places,
        &mut out,
    )?;
    Some(code.map(|code| code.len()))
}

// 2 for each leaf and 4 for each list, less one: 63 is known, 65 is not.
#[test]
fn longest_segments(rt: HostRuntime) {
    assert_eq!(rt; tower_length(15, 2), Some(Ok(64)));
    assert_eq!(rt; tower_length(16, 1), Some(Err(17)));
    assert_eq!(rt; tower_length(1, 30), Some(Ok(64)));
    assert_eq!(rt; tower_length(1, 31), Some(Err(17)));
    let ops = [eval(0), op(Op::Return)];
    let whole = [op(Op::EvalExpr(1)), ops[1]];
    assert!(rt; plenty(&Whole, &opaque(&tower(1, 31), &ops, &[row(1)]), Ok(&whole)));
}

// An expression nested as deep as there are records is refused, and not followed.
#[test]
fn a_million_deep(rt: HostRuntime) -> Result<(), Fail> {
    let mut exprs = Vec::new(rt.alloc());
    exprs.push(unused())?;
    exprs.resize(1_048_575, expr(6, 1, 1_048_576, 0))?;
    exprs.push(expr(3, 1, 1_048_576, 0))?;
    let ops = [eval(0), op(Op::Return)];
    assert!(rt; plenty(&Written, &opaque(&exprs, &ops, &[row(1)]), Err(17)));
    Ok(())
}

// A target one past the code.
#[test]
fn a_target_past_the_code(rt: HostRuntime) {
    let exprs = one_expr();
    let rows = [row(1)];
    let ops = [eval(0), op(Op::Jump(2))];
    assert!(rt; plenty(&Whole, &opaque(&exprs, &ops, &rows), Err(11)));
    let fine = [eval(0), op(Op::Jump(1))];
    let want = [op(Op::EvalExpr(1)), fine[1]];
    assert!(rt; plenty(&Whole, &opaque(&exprs, &fine, &rows), Ok(&want)));
}

// Rows of a bad kind or of no record, an expression against its form.
#[test]
fn bad_rows_and_records(rt: HostRuntime) {
    let exprs = one_expr();
    let ops = [eval(0), op(Op::Return)];
    let kind = [Row { kind: 3, number: 1 }];
    assert!(rt; plenty(&Whole, &opaque(&exprs, &ops, &kind), Err(11)));
    let number = [row(2)];
    assert!(rt; plenty(&Whole, &opaque(&exprs, &ops, &number), Err(11)));
    let malformed = [unused(), expr(6, 3, 2, 0)];
    let rows = [row(1)];
    assert!(rt; plenty(&Whole, &opaque(&malformed, &ops, &rows), Err(11)));
}
