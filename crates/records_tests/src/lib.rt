// The checks of records, tried at both sides of every limit: tables of records with the numbers that they are refused
// with, 0 where they are accepted.
#![tactic(auto)]

#[cfg(test)]
mod tests {
    use records::{Expr, Label, Node, Operator, Script, Symbol, check};
    use std::alloc::Global;
    use std::test::Fail;

    // Labels of a text of two bytes; record 0 is unused, and would be wrong.
    const LABELS: [Label; 3] = [
        Label {
            start: 9,
            length: 9,
        },
        Label {
            start: 0,
            length: 2,
        },
        Label {
            start: 2,
            length: 0,
        },
    ];

    fn label(start: u32, length: u32) -> Label {
        Label { start, length }
    }

    fn expr(form: u32, end: u32, label: u32) -> Expr {
        Expr {
            form,
            end,
            label,
            ..Expr::default()
        }
    }

    fn symbol(label: u32) -> Symbol {
        Symbol { token: 0, label }
    }

    fn operator(compound: u32, binary: u32) -> Operator {
        Operator {
            compound: symbol(compound),
            binary: symbol(binary),
        }
    }

    // A statement with a name and a value, whose target is a variable.
    fn node(kind: u32, mid: u32, end: u32) -> Node {
        Node {
            kind,
            mid,
            end,
            expr: 1,
            label: 1,
            target: 1,
            ..Node::default()
        }
    }

    // The number of a refusal, or 0: numbers are what is promised, and tables of cases read so.
    fn told(script: &Script) -> u32 {
        check(script).err().map_or(0, |refusal| refusal.number())
    }

    // A text and its labels, and nothing else.
    fn empty() -> Script<'static> {
        Script {
            text: b"ab",
            labels: &LABELS,
            exprs: &[],
            operators: &[],
            nodes: &[],
            limit: 8,
            keep: false,
        }
    }

    fn told_labels(labels: &[Label], limit: u32) -> u32 {
        told(&Script {
            labels,
            limit,
            ..empty()
        })
    }

    fn told_exprs(exprs: &[Expr]) -> u32 {
        told(&Script { exprs, ..empty() })
    }

    fn told_operators(operators: &[Operator]) -> u32 {
        told(&Script {
            operators,
            ..empty()
        })
    }

    // Two expressions and an operator can be named.
    fn told_nodes(nodes: &[Node]) -> u32 {
        let exprs = [expr(0, 0, 0), expr(3, 2, 0), expr(5, 3, 1)];
        let operators = [operator(0, 0), operator(1, 2)];
        told(&Script {
            exprs: &exprs,
            operators: &operators,
            nodes,
            ..empty()
        })
    }

    // A statement alone, with these fields, and no second label or operator; its target is neither variable nor access.
    fn told_fields(kind: u32, flags: u32, expr: u32, label: u32) -> u32 {
        told_nodes(&[Node {
            flags,
            expr,
            label,
            target: 3,
            ..node(kind, 1, 1)
        }])
    }

    // An assignment alone.
    fn told_assign(target: u32, label: u32, operator: u32) -> u32 {
        told_nodes(&[Node {
            label,
            target,
            operator,
            ..node(5, 1, 1)
        }])
    }

    // Two statements, the first with these ranges.
    fn told_ranges(kind: u32, mid: u32, end: u32) -> u32 {
        told_nodes(&[
            Node {
                flags: 8,
                target: 3,
                ..node(kind, mid, end)
            },
            node(1, 2, 2),
        ])
    }

    // An expression alone, of this form, with this label; and such a list of one item.
    fn told_form(form: u32, label: u32) -> (u32, u32) {
        let unused = expr(9, 9, 9);
        (
            told_exprs(&[unused, expr(form, 2, label)]),
            told_exprs(&[unused, expr(form, 3, label), expr(1, 3, 0)]),
        )
    }

    // Four expressions, by form and end.
    fn told_four(four: [(u32, u32); 4]) -> u32 {
        let [a, b, c, d] = four.map(|(form, end)| expr(form, end, 0));
        told_exprs(&[expr(9, 9, 9), a, b, c, d])
    }

    // Three statements, by kind, mid and end.
    fn told_three(three: [(u32, u32, u32); 3]) -> u32 {
        told_nodes(&three.map(|(kind, mid, end)| node(kind, mid, end)))
    }

    // Start, length and slot limit; the number.
    const LABEL_ROWS: [(u32, u32, u32, u32); 12] = [
        (0, 2, 0, 10),
        (0, 2, 1, 0),
        (0, 2, 65_535, 0),
        (0, 2, 65_536, 10),
        (1, 1, 1, 0),
        (2, 0, 1, 0),
        (0, 3, 1, 11),
        (2, 1, 1, 11),
        (3, 0, 1, 11),
        (u32::MAX, u32::MAX, 1, 11),
        (2, u32::MAX - 1, 1, 11),
        (0, 3, 0, 10),
    ];

    #[test]
    fn slot_limits_and_labels(rt: HostRuntime) {
        for (start, length, limit, number) in LABEL_ROWS {
            let labels = [label(9, 9), label(0, 1), label(start, length)];
            assert_eq!(rt; told_labels(&labels, limit), number);
        }
    }

    #[test]
    fn operators_have_two_labels(rt: HostRuntime) {
        for (compound, binary, number) in [
            (1, 2, 0),
            (0, 2, 11),
            (1, 0, 11),
            (1, 3, 11),
            (3, 1, 11),
            (u32::MAX, 1, 11),
        ] {
            let operators = [operator(9, 9), operator(1, 1), operator(compound, binary)];
            assert_eq!(rt; told_operators(&operators), number);
        }
    }

    // Form and label; the numbers of an expression alone and of a list of one item.
    const FORM_ROWS: [(u32, u32, (u32, u32)); 13] = [
        (0, 1, (11, 11)),
        (1, 0, (0, 11)),
        (2, 3, (0, 11)),
        (3, 1, (0, 11)),
        (4, 1, (0, 11)),
        (5, 0, (11, 11)),
        (5, 1, (0, 11)),
        (5, 2, (0, 11)),
        (5, 3, (11, 11)),
        (6, 0, (11, 0)),
        (7, 3, (11, 0)),
        (8, 1, (11, 11)),
        (u32::MAX, 1, (11, 11)),
    ];

    #[test]
    fn forms_of_expressions(rt: HostRuntime) {
        for (form, label, numbers) in FORM_ROWS {
            assert_eq!(rt; told_form(form, label), numbers);
        }
    }

    const LIST_ROWS: [([(u32, u32); 4], u32); 10] = [
        ([(6, 5), (7, 4), (1, 4), (2, 5)], 0),
        ([(6, 3), (1, 3), (7, 5), (1, 5)], 0),
        ([(6, 5), (7, 5), (6, 5), (1, 5)], 0),
        // nothing in a list
        ([(6, 2), (1, 3), (1, 4), (1, 5)], 11),
        // items that end one before the list, or one after it
        ([(6, 4), (1, 3), (7, 5), (1, 5)], 11),
        ([(6, 4), (7, 5), (1, 4), (1, 5)], 11),
        // a list past the table
        ([(1, 2), (1, 3), (6, 6), (1, 5)], 11),
        ([(6, u32::MAX), (1, 3), (1, 4), (1, 5)], 11),
        // an item that ends where it begins, or before
        ([(6, 5), (6, 2), (1, 4), (1, 5)], 11),
        ([(6, 5), (6, 0), (1, 4), (1, 5)], 11),
    ];

    #[test]
    fn lists_are_tiled(rt: HostRuntime) {
        for (four, number) in LIST_ROWS {
            assert_eq!(rt; told_four(four), number);
        }
    }

    // Of each kind from 0 on, the numbers: with all fields, without an expression, with one past its table, without a
    // label, with one past its table.
    const KIND_ROWS: [[u32; 5]; 15] = [
        [11, 11, 11, 11, 11],
        [0, 0, 0, 0, 0],
        [0, 11, 11, 11, 11],
        [0, 11, 11, 0, 0],
        [0, 0, 0, 11, 11],
        [0, 11, 11, 0, 0],
        [0, 0, 0, 0, 0],
        [0, 0, 0, 0, 11],
        [0, 11, 11, 11, 11],
        [0, 11, 11, 0, 0],
        [0, 11, 11, 0, 0],
        [0, 11, 11, 0, 0],
        [0, 0, 11, 0, 0],
        [0, 0, 11, 0, 0],
        [11, 11, 11, 11, 11],
    ];

    #[test]
    fn fields_of_kinds(rt: HostRuntime) {
        for (kind, numbers) in (0u32..).zip(KIND_ROWS) {
            let told = [
                told_fields(kind, 8, 1, 1),
                told_fields(kind, 8, 0, 1),
                told_fields(kind, 8, 3, 1),
                told_fields(kind, 8, 1, 0),
                told_fields(kind, 8, 1, 3),
            ];
            assert_eq!(rt; told, numbers);
        }
    }

    // Target, label and operator; the number.
    const ASSIGN_ROWS: [(u32, u32, u32, u32); 8] = [
        (0, 1, 0, 11),
        (1, 1, 0, 0),
        (2, 1, 0, 12),
        (4, 1, 0, 11),
        (1, 0, 0, 11),
        (1, 1, 1, 0),
        (1, 1, 2, 11),
        (3, 0, 2, 0),
    ];

    #[test]
    fn targets(rt: HostRuntime) {
        for (target, label, operator, number) in ASSIGN_ROWS {
            assert_eq!(rt; told_assign(target, label, operator), number);
        }
    }

    // Kind, flags and label; the number.
    const LEFT_OUT_ROWS: [(u32, u32, u32, u32); 7] = [
        (2, 2, 1, 12),
        (2, 15, 1, 12),
        (2, 13, 1, 0),
        (2, 2, 0, 11),
        (3, 2, 1, 0),
        (12, 7, 1, 12),
        (12, 8, 1, 0),
    ];

    #[test]
    fn what_is_left_out(rt: HostRuntime) {
        for (kind, flags, label, number) in LEFT_OUT_ROWS {
            assert_eq!(rt; told_fields(kind, flags, 1, label), number);
        }
        // a loop with a counter, and with one past the labels
        for (counter, number) in [(1, 12), (3, 11)] {
            let counted = Node {
                counter,
                ..node(8, 1, 1)
            };
            assert_eq!(rt; told_nodes(&[counted]), number);
        }
    }

    #[test]
    fn ranges_of_blocks(rt: HostRuntime) {
        for kind in 1u32..14 {
            let blocks = if matches!(kind, 6..=11) { 0 } else { 11 };
            let branches = if matches!(kind, 7 | 9) { 0 } else { 11 };
            assert_eq!(rt;
                [
                    told_ranges(kind, 1, 1),
                    told_ranges(kind, 2, 2),
                    told_ranges(kind, 1, 2),
                ],
                [0, blocks, branches]
            );
            let backwards = [
                told_ranges(kind, 0, 0),
                told_ranges(kind, 0, 1),
                told_ranges(kind, 2, 1),
            ];
            assert_eq!(rt; backwards, [11, 11, 11]);
            assert_eq!(rt;
                [
                    told_ranges(kind, 3, 3),
                    told_ranges(kind, u32::MAX, u32::MAX),
                ],
                [11, 11]
            );
        }
    }

    const BLOCK_ROWS: [([(u32, u32, u32); 3], u32); 6] = [
        // a statement that ends with its body's block, or overruns it, into the branch or past the whole
        ([(9, 2, 3), (6, 2, 2), (1, 3, 3)], 0),
        ([(9, 2, 3), (6, 3, 3), (1, 3, 3)], 11),
        ([(6, 2, 2), (6, 3, 3), (1, 3, 3)], 11),
        ([(6, 3, 3), (6, 3, 3), (1, 3, 3)], 0),
        ([(9, 1, 3), (7, 2, 3), (1, 3, 3)], 0),
        ([(9, 1, 2), (7, 2, 3), (1, 3, 3)], 11),
    ];

    #[test]
    fn blocks_are_tiled(rt: HostRuntime) {
        for (three, number) in BLOCK_ROWS {
            assert_eq!(rt; told_three(three), number);
        }
        // the first fault in the order of records
        let exported = Node {
            flags: 2,
            ..node(2, 1, 1)
        };
        assert_eq!(rt;
            [
                told_nodes(&[exported, node(0, 2, 2)]),
                told_nodes(&[node(0, 1, 1), exported]),
                told_nodes(&[]),
            ],
            [12, 11, 0]
        );
    }

    // So many blocks inside one another, and in the innermost one statement more.
    fn told_nested(heap: Global, depth: u16, last: Node) -> Result<u32, Fail> {
        let end = u32::from(depth) + 1;
        let mut nodes = vec![in heap; node(6, end, end); usize::from(depth)]?;
        nodes.push(last)?;
        Ok(told_nodes(&nodes))
    }

    #[test]
    fn nested_statements(rt: HostRuntime) -> Result<(), Fail> {
        assert_eq!(rt; told_nested(rt.alloc(), 64, node(1, 65, 65))?, 0);
        assert_eq!(rt; told_nested(rt.alloc(), 63, node(6, 64, 64))?, 0);
        assert_eq!(rt; told_nested(rt.alloc(), 64, node(6, 65, 65))?, 13);
        assert_eq!(rt; told_nested(rt.alloc(), 65, node(0, 66, 66))?, 13);
        // 11 before 12 before 13 at one statement
        let looped = Node {
            counter: 1,
            ..node(8, 65, 65)
        };
        assert_eq!(rt; told_nested(rt.alloc(), 64, looped)?, 12);
        assert_eq!(rt;
            told_nested(rt.alloc(), 64, Node { expr: 0, ..looped })?,
            11
        );
        Ok(())
    }

    // Three tables filled to their limits: the field that is filled would be one closure more.
    fn told_text(heap: Global, bytes: usize) -> Result<u32, Fail> {
        let text = vec![in heap; 0u8; bytes]?;
        Ok(told(&Script {
            text: &text,
            labels: &[],
            ..empty()
        }))
    }

    fn told_many_labels(heap: Global, count: usize) -> Result<u32, Fail> {
        let labels = vec![in heap; label(0, 2); count]?;
        Ok(told_labels(&labels, 8))
    }

    fn told_many_operators(heap: Global, count: usize) -> Result<u32, Fail> {
        let operators = vec![in heap; operator(1, 2); count]?;
        Ok(told_operators(&operators))
    }

    // Statements one after another.
    fn told_many_nodes(heap: Global, count: u32) -> Result<u32, Fail> {
        let nodes: Vec<Node> = (1..=count).map(|end| node(1, end, end)).collect(heap)?;
        Ok(told_nodes(&nodes))
    }

    // Lists of one item, each inside the one before.
    fn told_many_exprs(heap: Global, count: u32) -> Result<u32, Fail> {
        let mut exprs = vec![in heap; expr(6, count, 0); count as usize]?;
        if let Some(last) = exprs.last_mut() {
            last.form = 1;
        }
        Ok(told_exprs(&exprs))
    }

    #[test]
    fn tables_at_their_limits(rt: HostRuntime) -> Result<(), Fail> {
        for more in 0u32..2 {
            let number = more * 10;
            let past = more as usize;
            assert_eq!(rt; told_text(rt.alloc(), 1_048_576 + past)?, number);
            assert_eq!(rt; told_many_labels(rt.alloc(), 65_536 + past)?, number);
            assert_eq!(rt; told_many_operators(rt.alloc(), 4_096 + past)?, number);
            assert_eq!(rt; told_many_nodes(rt.alloc(), 1_048_576 + more)?, number);
            assert_eq!(rt; told_many_exprs(rt.alloc(), 1_048_576 + more)?, number);
        }
        Ok(())
    }
}
