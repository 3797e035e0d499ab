// The checks that every later call rests on.

ghost use Rattle.std.specs.Prelude.{◌≡◌, ℕ, ◌+◌, ◌-◌, ◌^◌, ◌<◌, ◌≤◌, Bool, length, IfOk, Some};
ghost use Rattle.records.specs.Meanings.{kind_of};
ghost use Rattle.records.specs.Tree.{records};
ghost use Rattle.records.specs.Checks.{answered, names, may_name, each_fault, size_fault, label_fault, expr_fault, operator_fault, statement_fault, checked, label_fits, both_named, tiles, form_law, expr_stands, target_law, field_law, range_law, left_out, fault_inside};
ghost use Rattle.stack64.specs.Listed.{listed};
ghost use Rattle.records.specs.Accepts.{ByTree, SoundIfOk};

use crate::kinds::{
    BREAK, DEEPEST, EXPORTED, Form, Kind, MOST_BYTES, MOST_EXPRS, MOST_LABELS, MOST_NODES,
    MOST_OPERATORS, MOST_SLOTS, Target,
};
use crate::nest::{Open, close, limit};
use crate::refusals::Refusal;
use crate::types::{Expr, Label, Node, Operator, Script};
use stack64::Stack64;

// A reference names a record of a table of so many: 0 is absent.
fn is_record(count: usize, reference: u32) -> bool
    ensures { result ≡ names count reference }
{
    reference != 0 && (reference as usize) < count
}

// A reference names a record or is absent.
fn is_record_or_absent(count: usize, reference: u32) -> bool
    ensures { result ≡ may_name count reference }
{
    reference == 0 || (reference as usize) < count
}

// Too many records or bytes, or a slot limit out of range.
fn check_sizes(script: &Script) -> Result<(), Refusal>
    ensures { answered result ≡ size_fault (records script.now) }
{
    if script.nodes.len() > MOST_NODES
        || script.exprs.len() > MOST_EXPRS
        || script.text.len() > MOST_BYTES
        || script.labels.len() > MOST_LABELS
        || script.operators.len() > MOST_OPERATORS
        || script.limit == 0
        || script.limit > MOST_SLOTS
    {
        return Err(Refusal::TooLarge);
    }
    Ok(())
}

// Every record of a table is sound, the unused record 0 aside; what is not is malformed.
fn check_each<T, F: Fn((usize, &T)) -> bool>(table: &[T], is_sound: F) -> Result<(), Refusal>
    requires { (i : ℕ) (x : _) → i + 1 < 2 ^ 64 → F.pre is_sound (i, x) }
    ensures { (test : ℕ × T → Bool) → ((i : ℕ) (x : _) (r : Bool) → F.post is_sound (i, x) r → r ≡ test (i, x.now)) → answered result ≡ each_fault test table.now }
{
    let sound = table.iter().enumerate().skip(1).all(is_sound);
    sound.then_some(()).ok_or(Refusal::Malformed)
}

// A label lies within the text.
fn label_is_sound(script: &Script, label: &Label) -> bool
    ensures { result ≡ label_fits (length script.now.text.now) label.now }
{
    label.start as usize + label.length as usize <= script.text.len()
}

// Every label lies within the text.
pub fn check_labels(script: &Script) -> Result<(), Refusal>
    ensures { answered result ≡ label_fault (records script.now) }
{
    check_each(script.labels, |(_, label)| label_is_sound(script, label))
}

// Both tokens of an operator have labels.
fn operator_is_sound(script: &Script, operator: &Operator) -> bool
    ensures { result ≡ both_named (length script.now.labels.now) operator.now }
{
    let labels = script.labels.len();
    is_record(labels, operator.compound.label) && is_record(labels, operator.binary.label)
}

// Both tokens of every operator have labels.
fn check_operators(script: &Script) -> Result<(), Refusal>
    ensures { answered result ≡ operator_fault (records script.now) }
{
    check_each(
        script.operators,
        |(_, operator)| operator_is_sound(script, operator),
    )
}

// Hopping from record to record leads exactly to the end of a list.
// Each hop goes to where a record ends: `successors`, with the test of each hop, is no plainer.
fn is_tiled(script: &Script, from: usize, end: usize) -> bool
    requires { end ≤ length script.now.exprs.now }
    ensures { result ≡ tiles (records script.now) (end - from) from end }
{
    let mut item = from;
    while item < end {
        let next = script.exprs[item].end as usize;
        if next <= item || next > end {
            return false;
        }
        item = next;
    }
    item == end
}

// What a form asks of its record: a name has a label; a list has items, other forms none.
fn form_is_lawful(script: &Script, form: Form, expr: &Expr, i: usize) -> bool
    requires { i + 1 < 2 ^ 64 }
    ensures { result ≡ form_law form (records script.now) expr.now i }
{
    match form {
        Form::Unit | Form::True | Form::Opaque | Form::False => expr.end as usize == i + 1,
        Form::Name => is_record(script.labels.len(), expr.label) && expr.end as usize == i + 1,
        Form::AllOf | Form::AnyOf => i + 1 < expr.end as usize,
    }
}

// The fields of the expression at i are lawful, and the items of a list tile it.
fn expr_is_sound(script: &Script, i: usize, expr: &Expr) -> bool
    requires { i + 1 < 2 ^ 64 }
    ensures { result ≡ expr_stands (records script.now) expr.now i }
{
    let end = expr.end as usize;
    let Ok(form) = Form::try_from(expr.form) else {
        return false;
    };
    form_is_lawful(script, form, expr, i)
        && (!form.is_list() || (end <= script.exprs.len() && is_tiled(script, i + 1, end)))
}

// Every expression is lawful, and the items of a list tile it.
pub fn check_exprs(script: &Script) -> Result<(), Refusal>
    ensures { answered result ≡ expr_fault (records script.now) }
{
    check_each(script.exprs, |(i, expr)| expr_is_sound(script, i, expr))
}

// What the target of an assignment asks for.
fn target_is_lawful(script: &Script, target: Target, node: &Node) -> bool
    ensures { result ≡ target_law target (records script.now) node.now }
{
    match target {
        Target::Variable => is_record(script.labels.len(), node.label)
            && is_record_or_absent(script.operators.len(), node.operator),
        Target::Access | Target::Other => true,
    }
}

// The references that a kind asks for.
fn fields_are_lawful(script: &Script, kind: Kind, node: &Node) -> bool
    ensures { result ≡ field_law kind (records script.now) node.now }
{
    let exprs = script.exprs.len();
    let labels = script.labels.len();
    match kind {
        Kind::Noop | Kind::Block => true,
        Kind::Var => is_record(exprs, node.expr) && is_record(labels, node.label),
        Kind::Expr | Kind::If | Kind::While | Kind::Do => is_record(exprs, node.expr),
        Kind::FnCall => is_record(labels, node.label),
        Kind::Assignment => match Target::try_from(node.target) {
            Ok(target) => is_record(exprs, node.expr) && target_is_lawful(script, target, node),
            Err(_) => false,
        },
        Kind::TryCatch => is_record_or_absent(labels, node.label),
        Kind::For => is_record(exprs, node.expr)
            && is_record(labels, node.label)
            && is_record_or_absent(labels, node.counter),
        Kind::BreakLoop | Kind::Return => is_record_or_absent(exprs, node.expr),
    }
}

// Body and branch lie after the statement, one after the other, inside the block that it stands in; what it cannot
// have is empty.
fn range_is_lawful(kind: Kind, node: &Node, i: usize, limit: usize) -> bool
    ensures { result ≡ range_law kind node.now i limit }
{
    let mid = node.mid as usize;
    let end = node.end as usize;
    if !(i < mid && mid <= end && end <= limit) {
        return false;
    }
    if kind.has_body() {
        return kind.has_branch() || mid == end;
    }
    mid == i + 1 && end == i + 1
}

// Uses of a kind that are left out.
fn is_left_out(kind: Kind, node: &Node) -> bool
    ensures { result ≡ left_out kind node.now }
{
    match kind {
        Kind::Var => node.flags & EXPORTED != 0,
        Kind::Assignment => matches!(Target::try_from(node.target), Ok(Target::Access)),
        Kind::For => node.counter != 0,
        Kind::BreakLoop => node.expr != 0 && node.flags & BREAK == 0,
        _ => false,
    }
}

// The statement at i, inside the open ones: its kind.
fn check_node(script: &Script, i: usize, node: &Node, nest: &Stack64<Open>) -> Result<Kind, Refusal>
    ensures answer { answered result ≡ fault_inside (records script.now) node.now i (listed nest.now) }
    ensures kind { IfOk result (λ k. kind_of node.now.kind ≡ Some k) }
{
    let kind = Kind::try_from(node.kind)?;
    let limit = limit(nest, script.nodes.len());
    if !fields_are_lawful(script, kind, node) || !range_is_lawful(kind, node, i, limit) {
        return Err(Refusal::Malformed);
    }
    if is_left_out(kind, node) {
        return Err(Refusal::LeftOut);
    }
    if kind.has_body() && nest.len() >= DEEPEST {
        return Err(Refusal::TooDeep);
    }
    Ok(kind)
}

fn check_nodes(script: &Script) -> Result<(), Refusal>
    ensures { answered result ≡ statement_fault (records script.now) }
{
    let mut nest = Stack64::new(Open::default());
    for (i, node) in script.nodes.iter().enumerate() {
        close(&mut nest, i);
        let kind = check_node(script, i, node, &nest)?;
        if kind.has_body() {
            let open = Open {
                limit: node.mid as usize,
                end: node.end as usize,
            };
            // what would have no room was refused as too deep
            nest.push(open).unwrap();
        }
    }
    Ok(())
}

// The first fault in order: sizes, then labels, expressions, operators and statements.
fn check_all(script: &Script) -> Result<(), Refusal>
    ensures { answered result ≡ checked (records script.now) }
{
    check_sizes(script)?;
    check_labels(script)?;
    check_exprs(script)?;
    check_operators(script)?;
    check_nodes(script)
}

// Are the records those of a script? They are exactly if they are the preorder of a tree.
pub fn check(script: &Script) -> Result<(), Refusal>
    ensures answer { answered result ≡ checked (records script.now) }
    ensures tree { ByTree (records script.now) result }
    ensures sound { SoundIfOk (records script.now) result }
{
    check_all(script)
}
