// The tree of an accepted script, for people to read: a line for each statement, two blanks for each block around it.
ghost use Rattle.std.specs.Prelude.{◌≡◌, ◌+◌, ◌^◌, ◌<◌, ◌≤◌, ◌++◌, codes, OnOk};
ghost use Rattle.records.specs.Tree.{records};
ghost use Rattle.records.specs.Meanings.{kind_of, form_of, target_of};
ghost use Rattle.intake.specs.Outlines.{labelled, inside, form_text, head_text, head_if, items_text, list_text, expr_text, kind_text, is_variable, names, values, name_text, sign_text, operator_in, link_text, value_text, statement_text, branch_words, branch_text, line_text, around_next, still_around, outline_text, expr_in};

use super::lookups::{compound_of, expr_of, name_of};
use super::texts::{indent, put, put_name};
use records::{BREAK, CONSTANT, Expr, Form, Kind, NEGATED, Node, Script, Target};
use std::alloc::AllocError;

// The most records inside a list that are shown.
const ITEMS: usize = 8;

// How many records lie inside an expression.
fn inside(expr: Expr, number: usize) -> usize
    ensures { result ≡ inside (form_of expr.form) number expr }
{
    match Form::try_from(expr.form) {
        Ok(Form::AllOf | Form::AnyOf) => {
            (expr.end as usize).saturating_sub(number).saturating_sub(1)
        }
        _ => 0,
    }
}

fn kind_words(kind: Kind, flags: u32) -> &'static [u8]
    ensures { result.now ≡ kind_text kind flags }
{
    match kind {
        Kind::Noop => b"noop",
        Kind::Var if flags & CONSTANT != 0 => b"const",
        Kind::Var => b"let",
        Kind::Expr => b"expr",
        Kind::FnCall => b"call",
        Kind::Assignment => b"assign",
        Kind::Block => b"block",
        Kind::TryCatch => b"try",
        Kind::For => b"for",
        Kind::If => b"if",
        Kind::While => b"while",
        Kind::Do if flags & NEGATED != 0 => b"do until",
        Kind::Do => b"do while",
        Kind::BreakLoop if flags & BREAK != 0 => b"break",
        Kind::BreakLoop => b"continue",
        Kind::Return if flags & BREAK != 0 => b"throw",
        Kind::Return => b"return",
    }
}

fn is_variable(node: &Node) -> bool
    ensures { result ≡ is_variable (target_of node.now.target) }
{
    matches!(Target::try_from(node.target), Ok(Target::Variable))
}

// Does a statement name something?
fn has_name(kind: Kind, node: &Node) -> bool
    ensures { result ≡ names kind node.now }
{
    match kind {
        Kind::Var | Kind::FnCall | Kind::For => true,
        Kind::TryCatch => node.label != 0,
        Kind::Assignment => is_variable(node),
        _ => false,
    }
}

// May a statement have an expression?
fn has_value(kind: Kind) -> bool
    ensures { result ≡ values kind }
{
    !matches!(
        kind,
        Kind::Noop | Kind::FnCall | Kind::Block | Kind::TryCatch
    )
}

fn branch_words(node: &Node) -> &'static [u8]
    ensures { result.now ≡ branch_words (kind_of node.now.kind) }
{
    match Kind::try_from(node.kind) {
        Ok(Kind::TryCatch) => b"catch",
        _ => b"else",
    }
}

// Marks the branch of the innermost statement around, if it begins at a place.
#[tactic(auto, unfolding(crate::specs::Outlines::branch_text))]
fn put_branch(out: &mut Vec<u8>, around: &[Node], place: usize) -> Result<(), AllocError>
    ensures { OnOk result (out.new.items ≡ branch_text place around.now out.old.items) }
{
    if let Some(node) = around.last()
        && node.mid as usize == place
    {
        indent(out, around.len())?;
        out.extend_from_slice(branch_words(node))?;
        out.extend_from_slice(b"\n")?;
    }
    Ok(())
}

// Leaves the blocks that are over before a place.
fn leave(around: &mut Vec<Node>, place: usize)
    ensures { around.new.items ≡ still_around place around.old.items }
{
    let depth = around
        .iter()
        .take_while(|node| node.end as usize > place)
        .count();
    around.truncate(depth);
}

// A statement that has blocks is around what follows.
fn enter(around: &mut Vec<Node>, place: usize, node: Node) -> Result<(), AllocError>
    requires { place + 1 < 2 ^ 64 }
    ensures { OnOk result (around.new.items ≡ around_next place node around.old.items) }
{
    if node.end as usize > place + 1 {
        around.push(node)?;
    }
    Ok(())
}

// A script whose tree is put in an outline, part by part.
// (Bytes, and no `Display`: a name need not be text.)
// The bytes stay a parameter: were they lent to a field, each clause would also say what of the tree stays.
#[derive(Clone, Copy)]
struct Tree<'a> {
    script: Script<'a>,
}

impl Tree<'_> {
    fn put_label(&self, out: &mut Vec<u8>, label: u32) -> Result<(), AllocError>
        ensures { OnOk result (out.new.items ≡ labelled (records self.now.script) label out.old.items) }
    {
        if let Some(name) = name_of(&self.script, label) {
            put_name(out, name)?;
        }
        Ok(())
    }

    fn put_form(&self, out: &mut Vec<u8>, expr: Expr, number: usize) -> Result<(), AllocError>
        ensures { OnOk result (out.new.items ≡ form_text (records self.now.script) (form_of expr.form) number expr out.old.items) }
    {
        match Form::try_from(expr.form) {
            Ok(Form::Unit) => out.extend_from_slice(b"unit"),
            Ok(Form::True) => out.extend_from_slice(b"true"),
            Ok(Form::Opaque) => out.extend_from_slice(b"opaque"),
            Ok(Form::False) => out.extend_from_slice(b"false"),
            Ok(Form::Name) => {
                out.extend_from_slice(b"name ")?;
                self.put_label(out, expr.label)
            }
            Ok(Form::AllOf) => {
                out.extend_from_slice(b"all of ")?;
                put(out, &inside(expr, number))
            }
            Ok(Form::AnyOf) => {
                out.extend_from_slice(b"any of ")?;
                put(out, &inside(expr, number))
            }
            Err(_) => Ok(()),
        }
    }

    // An expression without what is inside it.
    #[tactic(auto, unfolding(crate::specs::Outlines::head_text))]
    fn put_head(&self, out: &mut Vec<u8>, expr: Expr, number: usize) -> Result<(), AllocError>
        ensures { OnOk result (out.new.items ≡ head_text (records self.now.script) number expr out.old.items) }
    {
        self.put_form(out, expr, number)?;
        out.extend_from_slice(b"@")?;
        put(out, &expr.at)
    }

    fn put_item(&self, out: &mut Vec<u8>, number: usize) -> Result<(), AllocError>
        ensures { OnOk result (out.new.items ≡ head_if (records self.now.script) number (expr_in (records self.now.script) number) (out.old.items ++ codes " ")) }
    {
        out.extend_from_slice(b" ")?;
        if let Some(expr) = expr_of(&self.script, number) {
            self.put_head(out, expr, number)?;
        }
        Ok(())
    }

    #[tactic(auto, using(crate::proofs::Items::items_more), unfolding(crate::specs::Outlines::items_text))]
    fn put_items(&self, out: &mut Vec<u8>, first: u32, count: usize) -> Result<(), AllocError>
        requires { count ≤ 8 }
        ensures { OnOk result (out.new.items ≡ items_text (records self.now.script) count (first + 1) out.old.items) }
    {
        let start = first as usize + 1;
        // numbers, which may lie past the table: no slice of it has them all
        for number in start..start + count {
            self.put_item(out, number)?;
        }
        Ok(())
    }

    // The first records inside a list, in brackets.
    fn put_list(&self, out: &mut Vec<u8>, first: u32, count: usize) -> Result<(), AllocError>
        ensures { OnOk result (out.new.items ≡ list_text (records self.now.script) count first out.old.items) }
    {
        if count == 0 {
            return Ok(());
        }
        out.extend_from_slice(b" [")?;
        self.put_items(out, first, count.min(ITEMS))?;
        let end: &[u8] = if count > ITEMS { b" .. ]" } else { b" ]" };
        out.extend_from_slice(end)
    }

    #[tactic(auto, unfolding(crate::specs::Outlines::expr_text))]
    fn put_expr(&self, out: &mut Vec<u8>, number: u32) -> Result<(), AllocError>
        ensures { OnOk result (out.new.items ≡ expr_text (records self.now.script) number (expr_in (records self.now.script) number) out.old.items) }
    {
        if let Some(expr) = expr_of(&self.script, number as usize) {
            self.put_head(out, expr, number as usize)?;
            self.put_list(out, number, inside(expr, number as usize))?;
        }
        Ok(())
    }

    #[tactic(auto, unfolding(crate::specs::Outlines::name_text))]
    fn put_target(&self, out: &mut Vec<u8>, kind: Kind, node: &Node) -> Result<(), AllocError>
        ensures { OnOk result (out.new.items ≡ name_text (records self.now.script) kind node.now out.old.items) }
    {
        if has_name(kind, node) {
            out.extend_from_slice(b" ")?;
            self.put_label(out, node.label)?;
        }
        Ok(())
    }

    // The operator of an assignment to a variable.
    fn operator_of(&self, node: &Node) -> Option<u32>
        ensures { result ≡ operator_in (records self.now.script) node.now }
    {
        if node.operator == 0 || !is_variable(node) {
            return None;
        }
        compound_of(&self.script, node.operator)
    }

    fn put_sign(&self, out: &mut Vec<u8>, operator: Option<u32>) -> Result<(), AllocError>
        ensures { OnOk result (out.new.items ≡ sign_text (records self.now.script) operator out.old.items) }
    {
        match operator {
            Some(label) => self.put_label(out, label),
            None => out.extend_from_slice(b"="),
        }
    }

    // What stands between the name and the expression.
    #[tactic(auto, unfolding(crate::specs::Outlines::link_text))]
    fn put_link(&self, out: &mut Vec<u8>, kind: Kind, node: &Node) -> Result<(), AllocError>
        ensures { OnOk result (out.new.items ≡ link_text (records self.now.script) kind node.now out.old.items) }
    {
        match kind {
            Kind::Var => out.extend_from_slice(b" ="),
            Kind::For => out.extend_from_slice(b" in"),
            Kind::Assignment => {
                out.extend_from_slice(b" ")?;
                self.put_sign(out, self.operator_of(node))
            }
            _ => Ok(()),
        }
    }

    #[tactic(auto, unfolding(crate::specs::Outlines::value_text))]
    fn put_value(&self, out: &mut Vec<u8>, kind: Kind, node: &Node) -> Result<(), AllocError>
        ensures { OnOk result (out.new.items ≡ value_text (records self.now.script) kind node.now out.old.items) }
    {
        if has_value(kind) && node.expr != 0 {
            out.extend_from_slice(b" ")?;
            self.put_expr(out, node.expr)?;
        }
        Ok(())
    }

    // A statement without its blocks.
    #[tactic(auto, unfolding(crate::specs::Outlines::statement_text))]
    fn put_statement(&self, out: &mut Vec<u8>, node: &Node) -> Result<(), AllocError>
        ensures { OnOk result (out.new.items ≡ statement_text (records self.now.script) (kind_of node.now.kind) node.now out.old.items) }
    {
        let Ok(kind) = Kind::try_from(node.kind) else {
            return Ok(());
        };
        out.extend_from_slice(kind_words(kind, node.flags))?;
        self.put_target(out, kind, node)?;
        self.put_link(out, kind, node)?;
        self.put_value(out, kind, node)?;
        out.extend_from_slice(b" @")?;
        put(out, &node.at)?;
        out.extend_from_slice(b"\n")
    }

    // The line of a statement, after the mark of a branch that begins with it.
    #[tactic(auto, unfolding(crate::specs::Outlines::line_text))]
    fn put_line(
        &self,
        out: &mut Vec<u8>,
        around: &[Node],
        place: usize,
        node: &Node,
    ) -> Result<(), AllocError>
        ensures { OnOk result (out.new.items ≡ line_text (records self.now.script) place node.now around.now out.old.items) }
    {
        put_branch(out, around, place)?;
        indent(out, around.len() + 1)?;
        self.put_statement(out, node)
    }
}

// Adds the outline of a script.
#[tactic(auto, using(crate::proofs::Items::outline_more), unfolding(crate::specs::Outlines::outline_text, crate::specs::Outlines::outline_from))]
pub fn outline(out: &mut Vec<u8>, script: &Script) -> Result<(), AllocError>
    ensures { OnOk result (out.new.items ≡ outline_text (records script.now) out.old.items) }
{
    let tree = Tree { script: *script };
    let mut around: Vec<Node> = Vec::new(*out.allocator());
    for (place, node) in script.nodes.iter().enumerate() {
        leave(&mut around, place);
        tree.put_line(out, around.as_slice(), place, node)?;
        enter(&mut around, place, *node)?;
    }
    Ok(())
}
