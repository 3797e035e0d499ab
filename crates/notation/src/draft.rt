// A script that is being read: the tables that it owns.
ghost use Rattle.std.specs.Prelude.{◌≡◌, [], ◌∷◌, OnOk};
ghost use Rattle.records.specs.Tree.{records};
ghost use Rattle.words.specs.Faults.{Became};
ghost use Rattle.notation.specs.Lines.{entry_of};
ghost use Rattle.notation.specs.Tables.{tables, records_of, untouched, fresh, text_of, with_text, added, named};

use super::lines::Record;
use records::{Expr, Label, Node, Operator, Script};
use std::alloc::{AllocError, Global};
use words::{Fault, is, spell};

// The largest limit, which a script has that states none.
const LARGEST: u32 = 65_535;

// Leaves in a table its record 0 alone, which no script uses.
fn reset<T: Default + Drop>(table: &mut Vec<T>) -> Result<(), AllocError>
    ensures { OnOk result ((x : T) × T.is_default x × (table.new.items ≡ x ∷ [])) }
{
    table.clear();
    table.push(T::default())?;
    Ok(())
}

#[derive(Drop)]
pub struct Draft {
    name: Vec<u8>,
    text: Vec<u8>,
    labels: Vec<Label>,
    exprs: Vec<Expr>,
    operators: Vec<Operator>,
    nodes: Vec<Node>,
    limit: u32,
    keep: bool,
}

impl Draft {
    // Tables with nothing in them.
    pub fn new(heap: Global) -> Draft
        ensures { tables result ≡ untouched }
    {
        Draft {
            name: Vec::new(heap),
            text: Vec::new(heap),
            labels: Vec::new(heap),
            exprs: Vec::new(heap),
            operators: Vec::new(heap),
            nodes: Vec::new(heap),
            limit: LARGEST,
            keep: false,
        }
    }

    // Begins a script of this name; what was there before is gone.
    pub fn begin(&mut self, name: &[u8]) -> Result<(), AllocError>
        ensures { OnOk result (tables self.new ≡ fresh name.now) }
    {
        self.name.clear();
        self.name.extend_from_slice(name)?;
        self.text.clear();
        self.nodes.clear();
        self.limit = LARGEST;
        self.keep = false;
        reset(&mut self.labels)?;
        reset(&mut self.exprs)?;
        reset(&mut self.operators)
    }

    fn spell_text(&mut self, word: &[u8]) -> Result<(), Fault>
        ensures { Became (named self.old.name.items (with_text (records_of self.old) (text_of word.now))) result (tables self.new) }
    {
        self.text.clear();
        if !is(word, b"-") {
            spell(word, &mut self.text)?;
        }
        Ok(())
    }

    // Adds what a line says.
    pub fn add(&mut self, item: Record) -> Result<(), Fault>
        ensures { Became (named self.old.name.items (added (records_of self.old) (entry_of item.entry))) result (tables self.new) }
    {
        match item {
            Record::Limit(limit) => self.limit = limit,
            Record::Keep(keep) => self.keep = keep,
            Record::Text(word) => self.spell_text(word)?,
            Record::Label(label) => self.labels.push(label)?,
            Record::Expr(expr) => self.exprs.push(expr)?,
            Record::Oper(operator) => self.operators.push(operator)?,
            Record::Node(node) => self.nodes.push(node)?,
        }
        Ok(())
    }

    pub fn name(&self) -> &[u8]
        ensures { result.now ≡ self.now.name.items }
    {
        self.name.as_slice()
    }

    // The script that the tables hold.
    pub fn script(&self) -> Script<'_>
        ensures { records result ≡ records_of self.now }
    {
        Script {
            text: self.text.as_slice(),
            labels: self.labels.as_slice(),
            exprs: self.exprs.as_slice(),
            operators: self.operators.as_slice(),
            nodes: self.nodes.as_slice(),
            limit: self.limit,
            keep: self.keep,
        }
    }
}
