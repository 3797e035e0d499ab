// Lines: a word that says what the line is, and its fields.
ghost use Rattle.std.specs.Prelude.{◌≡◌};
ghost use Rattle.words.specs.Reads.{left, outcome, Did};
ghost use Rattle.notation.specs.Lines.{keyword_of, label_line, expr_line, symbol_of, oper_line, node_line, fields_of, commented, said_of, line_of};

use records::{Expr, Label, Node, Operator, Symbol};
use words::{Expected, Words};

// The first words of lines.
#[derive(Clone, Copy, Debug, PartialEq, Eq)]
pub enum Keyword {
    Script,
    Limit,
    Keep,
    Text,
    Label,
    Expr,
    Oper,
    Node,
    End,
}

// Something of an open script.
#[derive(Clone, Copy, Debug, PartialEq, Eq)]
pub enum Record<'a> {
    Limit(u32),
    Keep(bool),
    // as the line has it: pairs of digits, or a dash
    Text(&'a [u8]),
    Label(Label),
    Expr(Expr),
    Oper(Operator),
    Node(Node),
}

// What a line says.
#[derive(Clone, Copy, Debug, PartialEq, Eq)]
pub enum Line<'a> {
    // nothing: blanks or a comment
    Empty,
    Script(&'a [u8]),
    Record(Record<'a>),
    End,
}

impl Keyword {
    // The keyword that a word is. (For the one caller, which says what it expected, an impl of `TryFrom` is no plainer.)
    #[tactic(auto, unfolding(crate::specs::Lines::keyword_of))]
    fn of(word: &[u8]) -> Option<Keyword>
        ensures { result ≡ keyword_of word.now }
    {
        match word {
            b"script" => Some(Keyword::Script),
            b"limit" => Some(Keyword::Limit),
            b"keep" => Some(Keyword::Keep),
            b"text" => Some(Keyword::Text),
            b"label" => Some(Keyword::Label),
            b"expr" => Some(Keyword::Expr),
            b"oper" => Some(Keyword::Oper),
            b"node" => Some(Keyword::Node),
            b"end" => Some(Keyword::End),
            _ => None,
        }
    }
}

fn read_label(words: &mut Words) -> Result<Label, Expected>
    ensures { Did label_line (left words.old) result (left words.new) }
{
    Ok(Label {
        start: words.number(u32::MAX)?,
        length: words.number(u32::MAX)?,
    })
}

fn read_expr(words: &mut Words) -> Result<Expr, Expected>
    ensures { Did expr_line (left words.old) result (left words.new) }
{
    Ok(Expr {
        form: words.number(u32::MAX)?,
        at: words.position()?,
        start: words.position()?,
        end: words.number(u32::MAX)?,
        label: words.number(u32::MAX)?,
    })
}

fn read_symbol(words: &mut Words) -> Result<Symbol, Expected>
    ensures { Did symbol_of (left words.old) result (left words.new) }
{
    // The cast is proved to lose nothing, where `try_from` would have an error that cannot come.
    Ok(Symbol {
        token: words.number(u32::from(u16::MAX))? as u16,
        label: words.number(u32::MAX)?,
    })
}

fn read_operator(words: &mut Words) -> Result<Operator, Expected>
    ensures { Did oper_line (left words.old) result (left words.new) }
{
    Ok(Operator {
        compound: read_symbol(words)?,
        binary: read_symbol(words)?,
    })
}

fn read_node(words: &mut Words) -> Result<Node, Expected>
    ensures { Did node_line (left words.old) result (left words.new) }
{
    Ok(Node {
        kind: words.number(u32::MAX)?,
        flags: words.number(u32::MAX)?,
        at: words.position()?,
        mark: words.position()?,
        mid: words.number(u32::MAX)?,
        end: words.number(u32::MAX)?,
        expr: words.number(u32::MAX)?,
        label: words.number(u32::MAX)?,
        counter: words.number(u32::MAX)?,
        reuse: words.number(u32::MAX)?,
        target: words.number(u32::MAX)?,
        operator: words.number(u32::MAX)?,
    })
}

fn fields<'a>(keyword: Keyword, words: &mut Words<'a>) -> Result<Line<'a>, Expected>
    ensures { fields_of keyword (left words.old) ≡ outcome (said_of result) (left words.new) }
{
    let record = match keyword {
        Keyword::Script => return Ok(Line::Script(words.word(Expected::Name)?)),
        Keyword::End => return Ok(Line::End),
        Keyword::Limit => Record::Limit(words.number(u32::MAX)?),
        Keyword::Keep => Record::Keep(words.flag()?),
        Keyword::Text => Record::Text(words.word(Expected::Hex)?),
        Keyword::Label => Record::Label(read_label(words)?),
        Keyword::Expr => Record::Expr(read_expr(words)?),
        Keyword::Oper => Record::Oper(read_operator(words)?),
        Keyword::Node => Record::Node(read_node(words)?),
    };
    Ok(Line::Record(record))
}

fn is_comment(word: &[u8]) -> bool
    ensures { result ≡ commented word.now }
{
    matches!(word, [b'#', ..])
}

impl<'a> Line<'a> {
    // What a line says, or what it should have said.
    pub fn read(line: &'a [u8]) -> Result<Line<'a>, Expected>
        ensures { line_of line.now ≡ said_of result }
    {
        let mut words = Words::of(line);
        if words.at_end() {
            return Ok(Line::Empty);
        }
        let first = words.word(Expected::Keyword)?;
        if is_comment(first) {
            return Ok(Line::Empty);
        }
        let keyword = Keyword::of(first).ok_or(Expected::Keyword)?;
        let said = fields(keyword, &mut words)?;
        words.end()?;
        Ok(said)
    }
}
