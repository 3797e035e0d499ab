// Words of a line: what stands between blanks.
ghost use Rattle.std.specs.Prelude.{◌≡◌, ◌≤◌, ℕ, Bool, length, IfOk, ◌==◌};
ghost use Rattle.std.specs.Str.{bytes_eq};
ghost use Rattle.words.specs.Words.{blank, solid, of_sort, front_of, from_word};
ghost use Rattle.words.specs.Reads.{left, outcome, seen, Did, a_word, a_number, a_position, a_flag, no_more};

use super::expected::Expected;
use super::numbers;
use records::Position;

// The sorts of bytes that runs are made of.
#[derive(Clone, Copy, Debug, PartialEq, Eq)]
pub enum Sort {
    Blank,
    Solid,
    BeforeColon,
}

// `is_ascii_whitespace` takes a form feed too.
fn is_blank(byte: u8) -> bool
    ensures { result ≡ blank byte }
{
    // (Half the work of a pattern with four bytes, at each byte of a line.)
    byte == b' ' || byte == b'\t' || byte == b'\r' || byte == b'\n'
}

fn is_solid(byte: u8) -> bool
    ensures { result ≡ solid byte }
{
    !is_blank(byte)
}

// How many bytes in front are of a sort.
pub fn front(bytes: &[u8], sort: Sort) -> usize
    ensures value { result ≡ front_of (of_sort sort) bytes.now }
    ensures within { result ≤ length bytes.now }
{
    match sort {
        Sort::Blank => front_while(bytes, is_blank),
        Sort::Solid => front_while(bytes, is_solid),
        Sort::BeforeColon => front_while(bytes, |byte| byte != b':'),
    }
}

// How many bytes in front pass a test.
pub fn front_while<F: Fn(u8) -> bool>(bytes: &[u8], passes: F) -> usize
    requires { F.IsAlwaysCallable passes }
    ensures value { (test : ℕ → Bool) → ((x : ℕ) (b : Bool) → F.post passes x b → b ≡ test x) → result ≡ front_of test bytes.now }
    ensures within { result ≤ length bytes.now }
{
    bytes
        .iter()
        .position(|byte| !passes(*byte))
        .unwrap_or(bytes.len())
}

// Is a word this text? (`==` takes no array beside a slice: this is the place where one becomes the other.)
pub fn is(word: &[u8], text: &[u8]) -> bool
    ensures { result ≡ bytes_eq word.now text.now }
{
    word == text
}

// The words of a line that are still to be read.
#[derive(Clone, Copy)]
pub struct Words<'a> {
    rest: &'a [u8],
}

impl<'a> Words<'a> {
    pub fn of(line: &'a [u8]) -> Words<'a>
        ensures { left result ≡ line.now }
    {
        Words { rest: line }
    }

    // Passes the blanks in front, and tells whether no word follows.
    pub fn at_end(&mut self) -> bool
        ensures value { result ≡ (length (from_word (left self.old)) == 0) }
        ensures rest { left self.new ≡ from_word (left self.old) }
    {
        self.rest = &self.rest[front_while(self.rest, is_blank)..];
        self.rest.is_empty()
    }

    // The next word; at the line's end, what was expected.
    #[tactic(auto, unfolding(crate::specs::Reads::a_word))]
    pub fn word(&mut self, expected: Expected) -> Result<&'a [u8], Expected>
        ensures { a_word expected (left self.old) ≡ outcome (seen result) (left self.new) }
    {
        if self.at_end() {
            return Err(expected);
        }
        let (word, rest) = self.rest.split_at(front_while(self.rest, is_solid));
        self.rest = rest;
        Ok(word)
    }

    // A number that is at most `most`.
    #[tactic(auto, unfolding(crate::specs::Reads::a_number))]
    pub fn number(&mut self, most: u32) -> Result<u32, Expected>
        ensures value { Did (a_number most) (left self.old) result (left self.new) }
        ensures bound { IfOk result (λ n. n ≤ most) }
    {
        let word = self.word(Expected::Number(most))?;
        numbers::number(word, most).ok_or(Expected::Number(most))
    }

    // A position.
    #[tactic(auto, unfolding(crate::specs::Reads::a_position))]
    pub fn position(&mut self) -> Result<Position, Expected>
        ensures { Did a_position (left self.old) result (left self.new) }
    {
        let word = self.word(Expected::Position)?;
        numbers::position(word).ok_or(Expected::Position)
    }

    // 0 or 1.
    #[tactic(auto, unfolding(crate::specs::Reads::a_flag))]
    pub fn flag(&mut self) -> Result<bool, Expected>
        ensures { Did a_flag (left self.old) result (left self.new) }
    {
        let word = self.word(Expected::Flag)?;
        let flag = numbers::number(word, 1).ok_or(Expected::Flag)?;
        Ok(flag == 1)
    }

    // Nothing more.
    #[tactic(auto, unfolding(crate::specs::Reads::no_more))]
    pub fn end(&mut self) -> Result<(), Expected>
        ensures { Did no_more (left self.old) result (left self.new) }
    {
        if self.at_end() {
            Ok(())
        } else {
            Err(Expected::LineEnd)
        }
    }
}
