// Numbers and positions, each a word.
ghost use Rattle.std.specs.Prelude.{◌≡◌, ◌≤◌, IfSome, ◌==◌, position};
ghost use Rattle.words.specs.Numbers.{number_in, position_in};

use records::Position;

// The number that a word's digits write, if it is at most `most`.
#[tactic(auto, using(crate::proofs::Digits::read_past))]
pub fn number(word: &[u8], most: u32) -> Option<u32>
    ensures value { result ≡ number_in most word.now }
    ensures bound { IfSome result (λ n. n ≤ most) }
{
    if word.is_empty() {
        return None;
    }
    // (In 64 bits, where no digit more overflows: `checked_mul` costs a division for each.)
    let mut value: u64 = 0;
    for byte in word {
        let digit = char::from(*byte).to_digit(10)?;
        value = value * 10 + u64::from(digit);
        if value > u64::from(most) {
            return None;
        }
    }
    Some(value as u32)
}

// Where the first colon is.
fn colon(word: &[u8]) -> Option<usize>
    ensures { result ≡ position (λ c. c == 58) word.now }
{
    word.iter().position(|byte| *byte == b':')
}

// Line and column with a colon between.
pub fn position(word: &[u8]) -> Option<Position>
    ensures { result ≡ position_in word.now }
{
    let colon = colon(word)?;
    let most = u32::from(u16::MAX);
    let line = number(&word[..colon], most)?;
    let column = number(&word[colon + 1..], most)?;
    // Both casts are proved to lose nothing, where `try_from` would have an error that cannot come.
    Some(Position {
        line: line as u16,
        column: column as u16,
    })
}
