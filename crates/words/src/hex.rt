// Bytes as pairs of hexadecimal digits.
ghost use Rattle.std.specs.Prelude.{◌≡◌, ◌<◌, IfSome};
ghost use Rattle.words.specs.Hex.{hex_digit, pair_of, spelt};
ghost use Rattle.words.specs.Faults.{Became};

use super::expected::{Expected, Fault};

fn digit(byte: u8) -> Option<u8>
    ensures value { result ≡ hex_digit byte }
    ensures bound { IfSome result (λ n. n < 16) }
{
    // The cast is proved to lose nothing, where `try_from` would have an error that cannot come.
    Some(char::from(byte).to_digit(16)? as u8)
}

fn pair(high: u8, low: u8) -> Option<u8>
    ensures { result ≡ pair_of (hex_digit high) (hex_digit low) }
{
    Some(digit(high)? * 16 + digit(low)?)
}

// Adds the bytes that a word spells.
#[tactic(auto, using(crate::proofs::Pairs::spelt_more))]
pub fn spell(word: &[u8], bytes: &mut Vec<u8>) -> Result<(), Fault>
    ensures { Became (spelt bytes.old.items word.now) result bytes.new.items }
{
    let mut rest = word;
    while let [high, low, tail @ ..] = rest {
        bytes.push(pair(*high, *low).ok_or(Expected::Hex)?)?;
        rest = tail;
    }
    if !rest.is_empty() {
        return Err(Expected::Hex.into());
    }
    Ok(())
}
