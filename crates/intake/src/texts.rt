// Pieces of what is printed, each added to the bytes before it.
ghost use Rattle.std.specs.Prelude.{◌≡◌, ◌<◌, ◌++◌, OnOk, IfSome};
ghost use Rattle.intake.specs.Texts.{indented, visible, hex_digit_of, hexed, spelled, shown};

use std::alloc::AllocError;
use std::fmt::Display;

// The longest part of a name that is shown.
const SHOWN: usize = 60;

// Adds what a value prints.
pub fn put<T: Display>(out: &mut Vec<u8>, value: &T) -> Result<(), AllocError>
    ensures { OnOk result (IfSome (T.output value.now) (λ text. out.new.items ≡ out.old.items ++ text)) }
{
    let text = format!(in *out.allocator(); "{value}")?;
    out.extend_from_slice(text.as_bytes())
}

// Two blanks for each level.
pub fn indent(out: &mut Vec<u8>, depth: usize) -> Result<(), AllocError>
    ensures { OnOk result (out.new.items ≡ indented depth out.old.items) }
{
    let blanks = "  ".repeat(*out.allocator(), depth)?;
    out.extend_from_slice(blanks.as_bytes())
}

fn hex_digit(digit: u8) -> u8
    requires { digit < 16 }
    ensures { result ≡ hex_digit_of digit }
{
    if digit < 10 {
        b'0' + digit
    } else {
        b'a' - 10 + digit
    }
}

fn is_visible(name: &[u8]) -> bool
    ensures { result ≡ visible name.now }
{
    name.iter().all(u8::is_ascii_graphic)
}

// (Digit by digit, and no `format!` or `write!`: a format for each byte takes five times the instructions or more.)
fn put_hex(out: &mut Vec<u8>, bytes: &[u8]) -> Result<(), AllocError>
    ensures { OnOk result (out.new.items ≡ hexed bytes.now out.old.items) }
{
    for byte in bytes {
        out.push(hex_digit(*byte / 16))?;
        out.push(hex_digit(*byte % 16))?;
    }
    Ok(())
}

#[tactic(auto, unfolding(crate::specs::Texts::spelled))]
fn put_spelled(out: &mut Vec<u8>, part: &[u8]) -> Result<(), AllocError>
    ensures { OnOk result (out.new.items ≡ spelled part.now out.old.items) }
{
    if is_visible(part) {
        return out.extend_from_slice(part);
    }
    out.extend_from_slice(b"0x")?;
    put_hex(out, part)
}

// A name as text where all of it is visible, otherwise in hexadecimal digits.
#[tactic(auto, unfolding(crate::specs::Texts::shown))]
pub fn put_name(out: &mut Vec<u8>, name: &[u8]) -> Result<(), AllocError>
    ensures { OnOk result (out.new.items ≡ shown name.now out.old.items) }
{
    if name.len() <= SHOWN {
        return put_spelled(out, name);
    }
    let (part, _) = name.split_at(SHOWN);
    put_spelled(out, part)?;
    out.extend_from_slice(b"..")
}
