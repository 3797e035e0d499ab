// Words of a line: what stands between blanks, and what words may stand for.
#![tactic(auto)]

mod expected;
mod hex;
mod numbers;
mod words;

pub use expected::{Expected, Fault};
pub use hex::spell;
pub use numbers::{number, position};
pub use words::{Sort, Words, front, front_while, is};

#[cfg(test)]
mod tests {
    use super::*;
    use records::Position;

    #[test]
    fn numbers(rt: HostRuntime) {
        assert_eq!(rt; number(b"0", 0), Some(0));
        assert_eq!(rt; number(b"007", 7), Some(7));
        assert_eq!(rt; number(b"8", 7), None);
        assert_eq!(rt; number(b"4294967295", u32::MAX), Some(u32::MAX));
        assert_eq!(rt; number(b"4294967296", u32::MAX), None);
        assert_eq!(rt; number(b"99999999999999999999999999", u32::MAX), None);
        assert_eq!(rt; number(b"", u32::MAX), None);
        assert_eq!(rt; number(b"+1", u32::MAX), None);
        assert_eq!(rt; number(b"1x", u32::MAX), None);
    }

    #[test]
    fn positions(rt: HostRuntime) {
        let last = Position {
            line: 0,
            column: 65_535,
        };
        assert_eq!(rt; position(b"0:65535"), Some(last));
        assert_eq!(rt; position(b"0:65536"), None);
        assert_eq!(rt; position(b"65536:0"), None);
        assert_eq!(rt; position(b"1"), None);
        assert_eq!(rt; position(b":1"), None);
        assert_eq!(rt; position(b"1:"), None);
        assert_eq!(rt; position(b"1:2:3"), None);
    }

    #[test]
    fn pairs(rt: HostRuntime) {
        let mut bytes = Vec::new(rt.alloc());
        assert!(rt; spell(b"00fFa9", &mut bytes).is_ok());
        assert!(rt; bytes.as_slice() == [0, 255, 169].as_slice());
        assert_eq!(rt;
            spell(b"0", &mut bytes),
            Err(Fault::Malformed(Expected::Hex))
        );
        assert_eq!(rt;
            spell(b"0g", &mut bytes),
            Err(Fault::Malformed(Expected::Hex))
        );
    }
}
