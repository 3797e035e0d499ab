// Reads scripts line by line.
ghost use Rattle.std.specs.Prelude.{◌≡◌, false, if◌then◌else◌, Ok, Err};
ghost use Rattle.words.specs.Faults.{Agrees};
ghost use Rattle.notation.specs.Lines.{line_of};
ghost use Rattle.notation.specs.Tables.{state_of, taken};

use super::draft::Draft;
use super::lines::Line;
use std::alloc::Global;
use words::{Expected, Fault};

// What a line led to. (A bool would not say which of the two it is.)
#[derive(Clone, Copy, Debug, PartialEq, Eq)]
pub enum Step {
    More,
    // the script is read to its end
    Complete,
}

// A draft, and whether its script is open: a flag, since the draft is lent after its script is closed too.
#[derive(Drop)]
pub struct Reader {
    busy: bool,
    draft: Draft,
}

impl Reader {
    pub fn new(heap: Global) -> Reader
        ensures { result.busy ≡ false }
    {
        Reader {
            busy: false,
            draft: Draft::new(heap),
        }
    }

    // Takes the next line.
    pub fn take(&mut self, line: &[u8]) -> Result<Step, Fault>
        ensures { Agrees (taken (state_of self.old) (line_of line.now)) result (state_of self.new) }
    {
        match Line::read(line)? {
            Line::Empty => Ok(Step::More),
            Line::Script(_) if self.busy => Err(Expected::End.into()),
            Line::Script(name) => {
                self.draft.begin(name)?;
                self.busy = true;
                Ok(Step::More)
            }
            _ if !self.busy => Err(Expected::Script.into()),
            Line::Record(record) => {
                self.draft.add(record)?;
                Ok(Step::More)
            }
            Line::End => {
                self.busy = false;
                Ok(Step::Complete)
            }
        }
    }

    // At the input's end: no script may be open.
    pub fn finish(&self) -> Result<(), Expected>
        ensures { result ≡ (if self.now.busy then Err Expected.End else Ok tt) }
    {
        if !self.busy {
            return Ok(());
        }
        Err(Expected::End)
    }

    // The script that was read last.
    pub fn draft(&self) -> &Draft
        ensures { result.now ≡ self.now.draft }
    {
        &self.draft
    }
}

#[cfg(test)]
mod tests {
    use super::*;

    // What a line should have been.
    fn expected(reader: &mut Reader, line: &[u8]) -> Option<Expected> {
        match reader.take(line) {
            Err(Fault::Malformed(expected)) => Some(expected),
            _ => None,
        }
    }

    #[test]
    fn lines_outside_a_script(rt: HostRuntime) {
        let mut reader = Reader::new(rt.alloc());
        assert_eq!(rt; expected(&mut reader, b"  \t\r\n"), None);
        assert_eq!(rt; expected(&mut reader, b"# end"), None);
        assert_eq!(rt; expected(&mut reader, b"end"), Some(Expected::Script));
        assert_eq!(rt; expected(&mut reader, b"label 0 0"), Some(Expected::Script));
        assert_eq!(rt; expected(&mut reader, b"Script a"), Some(Expected::Keyword));
        assert_eq!(rt; expected(&mut reader, b"script"), Some(Expected::Name));
        assert_eq!(rt;
            expected(&mut reader, b"script a b"),
            Some(Expected::LineEnd)
        );
        assert!(rt; reader.finish().is_ok());
    }

    #[test]
    fn lines_inside_a_script(rt: HostRuntime) {
        let mut reader = Reader::new(rt.alloc());
        assert_eq!(rt; expected(&mut reader, b"script a\r\n"), None);
        assert_eq!(rt; expected(&mut reader, b"script b"), Some(Expected::End));
        assert_eq!(rt; expected(&mut reader, b"keep 2"), Some(Expected::Flag));
        assert_eq!(rt; expected(&mut reader, b"text abc"), Some(Expected::Hex));
        assert!(rt; matches!(expected(&mut reader, b"label 0"), Some(Expected::Number(_))));
        assert_eq!(rt;
            expected(&mut reader, b"expr 1 1 1:1 2 0"),
            Some(Expected::Position)
        );
        assert!(rt;
            matches!(
                expected(&mut reader, b"oper 65536 0 0 0"),
                Some(Expected::Number(_))
            )
        );
        assert_eq!(rt; expected(&mut reader, b"text -"), None);
        assert!(rt; reader.finish().is_err());
    }

    #[test]
    fn tables_of_a_script(rt: HostRuntime) {
        let mut reader = Reader::new(rt.alloc());
        assert_eq!(rt; expected(&mut reader, b"script a"), None);
        assert_eq!(rt;
            expected(&mut reader, b"node 1 0 1:2 0:0 1 1 0 0 0 0 0 0"),
            None
        );
        assert_eq!(rt; expected(&mut reader, b"\ttext 4a4B"), None);
        assert_eq!(rt; reader.take(b"end"), Ok(Step::Complete));
        let script = reader.draft().script();
        assert!(rt;
            script.text == b"JK".as_slice() && script.nodes.len() == 1 && script.labels.len() == 1
        );
    }
}
