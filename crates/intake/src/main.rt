// Reads scripts, and prints for each whether its records are accepted.
#![tactic(auto)]

mod answers;
mod lookups;
mod outline;
mod request;
mod texts;

use answers::answer;
use notation::{Reader, Step};
use request::Request;
use std::alloc::Global;
use std::fs::File;
use std::io::{BufRead, BufReader, Read, Write};
use std::{env, io};
use words::{Expected, Fault};

// Printed text is written out when so many bytes wait.
const BATCH: usize = 65_536;

// Says on standard error at which line the input is malformed, and what was expected there.
fn malformed(rt: &HostRuntime, line: u64, expected: Expected) -> io::Result<()> {
    eprintln!(rt; "intake: line {line}: expected {expected}")?;
    Err(io::ErrorKind::InvalidData.into())
}

fn flush(rt: &HostRuntime, out: &mut Vec<u8>) -> io::Result<()> {
    rt.stdout().write_all(out.as_slice())?;
    out.clear();
    Ok(())
}

// Takes one line, and answers the script that it completes.
fn take(reader: &mut Reader, line: &[u8], outline: bool, out: &mut Vec<u8>) -> Result<(), Fault> {
    if reader.take(line)? == Step::Complete {
        answer(out, reader.draft(), outline)?;
    }
    Ok(())
}

fn run<R: Read + Drop>(rt: &HostRuntime, mut input: BufReader<R>, outline: bool) -> io::Result<()> {
    let heap = rt.alloc();
    let mut reader = Reader::new(heap);
    let mut line = Vec::new(heap);
    let mut out = Vec::new(heap);
    // The count is for the messages, and ends the loop: `rt.forever()` might wait.
    for number in 1..u64::MAX {
        line.clear();
        if input.read_until(b'\n', &mut line)? == 0 {
            flush(rt, &mut out)?;
            return reader
                .finish()
                .or_else(|expected| malformed(rt, number, expected));
        }
        match take(&mut reader, line.as_slice(), outline, &mut out) {
            Ok(()) => {}
            Err(Fault::Malformed(expected)) => {
                flush(rt, &mut out)?;
                return malformed(rt, number, expected);
            }
            Err(Fault::NoMemory) => return Err(io::ErrorKind::OutOfMemory.into()),
        }
        if out.len() >= BATCH {
            flush(rt, &mut out)?;
        }
    }
    Ok(())
}

fn main(rt: HostRuntime) -> io::Result<()> {
    let Request { outline, file } = Request::of(env::args(&rt)?);
    match file {
        Some(path) => match File::open(&rt, path.as_str()) {
            Ok(file) => run(&rt, BufReader::new(rt.alloc(), file)?, outline),
            Err(error) => {
                eprintln!(rt; "intake: cannot read {path}: {error}")?;
                Err(error)
            }
        },
        None => run(&rt, BufReader::new(rt.alloc(), rt.stdin())?, outline),
    }
}
