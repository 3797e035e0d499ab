use code::{Instr, Row};
use records::Script;

// Code that is to be set: the script that it was compiled from, its name table, its operations, its residual rows.
#[derive(Clone, Copy)]
pub struct Compiled<'a> {
    pub script: Script<'a>,
    pub names: &'a [u32],
    pub ops: &'a [Instr],
    pub rows: &'a [Row],
}
