// parser.rs: what reading a rule gives. The definitions and laws of this crate say which tree and which errors; `parser` has the code.
#![tactic(auto)]

use syntax::refusal::Refusal;

// What reading a rule gives: the numbers of its rows in the three tables.
#[derive(Clone, Copy)]
pub struct Rows {
    pub tokens: usize,
    pub tree: usize,
    pub errors: usize,
}

// The numbers of rows, or the refusal of a rule that is not read.
pub type Reading = Result<Rows, Refusal>;

// Where the parser stands: the next token and its first byte, and the next places of the tree and the error table.
#[derive(Clone, Copy)]
pub struct Cursor {
    pub token: usize,
    pub byte: u32,
    pub row: usize,
    pub error: usize,
}

// The places past the last `and` and past the last `or` of a rule.
#[derive(Clone, Copy)]
pub struct Ops {
    pub ands: usize,
    pub ors: usize,
}
