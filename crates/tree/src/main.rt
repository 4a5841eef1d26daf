// Reads a rule from standard input and prints its tree rows, the number of parse errors and their messages, or why it is refused. Its exit
// status is 0 where all of that was printed, whatever it says of the rule, and 4 where the rule could not be read or the answer not written.
#![tactic(auto)]

use lexer::limits::{ERROR_ROW, MAX_RULE, TREE_ROW};
use message::ErrorRow;
use rows::{ROWS, TOKENS};
use std::io;
use std::io::Write;
use std::process::ExitCode;
use syntax::text;

// One byte more than a rule may have: a rule that fills the buffer is too long, whatever follows. It stands on the stack, as the tables do:
// the project has no heap.
const BUFFER: usize = MAX_RULE + 1;

// The exit status where nothing was read, or not all was printed.
const NOT_PRINTED: u8 = 4;

fn main(rt: HostRuntime) -> ExitCode {
    match read_rule(&rt) {
        Ok(()) => ExitCode::SUCCESS,
        Err(error) => {
            // Where standard error cannot be written either, the status alone is left to tell it.
            let _ = writeln!(rt.stderr(), "tree: {error}");
            ExitCode::from(NOT_PRINTED)
        }
    }
}

fn read_rule(rt: &HostRuntime) -> io::Result<()> {
    let mut input = rt.stdin();
    let mut buffer = [0u8; BUFFER];
    let n = streams::read_full(&mut input, &mut buffer)?;
    io::copy(&mut input, &mut io::sink())?;
    print_reading(&mut rt.stdout(), &buffer[..n])
}

fn print_reading<W: Write>(out: &mut W, rule: &[u8]) -> io::Result<()> {
    let mut tokens = [0; TOKENS];
    let mut tree = [0; ROWS];
    let mut errors = [0; ROWS];
    match parser::parse_expr(rule, &mut tokens, &mut tree, &mut errors) {
        Ok(rows) => {
            print_tree(out, &tree, rows.tree)?;
            writeln!(out, "errors {}", rows.errors)?;
            print_messages(out, rule, &errors, rows.errors)
        }
        Err(refusal) => writeln!(out, "refused {}", u32::from(refusal)),
    }
}

// Prints the first n rows of a tree table, or as many as it has. `replay` has the same: one for both would be public, with no contract that
// says what is printed.
fn print_tree<W: Write>(out: &mut W, table: &[u32], n: usize) -> io::Result<()> {
    for row in rows::first::<TREE_ROW>(table, n) {
        let [kind, level, first, end] = *row;
        writeln!(out, "{kind} {level} {first} {end}")?;
    }
    Ok(())
}

// Prints the messages of the first n error rows, or of as many as there are.
fn print_messages<W: Write>(out: &mut W, rule: &[u8], errors: &[u32], n: usize) -> io::Result<()> {
    for row in rows::first::<ERROR_ROW>(errors, n) {
        let mut line = [0u8; 4096];
        match message::write_message(rule, ErrorRow::from(*row), &mut line) {
            Some(n) => out.write_all(text::part(&line, 0, n))?,
            None => out.write_all(b"a message too long to print")?,
        }
        out.write_all(b"\n")?;
    }
    Ok(())
}
