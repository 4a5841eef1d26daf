// Replays fixed cases, one after the other, and prints what the proved code gives for each: every row, and the messages. Standard input
// has the cases and the file `stdout` the answers of the Rust, both written by the oracle. A case is `TOKENS TREE ERRORS LENGTH:` and the
// rule's bytes and a line feed: the lengths of the three tables in numbers, and of the rule in bytes.
#![tactic(auto)]

ghost use Rattle.std.specs.Prelude.{◌≤◌};

use cases::{noise, replay};
use lexer::limits::{ERROR_ROW, TOKEN_ROW, TREE_ROW};
use message::ErrorRow;
use std::io;
use std::io::Write;
use syntax::text;

// The most numbers that a token table, and a tree table or an error table, has in a case. They stand on the stack: the project has no heap.
const TOKENS: usize = 1520;

const ROWS: usize = 16672;

// The seed of the numbers that a table holds before the case is run: no row has them.
const SEED: usize = 0;

fn main(rt: HostRuntime) -> io::Result<()> {
    let mut input = [0u8; 262144];
    let n = streams::read_full(&mut rt.stdin(), &mut input)?;
    replay::<Case, _>(&mut rt.stdout(), &input[..n])
}

// A rule, and the lengths of the tables that it is read into.
#[derive(Drop)]
struct Case<'a> {
    tokens: usize,
    tree: usize,
    errors: usize,
    rule: &'a [u8],
    ghost fits: { (tokens ≤ 1520) × (tree ≤ 16672) × (errors ≤ 16672) },
}

impl<'a> cases::Case<'a> for Case<'a> {
    fn read(input: &'a [u8]) -> Option<(Case<'a>, &'a [u8])> {
        let (tokens, rest) = cases::number(input);
        let (tree, rest) = cases::number(rest);
        let (errors, rest) = cases::number(rest);
        let (rule, rest) = cases::text(rest)?;
        if TOKENS < tokens || ROWS < tree || ROWS < errors {
            return None;
        }
        Some((
            Case {
                tokens,
                tree,
                errors,
                rule,
            },
            rest,
        ))
    }
}

impl<'a> cases::Replayed<'a> for Case<'a> {
    // Reads the rule into tables of so many numbers.
    fn run<W: Write>(self, out: &mut W) -> io::Result<()> {
        let mut tokens = [0; TOKENS];
        let mut tree = [0; ROWS];
        let mut errors = [0; ROWS];
        run_in(
            out,
            self.rule,
            &mut tokens[..self.tokens],
            &mut tree[..self.tree],
            &mut errors[..self.errors],
        )
    }
}

// Only what is lent is filled: most cases are lent a small part of the largest tables.
fn run_in<W: Write>(
    out: &mut W,
    rule: &[u8],
    tokens: &mut [u32],
    tree: &mut [u32],
    errors: &mut [u32],
) -> io::Result<()> {
    noise::fill(tokens, SEED);
    noise::fill(tree, SEED);
    noise::fill(errors, SEED);
    match parser::parse_expr(rule, tokens, tree, errors) {
        Ok(rows) => {
            print_tokens(out, tokens, rows.tokens)?;
            print_tree(out, tree, rows.tree)?;
            print_errors(out, rule, errors, rows.errors)?;
            print_kept(
                out,
                is_kept::<TOKEN_ROW>(tokens, rows.tokens)
                    && is_kept::<TREE_ROW>(tree, rows.tree)
                    && is_kept::<ERROR_ROW>(errors, rows.errors),
            )
        }
        Err(refusal) => {
            writeln!(out, "refused {}", u32::from(refusal))?;
            print_kept(
                out,
                is_kept::<TOKEN_ROW>(tokens, 0)
                    && is_kept::<TREE_ROW>(tree, 0)
                    && is_kept::<ERROR_ROW>(errors, 0),
            )
        }
    }
}

// Prints the first n rows of a token table, and how many they are.
fn print_tokens<W: Write>(out: &mut W, table: &[u32], n: usize) -> io::Result<()> {
    for row in rows::first::<TOKEN_ROW>(table, n) {
        let [kind, first, end] = *row;
        writeln!(out, "{kind} {first} {end}")?;
    }
    writeln!(out, "tokens {n}")
}

// The same of a tree table.
fn print_tree<W: Write>(out: &mut W, table: &[u32], n: usize) -> io::Result<()> {
    for row in rows::first::<TREE_ROW>(table, n) {
        let [kind, level, first, end] = *row;
        writeln!(out, "{kind} {level} {first} {end}")?;
    }
    writeln!(out, "tree {n}")
}

// The same of an error table, with the message of each row.
fn print_errors<W: Write>(out: &mut W, rule: &[u8], table: &[u32], n: usize) -> io::Result<()> {
    for row in rows::first::<ERROR_ROW>(table, n) {
        let [form, expected, first, end] = *row;
        writeln!(out, "{form} {expected} {first} {end}")?;
        let mut line = [0u8; 4096];
        match message::write_message(rule, ErrorRow::from(*row), &mut line) {
            Some(n) => out.write_all(text::part(&line, 0, n))?,
            None => out.write_all(b"no room")?,
        }
        out.write_all(b"\n")?;
    }
    writeln!(out, "errors {n}")
}

// Whether every number past the first n rows is as it was before the case was run.
fn is_kept<const N: usize>(table: &[u32], n: usize) -> bool
    requires { N ≤ 4 }
{
    let rows = rows::first::<N>(table, n);
    let past = rows.as_flattened().len();
    rows.len() == n
        && table
            .iter()
            .enumerate()
            .skip(past)
            .all(|(at, number)| *number == noise::number(SEED, at))
}

fn print_kept<W: Write>(out: &mut W, kept: bool) -> io::Result<()> {
    if kept {
        return writeln!(out, "kept");
    }
    writeln!(out, "altered")
}
