// Replays fixed runs of rules on boards, one after the other, and prints what the proved code gives for each. Standard input has the
// boards and the runs, and the file `stdout` the answers of the Rust, all written by the oracle. First stands the number of boards and a
// line feed, then each board: `LENGTH:`, its bytes and a line feed. A run is `BOARD TOKENS TREE ERRORS COLLECTION LENGTH:`, the rule's
// bytes and a line feed: the board by its index, the lengths of the four tables in numbers, and of the rule in bytes.
#![tactic(auto)]

ghost use Rattle.std.specs.Prelude.{◌<◌, ◌≤◌};

use calls::value::{Outcome, Value};
use cases::{Cases, noise};
use eval::Answer;
use std::io;
use std::io::Write;
use trees::Reading;

// The most numbers that each table has in a run: tokens, tree and errors, collection. They stand on the stack: the project has no heap.
const TOKENS: usize = 1520;

const ROWS: usize = 16672;

const COLLECTION: usize = 12000;

fn main(rt: HostRuntime) -> io::Result<()> {
    let mut input = [0u8; 400000];
    let n = streams::read_full(&mut rt.stdin(), &mut input)?;
    replay(&mut rt.stdout(), &input[..n])
}

// Runs the cases past the boards, and stops at one that is not in the format. One whose rule is cut short runs an empty rule first. A case
// needs the boards and its number, so that `cases::replay`, whose cases stand by themselves, does not serve.
fn replay<W: Write>(out: &mut W, input: &[u8]) -> io::Result<()> {
    let (count, boards) = cases::number(input);
    let runs = past_boards(input, boards, count);
    for (i, case) in Cases::<Case>::new(runs).enumerate() {
        let Some(case) = case else {
            return writeln!(out, "not a case");
        };
        let number = i + 1;
        writeln!(out, "case {number}")?;
        let image = text(past_boards(input, boards, case.board)).unwrap_or(&[]);
        run_case(out, image, &case, number % 65536)?;
        if case.rule.is_none() {
            return writeln!(out, "not a case");
        }
    }
    Ok(())
}

// What is left of the input past the first n boards. Where one is cut short, the next is looked for from the input's beginning.
fn past_boards<'a>(input: &'a [u8], boards: &'a [u8], n: usize) -> &'a [u8] {
    let mut rest = boards;
    for _ in 0..n {
        rest = match cases::text(rest) {
            Some((_, after)) => after,
            None => input,
        };
    }
    rest
}

// The text at the front of the input.
fn text(input: &[u8]) -> Option<&[u8]> {
    let (text, _) = cases::text(input)?;
    Some(text)
}

// A rule, none if the file ends in it, the index of its board, and the lengths of the tables that it runs with.
#[derive(Drop)]
struct Case<'a> {
    board: usize,
    tokens: usize,
    tree: usize,
    errors: usize,
    collection: usize,
    rule: Option<&'a [u8]>,
    ghost fits: { (tokens ≤ 1520) × (tree ≤ 16672) × (errors ≤ 16672) × (collection ≤ 12000) },
}

impl<'a> cases::Case<'a> for Case<'a> {
    fn read(input: &'a [u8]) -> Option<(Case<'a>, &'a [u8])> {
        if input.is_empty() {
            return None;
        }
        let (board, rest) = cases::number(input);
        let (tokens, rest) = cases::number(rest);
        let (tree, rest) = cases::number(rest);
        let (errors, rest) = cases::number(rest);
        let (collection, rest) = cases::number(rest);
        let (rule, rest) = match cases::text(rest) {
            Some((rule, rest)) => (Some(rule), rest),
            None => (None, &input[..0]),
        };
        if TOKENS < tokens || ROWS < tree || ROWS < errors || COLLECTION < collection {
            return None;
        }
        Some((
            Case {
                board,
                tokens,
                tree,
                errors,
                collection,
                rule,
            },
            rest,
        ))
    }
}

// Runs the rule on an image with tables of so many numbers.
fn run_case<W: Write>(out: &mut W, image: &[u8], case: &Case<'_>, seed: usize) -> io::Result<()>
    requires { seed < 65536 }
{
    let mut tokens = [0; TOKENS];
    let mut tree = [0; ROWS];
    let mut errors = [0; ROWS];
    let mut collection = [0; COLLECTION];
    let mut tables = Tables {
        tokens: &mut tokens[..case.tokens],
        tree: &mut tree[..case.tree],
        errors: &mut errors[..case.errors],
        collection: &mut collection[..case.collection],
    };
    tables.fill(seed);
    tables.print_run(out, case.rule.unwrap_or(&[]), image)
}

// The four tables that a rule runs with.
#[derive(Drop)]
struct Tables<'a> {
    tokens: &'a mut [u32],
    tree: &'a mut [u32],
    errors: &'a mut [u32],
    collection: &'a mut [u32],
}

impl Tables<'_> {
    // Only what is lent is filled: most runs are lent a small part of the largest tables.
    fn fill(&mut self, seed: usize)
        requires { seed < 65536 }
    {
        noise::fill(self.tokens, seed);
        noise::fill(self.tree, seed + 8);
        noise::fill(self.errors, seed + 16);
        noise::fill(self.collection, seed + 24);
    }

    fn run(&mut self, rule: &[u8], image: &[u8]) -> Answer {
        eval::run(
            rule,
            image,
            self.tokens,
            self.tree,
            self.errors,
            self.collection,
        )
    }

    // Runs the rule, and prints the answer's numbers, a digest of each table, and the members of a collection.
    fn print_run<W: Write>(&mut self, out: &mut W, rule: &[u8], image: &[u8]) -> io::Result<()> {
        let answer = self.run(rule, image);
        print_outcome(out, answer.outcome)?;
        write!(out, "{} ", u32::from(answer.verdict))?;
        print_reading(out, answer.reading)?;
        write!(out, "{} {} ", digest(self.tokens), digest(self.tree))?;
        writeln!(out, "{} {}", digest(self.errors), digest(self.collection))?;
        match answer.outcome {
            Ok(value) => print_members(out, rows::members(value, self.collection)),
            Err(_) => Ok(()),
        }
    }
}

// What the rule comes to, its amount, and whether it is warned.
fn print_outcome<W: Write>(out: &mut W, outcome: Outcome) -> io::Result<()> {
    match outcome {
        Ok(Value::Components(n)) => write!(out, "1 {n} 0 "),
        Ok(Value::Features(n)) => write!(out, "2 {n} 0 "),
        Ok(Value::Diagnostics(n)) => write!(out, "3 {n} 0 "),
        Ok(Value::Bool(holds)) => write!(out, "4 {} 0 ", u8::from(holds)),
        Ok(Value::BoolWithWarning(holds)) => write!(out, "4 {} 1 ", u8::from(holds)),
        Ok(Value::Count(n)) => write!(out, "5 {n} 0 "),
        Err(refusal) => write!(out, "0 {} 0 ", u32::from(refusal)),
    }
}

// Whether there are numbers of rows, and those of token, tree and error rows.
fn print_reading<W: Write>(out: &mut W, reading: Reading) -> io::Result<()> {
    match reading {
        Ok(rows) => writeln!(out, "1 {} {} {}", rows.tokens, rows.tree, rows.errors),
        Err(_) => writeln!(out, "0 0 0 0"),
    }
}

fn print_members<W: Write>(out: &mut W, members: &[[u32; 2]]) -> io::Result<()> {
    for row in members {
        let [first, second] = *row;
        writeln!(out, "{first} {second}")?;
    }
    Ok(())
}

// A digest of all numbers of a table, in their order.
fn digest(table: &[u32]) -> u64 {
    let mut sum = 1;
    for number in table {
        sum = digest_on(sum, *number);
    }
    sum
}

// The digest with one number more. It stays below 2 ^ 32, so that no product wraps.
fn digest_on(sum: u64, number: u32) -> u64
    requires { sum ≤ 4294967290 }
    ensures { result ≤ 4294967290 }
{
    (sum * 1_000_003 + u64::from(number)) % 4_294_967_291
}
