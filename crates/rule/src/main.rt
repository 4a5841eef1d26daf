// Runs a rule on a board: `rule BOARD-FILE`, with the rule on standard input. It prints the verdict on a line of its own, then the outcome
// in words: the members of a collection, the parse errors with their places, or the members for which a quantifier failed. Its exit status
// is the verdict's number, or 4 where no rule was run or its answer could not be printed.
#![tactic(auto)]

ghost use Rattle.std.specs.Prelude.{◌≤◌, length, IfOk};

use board::MAX_IMAGE;
use calls::value::{Outcome, Verdict};
use lexer::limits::{ERROR_ROW, MAX_RULE, TREE_ROW};
use message::ErrorRow;
use report::{answer, error};
use rows::{ROWS, TOKENS};
use std::env::FillError;
use std::io::{ErrorKind, Write};
use std::process::ExitCode;
use std::rt::Env;
use std::{fs, io, str};
use texts::Writer;

// One byte more than a rule and an image may have: what fills the buffer is too long, whatever follows. All buffers and tables stand on the
// stack, as the project has no heap.
const RULE: usize = MAX_RULE + 1;

const IMAGE: usize = MAX_IMAGE + 1;

// The numbers of a collection table that every board has room in.
const COLLECTION: usize = MAX_IMAGE;

// The room for the lines of an answer or an error, and for a member: more than the longest line, which a diagnostic's message makes.
const LINES: usize = 4096;

const MEMBER: usize = 131072;

// The room for a file's name.
const PATH: usize = 4096;

// The room for the rule that names the members for which a quantifier failed: two parts of the rule, each shorter than `RULE`, and at most
// 12 bytes around them. So it is never cut.
const WITNESS: usize = 2 * RULE + 12;

// The exit status where no rule was run, or its answer could not be printed.
const NOT_RUN: u8 = 4;

// Why no rule was run, or its answer not printed.
#[derive(Clone, Copy)]
enum Failure {
    Usage,
    Board(io::Error),
    Rule(io::Error),
    Output(io::Error),
}

fn main(rt: HostRuntime) -> ExitCode {
    let mut path = [0u8; PATH];
    let ended = match rt.arg(1, &mut path) {
        Ok(length) if !has_second_argument(&rt) => run_argument(&rt, &path[..length]),
        _ => Err(Failure::Usage),
    };
    match ended {
        Ok(status) => status,
        Err(failure) => {
            // Where standard error cannot be written either, the status alone is left to tell it.
            let _ = tell(&mut rt.stderr(), failure);
            ExitCode::from(NOT_RUN)
        }
    }
}

fn has_second_argument(rt: &HostRuntime) -> bool {
    !matches!(rt.arg(2, &mut [0u8; 1]), Err(FillError::NotPresent))
}

// Says how to use the program, or runs on a board file, and gives the status to end with.
fn run_argument(rt: &HostRuntime, path: &[u8]) -> Result<ExitCode, Failure> {
    if path == b"--help".as_slice() {
        return match print_usage(&mut rt.stdout()) {
            Ok(()) => Ok(ExitCode::SUCCESS),
            Err(error) => Err(Failure::Output(error)),
        };
    }
    Ok(answer::exit_code(run_on(rt, path)?))
}

fn print_usage<W: Write>(out: &mut W) -> io::Result<()> {
    out.write_all(
        b"usage: rule BOARD-FILE < RULE-FILE\n\
          The board file is a board image. The rule is read from standard input.\n\
          The first line says pass, fail, refused or open; the lines below say why.\n\
          Exit status: 0 pass, 1 fail, 2 refused, 3 open; 4 where no rule was run, or\n\
          the answer could not be written.\n",
    )
}

// Says why no rule was run or its answer not printed.
fn tell<W: Write>(err: &mut W, failure: Failure) -> io::Result<()> {
    match failure {
        Failure::Usage => print_usage(err),
        Failure::Board(error) => writeln!(err, "rule: the board file cannot be read: {error}"),
        Failure::Rule(error) => writeln!(
            err,
            "rule: the rule on standard input cannot be read: {error}"
        ),
        Failure::Output(error) => writeln!(err, "rule: the answer cannot be written: {error}"),
    }
}

// Runs the rule on standard input on a board file, and prints what it comes to.
fn run_on(rt: &HostRuntime, path: &[u8]) -> Result<Verdict, Failure> {
    let mut image = [0u8; IMAGE];
    let image_end = match read_board(rt, path, &mut image) {
        Ok(n) => n,
        Err(error) => return Err(Failure::Board(error)),
    };
    let mut rule = [0u8; RULE];
    let rule_end = match streams::read_full(&mut rt.stdin(), &mut rule) {
        Ok(n) => n,
        Err(error) => return Err(Failure::Rule(error)),
    };
    match run_rule(&mut rt.stdout(), &image[..image_end], &rule[..rule_end]) {
        Ok(verdict) => Ok(verdict),
        Err(error) => Err(Failure::Output(error)),
    }
}

// Reads a board file, or as much of it as the buffer has room for.
fn read_board(rt: &HostRuntime, path: &[u8], image: &mut [u8]) -> io::Result<usize>
    ensures { IfOk result (λ n. n ≤ length image.new) }
{
    let Ok(name) = str::from_utf8(path) else {
        return Err(io::Error::from(ErrorKind::InvalidFilename));
    };
    let mut file = fs::open(rt, name)?;
    streams::read_full(&mut file, image)
}

// Runs the rule, prints what it comes to and gives the verdict.
fn run_rule<W: Write>(out: &mut W, image: &[u8], rule: &[u8]) -> io::Result<Verdict> {
    let mut tokens = [0; TOKENS];
    let mut tree = [0; ROWS];
    let mut errors = [0; ROWS];
    let mut collection = [0; COLLECTION];
    let ran = eval::run(
        rule,
        image,
        &mut tokens,
        &mut tree,
        &mut errors,
        &mut collection,
    );
    let mut space = [0u8; LINES];
    let mut lines = Writer::new(&mut space);
    answer::write_head(ran.outcome, &mut lines);
    out.write_all(lines.written())?;
    if let Ok(rows) = ran.reading {
        print_errors(out, rule, rows::first::<ERROR_ROW>(&errors, rows.errors))?;
        print_members(out, image, ran.outcome, &collection)?;
        if matches!(ran.verdict, Verdict::Fail) {
            print_failing(out, image, rule, rows::first::<TREE_ROW>(&tree, rows.tree))?;
        }
    }
    Ok(ran.verdict)
}

// The parse errors, each with the rule's line and a mark under the place.
fn print_errors<W: Write>(out: &mut W, rule: &[u8], errors: &[[u32; ERROR_ROW]]) -> io::Result<()> {
    let mut space = [0u8; LINES];
    for row in errors {
        let mut lines = Writer::new(&mut space);
        error::write_error(rule, ErrorRow::from(*row), &mut lines);
        out.write_all(lines.written())?;
    }
    Ok(())
}

// The members of a collection.
fn print_members<W: Write>(
    out: &mut W,
    image: &[u8],
    outcome: Outcome,
    collection: &[u32],
) -> io::Result<()> {
    let Ok(value) = outcome else {
        return Ok(());
    };
    let mut space = [0u8; MEMBER];
    for row in rows::members(value, collection) {
        let [first, second] = *row;
        let mut lines = Writer::new(&mut space);
        members::write_member(image, value, first, second, &mut lines);
        out.write_all(lines.written())?;
    }
    Ok(())
}

// The members for which a quantifier is false, by the rule that names them.
fn print_failing<W: Write>(
    out: &mut W,
    image: &[u8],
    rule: &[u8],
    tree: &[[u32; TREE_ROW]],
) -> io::Result<()> {
    let mut space = [0u8; WITNESS];
    let mut lines = Writer::new(&mut space);
    witness::write_witness(rule, tree.as_flattened(), &mut lines);
    let witness = lines.written();
    if witness.is_empty() {
        return Ok(());
    }
    list_members(out, image, witness)
}

// Runs the rule that names the members and prints what it gives, without a verdict. It has up to 8 bytes, a bracket and a `not` more than
// the rule that failed, and so may be past a limit: then the refusal is printed in place of the members.
fn list_members<W: Write>(out: &mut W, image: &[u8], rule: &[u8]) -> io::Result<()> {
    let mut tokens = [0; TOKENS];
    let mut tree = [0; ROWS];
    let mut errors = [0; ROWS];
    let mut collection = [0; COLLECTION];
    let outcome = eval::run(
        rule,
        image,
        &mut tokens,
        &mut tree,
        &mut errors,
        &mut collection,
    )
    .outcome;
    print_naming_rule(out, rule, outcome.is_ok())?;
    let mut space = [0u8; LINES];
    let mut lines = Writer::new(&mut space);
    answer::write_outcome(outcome, &mut lines);
    out.write_all(lines.written())?;
    out.write_all(b"\n")?;
    print_members(out, image, outcome, &collection)
}

// The rule that names the members, with its control characters shown as blanks, and the words before its outcome.
fn print_naming_rule<W: Write>(out: &mut W, rule: &[u8], is_run: bool) -> io::Result<()> {
    let mut space = [0u8; LINES];
    let mut lines = Writer::new(&mut space);
    if is_run {
        lines.append(b"it fails for these, by ");
        lines.write_shown(rule);
        lines.append(b"\n");
    } else {
        lines.append(b"it fails for some members, which this rule would name: ");
        lines.write_shown(rule);
        lines.append(b"\nthat rule is itself refused, so they are not listed: ");
    }
    out.write_all(lines.written())
}
