// Prints every text that a report is made of: each verdict and refusal, each kind of outcome, the members of a board that has each
// word, and of the rules on standard input, which a line of `---` ends, the parse errors, or where there are none the rule that names the
// members for which a quantifier fails.
#![tactic(auto)]

ghost use Rattle.std.specs.Prelude.{◌<◌, length};
ghost use Rattle.std.specs.Iterator.{at_most};

use board::image::Section;
use board::{CATEGORIES, FEATURE_KINDS};
use calls::value::{Outcome, Value, Verdict};
use lexer::limits::ERROR_ROW;
use message::ErrorRow;
use report::{answer, error};
use rows::{ROWS, TOKENS};
use std::io;
use std::io::{Read, Write};
use syntax::refusal::Refusal;
use texts::Writer;

// How many bytes the image has, and where its components begin.
const IMAGE: usize = 575;

const COMPONENTS: usize = 139;

fn main(rt: HostRuntime) -> io::Result<()> {
    let mut out = rt.stdout();
    print_verdicts(&mut out)?;
    print_refusals(&mut out)?;
    print_values(&mut out)?;
    print_board(&mut out)?;
    print_rules(&mut out, &mut rt.stdin())
}

// Prints what is written to an empty place.
fn print_lines<W: Write, F: FnOnce(&mut Writer<'_>)>(out: &mut W, write: F) -> io::Result<()>
    requires { F.IsAlwaysCallable write }
{
    let mut space = [0u8; 4096];
    let mut lines = Writer::new(&mut space);
    write(&mut lines);
    out.write_all(lines.written())
}

fn print_verdicts<W: Write>(out: &mut W) -> io::Result<()> {
    for verdict in [
        Verdict::Pass,
        Verdict::Fail,
        Verdict::Refused,
        Verdict::Open,
    ] {
        print_lines(out, |lines| answer::write_verdict(verdict, lines))?;
        out.write_all(b"\n")?;
    }
    Ok(())
}

fn print_head<W: Write>(out: &mut W, outcome: Outcome) -> io::Result<()> {
    print_lines(out, |lines| answer::write_head(outcome, lines))
}

fn print_refusals<W: Write>(out: &mut W) -> io::Result<()> {
    for refusal in [
        Refusal::RuleTooLong,
        Refusal::RuleNotUtf8,
        Refusal::TableTooShort,
        Refusal::TooManyOpeners,
        Refusal::ImageBadSections,
        Refusal::ImageBadStrings,
        Refusal::ImageBadRecords,
        Refusal::CollectionTooShort,
        Refusal::ParseErrors,
        Refusal::WhereOnNoCollection,
        Refusal::QuantifierOnNoCollection,
        Refusal::CountOnNoCollection,
        Refusal::FeaturesOnNoComponents,
        Refusal::DiagnosticsOnNoDiagnostics,
        Refusal::ComparisonNotCountable,
        Refusal::IntegerTooLarge,
    ] {
        print_head(out, Err(refusal))?;
    }
    Ok(())
}

fn print_values<W: Write>(out: &mut W) -> io::Result<()> {
    for value in [
        Value::Bool(true),
        Value::Bool(false),
        Value::BoolWithWarning(true),
        Value::BoolWithWarning(false),
        Value::Count(0),
        Value::Count(1),
        Value::Count(18446744073709551615),
        Value::Components(0),
        Value::Components(1),
        Value::Components(2),
        Value::Features(0),
        Value::Features(1),
        Value::Features(2),
        Value::Diagnostics(0),
        Value::Diagnostics(1),
        Value::Diagnostics(10),
    ] {
        print_head(out, Ok(value))?;
    }
    Ok(())
}

// Prints the members of a board that has each word, and then a component whose category is none.
fn print_board<W: Write>(out: &mut W) -> io::Result<()> {
    let mut image = [0u8; IMAGE];
    write_image(&mut image)?;
    print_checked(out, &image)?;
    image[COMPONENTS] = 14;
    print_member(out, &image, Value::Components(1), 0)
}

// Prints the members of an image that passes the check.
fn print_checked<W: Write>(out: &mut W, image: &[u8]) -> io::Result<()> {
    match board::check_image(image, ROWS) {
        Ok(()) => {
            print_members(out, image, Section::Components, Value::Components(14))?;
            print_members(out, image, Section::Features, Value::Features(10))?;
            print_members(out, image, Section::Diagnostics, Value::Diagnostics(3))?;
            print_member(out, image, Value::Count(1), 0)
        }
        Err(refusal) => print_head(out, Err(refusal)),
    }
}

// The members of a value: all records of a section.
fn print_members<W: Write>(
    out: &mut W,
    image: &[u8],
    section: Section,
    value: Value,
) -> io::Result<()> {
    print_head(out, Ok(value))?;
    for index in 0..board::image::record_count(image, section) {
        print_member(out, image, value, index)?;
    }
    Ok(())
}

// A member by its index, and of a component that has the same index if it is a feature.
fn print_member<W: Write>(out: &mut W, image: &[u8], value: Value, index: u32) -> io::Result<()> {
    print_lines(
        out,
        |lines| members::write_member(image, value, index, index, lines),
    )
}

// A board with a component of each category, a feature of each kind in each direction, and a diagnostic of each severity.
fn write_image(place: &mut [u8]) -> io::Result<()> {
    let mut out = place;
    write_words(
        &mut out,
        &[56, 43, 99, 40, 139, 280, 419, 120, 539, 0, 539, 0, 539, 36],
    )?;
    out.write_all(b"probeW\xc3\xa4rmefan stopped\x1b[2J\ntwo lines,\ta tab")?;
    write_words(&mut out, &[0, 5, 5, 6, 11, 0, 11, 15, 26, 17])?;
    write_components(&mut out)?;
    write_features(&mut out)?;
    write_words(&mut out, &[0, 0, 3, 0, 1, 4, 0, 2, 1])
}

// A component for each category. The first ones have a feature each.
fn write_components<W: Write>(out: &mut W) -> io::Result<()> {
    for category in 0..CATEGORIES {
        if category < FEATURE_KINDS {
            write_words(out, &[category, 0, category, 1, 0])?;
        } else {
            write_words(out, &[category, 1, FEATURE_KINDS, 0, 1])?;
        }
    }
    Ok(())
}

// A feature for each kind, with names and directions in turn.
fn write_features<W: Write>(out: &mut W) -> io::Result<()> {
    for kind in 0..FEATURE_KINDS {
        write_words(out, &[kind % 3, kind, kind % 4])?;
    }
    Ok(())
}

// Numbers as an image has them.
fn write_words<W: Write>(out: &mut W, numbers: &[u32]) -> io::Result<()> {
    for number in numbers {
        out.write_all(&number.to_le_bytes())?;
    }
    Ok(())
}

// Prints what is said of the rules on the input, and the parse errors of numbers that are no row of one.
fn print_rules<W: Write, R: Read>(out: &mut W, input: &mut R) -> io::Result<()> {
    let mut space = [0u8; 4096];
    let n = streams::read_full(input, &mut space)?;
    for rule in Rules(&space[..n]) {
        print_rule(out, rule)?;
    }
    print_error(out, b"components", &[7, 0, 3, 1000])?;
    print_error(out, b"components", &[6, 0, 1000, 3])
}

// The line that ends a rule.
const END: &[u8] = b"\n---\n";

// The rules of a text. Each ends at such a line, or with the text.
#[derive(Drop)]
struct Rules<'a>(&'a [u8]);

impl<'a> Iterator for Rules<'a> {
    type Item = &'a [u8];

    ghost remaining = { λ s. at_most (length s.0.now) };

    fn next(&mut self) -> Option<&'a [u8]> {
        if self.0.is_empty() {
            return None;
        }
        let (rule, rest) = split_rule(self.0);
        self.0 = rest;
        Some(rule)
    }
}

// The rule at the front of a text, and what is left past its end.
fn split_rule(text: &[u8]) -> (&[u8], &[u8])
    requires { 0 < length text.now }
    ensures { length result.1.now < length text.now }
{
    match text.windows(5).position(|piece| piece == END) {
        Some(at) => (&text[..at], &text[at + 5..]),
        None => (text, &[]),
    }
}

// Prints the errors of a rule, the rule that names members for one that has none, or why it is refused.
fn print_rule<W: Write>(out: &mut W, rule: &[u8]) -> io::Result<()> {
    let mut tokens = [0; TOKENS];
    let mut tree = [0; ROWS];
    let mut errors = [0; ROWS];
    match parser::parse_expr(rule, &mut tokens, &mut tree, &mut errors) {
        Ok(rows) => {
            for row in rows::first::<ERROR_ROW>(&errors, rows.errors) {
                print_error(out, rule, row)?;
            }
            if rows.errors == 0 {
                return print_witness(out, rule, &tree);
            }
            Ok(())
        }
        Err(refusal) => print_head(out, Err(refusal)),
    }
}

// Prints the rule that names members, on a line that is empty where there is none. The rows past the tree's are zeros, and no call's.
fn print_witness<W: Write>(out: &mut W, rule: &[u8], tree: &[u32]) -> io::Result<()> {
    print_lines(out, |lines| witness::write_witness(rule, tree, lines))?;
    out.write_all(b"\n")
}

fn print_error<W: Write>(out: &mut W, rule: &[u8], row: &[u32; ERROR_ROW]) -> io::Result<()> {
    let row = ErrorRow::from(*row);
    print_lines(out, |lines| error::write_error(rule, row, lines))
}
