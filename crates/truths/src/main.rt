// Replays fixed cases, one after the other: of which members of a board a predicate is true. Standard input has the cases and the file
// `stdout` the answers of the Rust, both written by the oracle. A case is `IMAGE RULE SORT:`, the image's bytes, the rule's bytes and a
// line feed: the lengths of image and rule in bytes, and the sort of the members, 0 components, 1 features, 2 diagnostics. The
// predicate is that of the rule's last call.
#![tactic(auto)]

ghost use Rattle.std.specs.Prelude.{◌≤◌, length};

use board::image::Section;
use board::{MAX_IMAGE, image};
use cases::replay;
use lexer::limits::TREE_ROW;
use predicate::atom::Member;
use rows::{ROWS, TOKENS};
use std::io;
use std::io::Write;
use syntax::kind::Kind;
use syntax::refusal::Refusal;

// The numbers of a collection table that every board has room in. Tables stand on the stack: the project has no heap.
const COLLECTION: usize = MAX_IMAGE;

fn main(rt: HostRuntime) -> io::Result<()> {
    let mut input = [0u8; 262144];
    let n = streams::read_full(&mut rt.stdin(), &mut input)?;
    replay::<Case, _>(&mut rt.stdout(), &input[..n])
}

// A board image, a rule, and the sort of the members that its predicate is asked of.
#[derive(Clone, Copy, Drop)]
struct Case<'a> {
    image: &'a [u8],
    rule: &'a [u8],
    sort: usize,
}

impl<'a> cases::Case<'a> for Case<'a> {
    fn read(input: &'a [u8]) -> Option<(Case<'a>, &'a [u8])> {
        let (image_length, rest) = cases::number(input);
        let (rule_length, rest) = cases::number(rest);
        let (sort, rest) = cases::number(rest);
        let (image, rest) = rest.split_at_checked(image_length)?;
        let (rule, rest) = cases::bytes(rest, rule_length)?;
        Some((Case { image, rule, sort }, rest))
    }
}

impl<'a> cases::Replayed<'a> for Case<'a> {
    // Reads the rule, checks the image, and prints a line: a digit for each member, or why there are none.
    fn run<W: Write>(self, out: &mut W) -> io::Result<()> {
        let mut tokens = [0; TOKENS];
        let mut tree = [0; ROWS];
        let mut errors = [0; ROWS];
        match parser::parse_expr(self.rule, &mut tokens, &mut tree, &mut errors) {
            Err(refusal) => print_refusal(out, refusal),
            Ok(rows) => match board::check_image(self.image, COLLECTION) {
                Err(refusal) => print_refusal(out, refusal),
                Ok(()) => {
                    if rows.errors != 0 {
                        return writeln!(out, "errors {}", rows.errors);
                    }
                    print_truths(out, self, rows::first::<TREE_ROW>(&tree, rows.tree))
                }
            },
        }
    }
}

fn print_refusal<W: Write>(out: &mut W, refusal: Refusal) -> io::Result<()> {
    writeln!(out, "refused {}", u32::from(refusal))
}

// Prints the truths of the predicate that a tree's last call has.
fn print_truths<W: Write>(out: &mut W, case: Case<'_>, rows: &[[u32; TREE_ROW]]) -> io::Result<()> {
    let predicate = Predicate {
        rule: case.rule,
        image: case.image,
        tree: rows.as_flattened(),
        at: TREE_ROW * predicate_row(rows),
    };
    match case.sort {
        0 => print_members(out, predicate, Section::Components)?,
        1 => print_features(out, predicate)?,
        _ => print_members(out, predicate, Section::Diagnostics)?,
    }
    out.write_all(b"\n")
}

// The index of the first row of a node past the last CALL_ARGS; past the rows, where no predicate is true, if there is none.
fn predicate_row(rows: &[[u32; TREE_ROW]]) -> usize
    ensures { result ≤ length rows.now }
{
    let from = past_last_arguments(rows);
    rows[from..]
        .iter()
        .position(|row| u32::from(Kind::Root) <= row[0])
        .map_or(rows.len(), |i| from + i)
}

// The index of the row past the last CALL_ARGS; 0, the first row's, where there is none.
fn past_last_arguments(rows: &[[u32; TREE_ROW]]) -> usize
    ensures { result ≤ length rows.now }
{
    rows.iter()
        .rposition(|row| row[0] == u32::from(Kind::CallArgs))
        .map_or(0, |last| last + 1)
}

// A predicate by the place of its row in a tree, and what it is asked on.
#[derive(Clone, Copy)]
struct Predicate<'a> {
    rule: &'a [u8],
    image: &'a [u8],
    tree: &'a [u32],
    at: usize,
}

impl Predicate<'_> {
    // Prints 1 if it is true of a member, else 0.
    fn print_truth<W: Write>(&self, out: &mut W, member: Member) -> io::Result<()> {
        let truth = predicate::eval_predicate(self.rule, self.image, self.tree, member, self.at);
        write!(out, "{}", u8::from(truth))
    }
}

// The records of a section, which has components or diagnostics.
fn print_members<W: Write>(
    out: &mut W,
    predicate: Predicate<'_>,
    section: Section,
) -> io::Result<()> {
    for n in 0..image::record_count(predicate.image, section) {
        let member = match section {
            Section::Diagnostics => Member::Diagnostic(n),
            _ => Member::Component(n),
        };
        predicate.print_truth(out, member)?;
    }
    Ok(())
}

// The features of each component.
fn print_features<W: Write>(out: &mut W, predicate: Predicate<'_>) -> io::Result<()> {
    for component in 0..image::record_count(predicate.image, Section::Components) {
        print_features_of(out, predicate, component)?;
    }
    Ok(())
}

fn print_features_of<W: Write>(
    out: &mut W,
    predicate: Predicate<'_>,
    component: u32,
) -> io::Result<()> {
    let image = predicate.image;
    let (first, end) = instance::features(image, component);
    for feature in first..end {
        predicate.print_truth(out, Member::Feature(component, feature))?;
    }
    Ok(())
}
