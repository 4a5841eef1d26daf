// What is known of `has` before members are sent: for the first CALL_EXPR rows of a tree the components that have what they name, as a
// mark for each. Which of these `has` are true of a member is a number, its bits.
ghost use Rattle.std.specs.Prelude.{◌≡◌, ◌<◌, IfSome};
ghost use Rattle.eval.specs.Marked.{counts, bit_at, bits_at, bits_by, RowTold, TellsBelow, HasRow, MarksOf, Made};
ghost use Rattle.eval.specs.Marked as meant;

use crate::context::Pipeline;
use board::image;
use board::image::Section;
use marks;
use predicate::atom::Member;
use predicate::{node, rows};
use profile;
use profile::Held;
use syntax::kind::Kind;

// How many CALL_EXPR rows have marks at most.
pub(crate) const HASES: usize = 4;

// How many numbers their bits can be.
pub(crate) const WAYS: usize = 16;

// The marks of a row: an image has no more components.
const BLOCK: usize = 4096;

// Only so many rows are looked at: few rules have more, and what is not seen in them costs time alone.
pub(crate) const ROWS: usize = 256;

// The highest mark by which a `has` is true of a component, and of a feature of it. Marks are bytes, as the crate `marks` has them.
const HIGHEST_OF_COMPONENT: u8 = 2;

const HIGHEST_OF_FEATURE: u8 = 1;

// The place of the row of a `has`, and the marks of the components.
#[derive(Clone, Copy)]
pub(crate) struct Marked {
    row: usize,
    marks: [u8; BLOCK],
}

impl Marked {
    // Nothing is marked yet.
    pub(crate) const NONE: Marked = Marked {
        row: 0,
        marks: [0; BLOCK],
    };

    // Marks the components that have the property that the `has` whose row is at a place names, and the others that have a feature of this
    // name.
    fn mark(&mut self, pipeline: &Pipeline, row: usize)
        ensures { MarksOf pipeline.now.rule.now pipeline.now.image.now pipeline.now.tree.now self.new }
    {
        self.row = row;
        let value = node::find_string_literal(pipeline.rule, pipeline.tree, row);
        marks::mark_properties(pipeline.image, value, &mut self.marks);
        marks::mark_features(pipeline.image, value, &mut self.marks);
    }
}

// What members are told apart by: what their profiles hold, and the marked rows.
#[derive(Clone, Copy)]
pub(crate) struct Sorts<'a> {
    pub held: Held,
    pub marked: &'a [Marked],
}

// Which of the marked `has` are true of a member, as bits; none where its component has no marks.
pub(crate) fn bits(image: &[u8], marked: &[Marked], member: Member) -> Option<usize>
    ensures { result ≡ bits_by image.now marked.now member }
{
    match member {
        Member::Component(component) => bits_at(image, marked, HIGHEST_OF_COMPONENT, component),
        Member::Feature(component, _) => bits_at(image, marked, HIGHEST_OF_FEATURE, component),
        Member::Diagnostic(_) => Some(0),
    }
}

// Those of a component's marks, up to the highest that counts: the first `has` is the lowest bit.
#[tactic(auto, using(crate::proofs::MarkedLaws::bit_small))]
fn bits_at(image: &[u8], marked: &[Marked], most: u8, component: u32) -> Option<usize>
    ensures { result ≡ bits_at image.now marked.now most component }
{
    if image::record_count(image, Section::Components) <= component {
        return None;
    }
    let place = component as usize;
    if BLOCK <= place {
        return None;
    }
    let first = bit(marked, most, place, 0);
    let second = bit(marked, most, place, 1);
    let third = bit(marked, most, place, 2);
    let fourth = bit(marked, most, place, 3);
    Some(first + 2 * second + 4 * third + 8 * fourth)
}

// Whether the j-th marked `has` is true by the mark of a component, as 1 or 0, one bit of a number; 0 where there are not so many.
#[tactic(auto, unfolding(crate::specs::Marked::bit_at))]
fn bit(marked: &[Marked], most: u8, component: usize, j: usize) -> usize
    requires { component < meant.BLOCK }
    ensures { result ≡ bit_at marked.now most component j }
{
    match marked.get(j) {
        Some(row) => usize::from(counts(row.marks[component], most)),
        None => 0,
    }
}

// Whether a mark says so: 0 does not, nor does one above the highest that counts.
fn counts(mark: u8, most: u8) -> bool
    ensures { result ≡ counts mark most }
{
    mark != 0 && mark <= most
}

impl<'a> Sorts<'a> {
    // Whether a node inside the one whose row is at a place, at any depth, asks for more of a member than its profile and its bits.
    pub(crate) fn asks_below(self, rule: &[u8], tree: &[u32], at: usize, member: Member) -> bool
        ensures { TellsBelow rule.now tree.now at member self.entry result }
    {
        if tree.len() < rows::ROW || tree.len() - rows::ROW < at {
            return true;
        }
        let level = tree[at + 1] as usize;
        let mut row = at + rows::ROW;
        // A `while` over places: numbers of rows would have to be made places again.
        while rows::is_below(tree, level, row) {
            if !self.is_told(rule, tree, row, member) {
                return true;
            }
            row += rows::ROW;
        }
        false
    }

    // Whether the node whose row is at a place asks for no more of a member than its profile and its bits.
    fn is_told(self, rule: &[u8], tree: &[u32], row: usize, member: Member) -> bool
        ensures { RowTold rule.now tree.now row member self.entry result }
    {
        match rows::kind_at(tree, row) {
            Ok(Kind::CompareExpr) => {
                !profile::asks_field(member, self.held, node::ident(rule, tree, row))
            }
            Ok(Kind::CallExpr) if has_row(self.marked, row) => true,
            Ok(kind) => !profile::asks_more(member, self.held, kind.into()),
            Err(_) => false,
        }
    }
}

// Whether the row at a place has marks.
fn has_row(marked: &[Marked], row: usize) -> bool
    ensures { HasRow marked.now row result }
{
    marked.iter().any(|has| has.row == row)
}

impl Pipeline<'_> {
    // Marks the first CALL_EXPR rows of the tree, and gives the number of these rows.
    pub(crate) fn make_marks(&self, marked: &mut [Marked; HASES]) -> usize
        ensures { Made self.now.rule.now self.now.image.now self.now.tree.now marked.new result }
    {
        let mut from = 0;
        for n in 0..HASES {
            let Some(row) = next_row(self.tree, Kind::CallExpr, from) else {
                return n;
            };
            marked[n].mark(self, rows::ROW * row);
            from = row + 1;
        }
        HASES
    }
}

// The number of the first row of a kind from a row on, among those that are looked at.
pub(crate) fn next_row(tree: &[u32], kind: Kind, from: usize) -> Option<usize>
    ensures { IfSome result (λ row. row < meant.ROWS) }
{
    let end = (tree.len() / rows::ROW).min(ROWS);
    (from..end).find(|row| tree[rows::ROW * *row] == u32::from(kind))
}
