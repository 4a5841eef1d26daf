// A text searched for in another: what eval.rs asks of `str::contains` and `str::split_once`.
ghost use Rattle.std.specs.Prelude.{◌≡◌, ◌+◌, ◌<◌, ◌≤◌, length, drop};
ghost use Rattle.matching.specs.Search.{starts_with, find, contains, property_set_of, property_name_of};
ghost use Rattle.matching.specs.Steps.{has_ends, Marked};
ghost use Rattle.matching.specs.Steps as meant;

use std::simd::prelude::*;

// How many places are looked at in one step.
const STEP: usize = 16;

// The first place at which a part stands in a text; an empty one stands at 0.
pub fn find(text: &[u8], part: &[u8]) -> Option<usize>
    ensures { result ≡ find part.now text.now }
{
    if part.is_empty() {
        return Some(0);
    }
    if text.len() < part.len() {
        return None;
    }
    if text.len() - part.len() < STEP {
        return find_by_place(text, part);
    }
    find_by_step(text, part)
}

// The same of a part that is not empty, place by place.
fn find_by_place(text: &[u8], part: &[u8]) -> Option<usize>
    requires { (0 < length part.now) × (length part.now ≤ length text.now) }
    ensures { result ≡ find part.now text.now }
{
    // Only places of the part's first byte are compared.
    let first = part[0];
    for at in 0..text.len() - part.len() + 1 {
        if text[at] == first && starts_with(text, at, part) {
            return Some(at);
        }
    }
    None
}

// The same where there are places for a step. Only places where the part's first and last byte stand are compared. The last step is the
// one that ends with the last place, and the bits of what was looked at before it are shifted out. Out of line, so that `find` stays small
// enough to be inlined.
#[inline(never)]
fn find_by_step(text: &[u8], part: &[u8]) -> Option<usize>
    requires { (0 < length part.now) × (length part.now + meant.STEP ≤ length text.now) }
    ensures { result ≡ find part.now text.now }
{
    let gap = part.len() - 1;
    let (first, last) = (part[0], part[gap]);
    let end = text.len() - gap;
    let mut at = 0;
    while at < end {
        let start = at.min(end - STEP);
        let marks = marks(text, start, first, last, gap) >> (at - start);
        if marks == 0 {
            at = start + STEP;
            continue;
        }
        let place = at + marks.trailing_zeros() as usize;
        if starts_with(text, place, part) {
            return Some(place);
        }
        at = place + 1;
    }
    None
}

// A bit for each place of a step, the lowest for the first: whether one byte stands there and another so far behind it.
fn marks(text: &[u8], at: usize, first: u8, last: u8, gap: usize) -> u64
    requires { at + gap + meant.STEP ≤ length text.now }
    ensures { Marked (has_ends text.now first last gap) at result }
{
    let firsts = u8x16::from_slice(&text[at..]).simd_eq(u8x16::splat(first));
    let lasts = u8x16::from_slice(&text[at + gap..]).simd_eq(u8x16::splat(last));
    (firsts & lasts).to_bitmask()
}

// Whether a part stands in a text.
#[tactic(auto, unfolding(crate::specs::Search::contains))]
pub fn contains(text: &[u8], part: &[u8]) -> bool
    ensures { result ≡ contains part.now text.now }
{
    find(text, part).is_some()
}

// The set and the name of the property that a text names, parted by the first `::`; the set is empty where there is none.
#[tactic(auto, using(crate::proofs::SearchLaws::colons_within))]
pub fn parted(text: &[u8]) -> (&[u8], &[u8])
    ensures set { result.0.now ≡ property_set_of text.now }
    ensures name { result.1.now ≡ property_name_of text.now }
{
    match find(text, b"::") {
        Some(at) => (&text[..at], &text[at + 2..]),
        None => (b"", text),
    }
}

// Whether the text from a place on, which has as many bytes, begins with a part.
fn starts_with(text: &[u8], at: usize, part: &[u8]) -> bool
    requires { at + length part.now ≤ length text.now }
    ensures { result ≡ starts_with part.now (drop at text.now) }
{
    part == &text[at..at + part.len()]
}
