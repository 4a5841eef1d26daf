// The place of an error in a rule: its line, and a mark under the token found.
ghost use Rattle.std.specs.Prelude.{◌≡◌, ◌++◌, eqb, ltb};
ghost use Rattle.texts.specs.Append.{Wrote};
ghost use Rattle.syntax.specs.Text.{ascii};
ghost use Rattle.texts.specs.Text.{BLANK, shown, indented, line};
ghost use Rattle.texts.specs.Place.{LINE_FEED, CARET, IsBehindLast, IsLineLength, mark_place, mark_end, column, columns, place_text};

use crate::Writer;
use syntax::text;

// The line of the rule that holds byte `first`, and below it blanks up to there and a `^` under each character of the token found, as
// far as that line has it. At the end of text one mark stands behind the last character that is no blank.
pub fn write_place(rule: &[u8], first: u32, end: u32, out: &mut Writer<'_>)
    ensures { Wrote (place_text rule.now first end) out.old out.new }
{
    let mark = mark_place(rule, first as usize);
    let (before, rest) = rule.split_at(mark);
    let start = line_start(before);
    let stop = mark + line_len(rest);
    let past = mark_end(rule, first as usize, end as usize, stop);
    write_line(text::part(rule, start, stop), out);
    write_mark(
        text::part(rule, start, mark),
        text::part(rule, mark + 1, past),
        out,
    );
}

// Where the mark begins.
fn mark_place(rule: &[u8], first: usize) -> usize
    ensures { result ≡ mark_place rule.now first }
{
    if first < rule.len() {
        first
    } else {
        text_end(rule)
    }
}

// The place behind the last byte that is neither blank nor control character.
fn text_end(rule: &[u8]) -> usize
    ensures { IsBehindLast (λ b. ltb BLANK b) rule.now result }
{
    rule.iter()
        .rposition(|b| b' ' < *b)
        .map_or(0, |last| last + 1)
}

// Where the line begins that the text before a place ends in.
fn line_start(before: &[u8]) -> usize
    ensures { IsBehindLast (λ b. eqb b LINE_FEED) before.now result }
{
    before
        .iter()
        .rposition(|b| *b == b'\n')
        .map_or(0, |feed| feed + 1)
}

// How long the first line of a text is.
fn line_len(text: &[u8]) -> usize
    ensures { IsLineLength text.now result }
{
    text.iter().position(|b| *b == b'\n').unwrap_or(text.len())
}

// Where the marks end: with the token, or with its line; at the end of text there is no token.
#[tactic(auto, unfolding(crate::specs::Place::mark_end))]
fn mark_end(rule: &[u8], first: usize, end: usize, stop: usize) -> usize
    ensures { result ≡ mark_end rule.now first end stop }
{
    if first < rule.len() { end.min(stop) } else { 0 }
}

// A line of the rule, set in.
fn write_line(text: &[u8], out: &mut Writer<'_>)
    ensures { Wrote (line (indented (shown text.now))) out.old out.new }
{
    out.append(b"  ");
    out.write_shown(text);
    out.append(b"\n");
}

// The line below it: blanks under the bytes before the mark, a mark, and marks under the bytes behind it.
fn write_mark(before: &[u8], behind: &[u8], out: &mut Writer<'_>)
    ensures { Wrote (line (indented (columns BLANK before.now ++ ascii "^" ++ columns CARET behind.now))) out.old out.new }
{
    out.append(b"  ");
    write_columns(before, b' ', out);
    out.append(b"^");
    write_columns(behind, b'^', out);
    out.append(b"\n");
}

// What stands under the bytes of a text.
fn write_columns(text: &[u8], mark: u8, out: &mut Writer<'_>)
    ensures { Wrote (columns mark text.now) out.old out.new }
{
    for &b in text {
        write_column(b, mark, out);
    }
}

// What stands under a byte.
#[tactic(auto, using(crate::proofs::AppendLaws::appended_none), unfolding(crate::specs::Place::column))]
fn write_column(b: u8, mark: u8, out: &mut Writer<'_>)
    ensures { Wrote (column mark b) out.old out.new }
{
    match b {
        b'\t' => out.append_byte(b),
        0x80..=0xbf => {}
        _ => out.append_byte(mark),
    }
}
