// parser.rs: the messages of its parse errors, as text, from a rule and a row of the error table.
#![tactic(auto)]

ghost use Rattle.std.specs.Prelude.{◌≡◌, [], ◌∷◌, ◌^◌, ◌<◌, length, map};
ghost use Rattle.syntax.specs.Forms.{number};
ghost use Rattle.texts.specs.Append.{Wrote};
ghost use Rattle.message.specs.Message.{kind_name, quoted, text_or_eof, found, message_of};
ghost use Rattle.message.specs.Write.{Writes};
ghost use Rattle.message.specs.Parts.{head_of, found_of, nth, whole};

use syntax::form::Form;
use syntax::text;
use texts::Writer;

// A row of the error table: the form, the kind that was due, and where the token found begins and ends.
#[derive(Clone, Copy)]
pub struct ErrorRow {
    pub form: u32,
    pub expected: u32,
    pub first: u32,
    pub end: u32,
}

impl From<[u32; 4]> for ErrorRow {
    ghost from_gives = { λ row error. row ≡ error.form ∷ error.expected ∷ error.first ∷ error.end ∷ [] };

    fn from(row: [u32; 4]) -> ErrorRow {
        let [form, expected, first, end] = row;
        ErrorRow {
            form,
            expected,
            first,
            end,
        }
    }
}

// Three pieces of a text.
#[derive(Clone, Copy)]
struct Pieces<'a> {
    first: &'a [u8],
    middle: &'a [u8],
    last: &'a [u8],
}

impl<'a> Pieces<'a> {
    // A text in one piece.
    fn one(text: &'a [u8]) -> Pieces<'a>
        ensures { whole result ≡ text.now }
    {
        Pieces {
            first: text,
            middle: b"",
            last: b"",
        }
    }

    // A text in quotes.
    fn quoted(text: &'a [u8]) -> Pieces<'a>
        ensures { whole result ≡ quoted text.now }
    {
        Pieces {
            first: b"'",
            middle: text,
            last: b"'",
        }
    }

    // How long the text is.
    fn len(self) -> usize
        requires { length (whole self) < 2 ^ 64 }
        ensures { result ≡ length (whole self.entry) }
    {
        self.first.len() + self.middle.len() + self.last.len()
    }

    // Appends the text.
    fn write(self, out: &mut Writer<'_>)
        ensures { Wrote (whole self.entry) out.old out.new }
    {
        out.append(self.first);
        out.append(self.middle);
        out.append(self.last);
    }
}

// Writes the message of an error row at the front of `out`, and leaves the bytes past it as they are: the number of its bytes. Where `out`
// is shorter than the message, all of it stays as it is. The message of a number that is no form is empty.
pub fn write_message(rule: &[u8], row: ErrorRow, out: &mut [u8]) -> Option<usize>
    ensures { Writes (message_of rule.now row.form row.expected row.first row.end) out.old out.new result }
{
    let Ok(form) = Form::try_from(row.form) else {
        return Some(0);
    };
    let head = head(form, row.expected);
    let found = found_of(form, text::part(rule, row.first as usize, row.end as usize));
    let len = head.len() + found.len();
    if out.len() < len {
        return None;
    }
    let mut out = Writer::new(out);
    head.write(&mut out);
    found.write(&mut out);
    Some(len)
}

// What stands before the token found, of each form.
#[tactic(auto, unfolding(crate::specs::Parts::head_of))]
fn head(form: Form, expected: u32) -> Pieces<'static>
    ensures { whole result ≡ head_of (number form) expected }
{
    match form {
        Form::Expect => Pieces {
            first: b"expected '",
            middle: kind_name(expected),
            last: b"', found ",
        },
        Form::ExpectIdent => Pieces::one(b"expected 'contains', found "),
        Form::LeftOver => Pieces::one(b"unexpected "),
        Form::Source => Pieces::one(b"expected 'components' or 'analysis', found "),
        Form::Method => Pieces::one(
            b"expected method name (where, all, any, none, count, features, diagnostics), found ",
        ),
        Form::Atom => Pieces::one(
            b"expected 'not', 'has', 'connected', 'category', 'kind', 'direction', 'severity', 'message', or '(', found ",
        ),
    }
}

// What stands for the token found, which has no text at the end of the rule.
#[tactic(auto, unfolding(crate::specs::Parts::found_of))]
fn found_of(form: Form, text: &[u8]) -> Pieces<'_>
    ensures { whole result ≡ found_of (number form) text.now }
{
    match form {
        Form::Expect | Form::ExpectIdent => found(text),
        Form::LeftOver | Form::Method => Pieces::quoted(text),
        Form::Source | Form::Atom => Pieces::quoted(text_or_eof(text)),
    }
}

// `found` of `expect` and `expect_ident`: the token in quotes, or EOF without quotes.
#[tactic(auto, using(crate::proofs::MessageLaws::found_none, crate::proofs::MessageLaws::found_some))]
fn found(text: &[u8]) -> Pieces<'_>
    ensures { whole result ≡ found text.now }
{
    if text.is_empty() {
        Pieces::one(b"EOF")
    } else {
        Pieces::quoted(text)
    }
}

// The text of a token, or EOF.
#[tactic(auto, using(crate::proofs::MessageLaws::text_none, crate::proofs::MessageLaws::text_some))]
fn text_or_eof(text: &[u8]) -> &[u8]
    ensures { result.now ≡ text_or_eof text.now }
{
    if text.is_empty() { b"EOF" } else { text }
}

// syntax.rs: the names of the kinds, in their order.
const NAMES: [&[u8]; 31] = [
    b"WHITESPACE",
    b"IDENT",
    b"STRING_LIT",
    b"DOT",
    b"L_PAREN",
    b"R_PAREN",
    b"EQ_EQ",
    b"NEQ",
    b"GE",
    b"GT",
    b"LE",
    b"LT",
    b"INT_LIT",
    b"COMMA",
    b"AND_KW",
    b"OR_KW",
    b"NOT_KW",
    b"ERROR",
    b"ROOT",
    b"PIPELINE_EXPR",
    b"DOT_CALL",
    b"CALL_ARGS",
    b"BINARY_EXPR",
    b"UNARY_EXPR",
    b"COMPARE_EXPR",
    b"CALL_EXPR",
    b"PAREN_EXPR",
    b"LITERAL",
    b"IDENT_EXPR",
    b"CONTAINS_EXPR",
    b"COUNT_COMPARE_EXPR",
];

// The name of a kind; a number that is no kind has none.
fn kind_name(kind: u32) -> &'static [u8]
    ensures { result.now ≡ kind_name kind }
{
    name_in(&NAMES, kind)
}

// The n-th of some names; nothing where there are fewer.
#[tactic(auto, unfolding(crate::specs::Parts::nth))]
fn name_in(names: &[&'static [u8]], n: u32) -> &'static [u8]
    ensures { result.now ≡ nth (map (λ name. name.now) names.now) n }
{
    names.get(n as usize).copied().unwrap_or(b"")
}
