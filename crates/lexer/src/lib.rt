// lexer.rs: the tokens of a rule, as rows of a lent table, and the refusals that need only the rule and the tables' lengths.
#![tactic(auto)]

pub mod limits;

ghost use Rattle.std.specs.Prelude.{◌≡◌, ltb, ◌+◌, ◌*◌, ◌≤◌, ◌<◌, length, position, ◌==◌};
ghost use Rattle.std.specs.List.{take_while};
ghost use Rattle.std.proofs.lemmas.List.Edits.{sets};
ghost use Rattle.syntax.specs.Table.{with_rows};
ghost use Rattle.syntax.specs.Kinds.{number};
ghost use Rattle.lexer.specs.Bytes.{is_blank, is_ascii_whitespace, is_ascii_digit, is_ident_start, is_ident_continue, is_trailing, shape_of, goes_on};
ghost use Rattle.lexer.specs.Lex.{quoted, equals, more, word_kind, kind_of, lex, token_rows, is_opener, openers_in};
ghost use Rattle.std.specs.Iterator.{YieldsFirstBy, item_count};
ghost use Rattle.lexer.specs.LexScan.{token_of, tokens_left, IsFirst, openers_at};
ghost use Rattle.lexer.specs.Read.{tables_short, check_rule, check_room, Reads};
ghost use Rattle.lexer.specs.Read as meant;

use limits::{ERROR_ROW, MAX_OPENERS, MAX_RULE, TOKEN_ROW, TREE_ROW};
use syntax::kind::Kind;
use syntax::refusal::Refusal;
use syntax::{text, utf8};

// Refusals 1 to 4, in their order, of a rule and the lengths of the three tables that it is to be read into.
#[tactic(auto, unfolding(crate::specs::Read::check_rule))]
pub fn check_rule(rule: &[u8], tokens: usize, tree: usize, errors: usize) -> Result<(), Refusal>
    ensures { result ≡ check_rule rule.now tokens tree errors }
{
    if MAX_RULE < rule.len() {
        return Err(Refusal::RuleTooLong);
    }
    if !utf8::is_utf8(rule) {
        return Err(Refusal::RuleNotUtf8);
    }
    if tables_short(rule.len(), tokens, tree, errors) {
        return Err(Refusal::TableTooShort);
    }
    if too_many_openers(rule) {
        return Err(Refusal::TooManyOpeners);
    }
    Ok(())
}

// Reads the tokens of a rule that `check_rule` passes into the token table, and gives their number; a refusal leaves the table as it is.
pub fn read_tokens(
    rule: &[u8],
    tokens: &mut [u32],
    tree: usize,
    errors: usize,
) -> Result<usize, Refusal>
    ensures { Reads (check_rule rule.now (length tokens.old) tree errors) rule.now tokens.old tokens.new result }
{
    check_rule(rule, tokens.len(), tree, errors)?;
    lex(rule, tokens)
}

// Reads the tokens of any bytes into the token table, a row for each, and gives their number. It refuses only what it has no room for, and
// then leaves the table as it is.
#[tactic(auto, unfolding(crate::specs::Read::check_room))]
pub fn lex(rule: &[u8], tokens: &mut [u32]) -> Result<usize, Refusal>
    ensures { Reads (check_room rule.now (length tokens.old)) rule.now tokens.old tokens.new result }
{
    if MAX_RULE < rule.len() {
        return Err(Refusal::RuleTooLong);
    }
    if tokens.len() / TOKEN_ROW < rule.len() {
        return Err(Refusal::TableTooShort);
    }
    Ok(write_tokens(rule, tokens))
}

// Whether one of the three tables, of so many numbers each, has too few rows for a rule of n bytes. A table of trees or errors
// wants 8 rows for each byte and 8 more: more than n times 8 rows.
pub fn tables_short(n: usize, tokens: usize, tree: usize, errors: usize) -> bool
    ensures { result ≡ tables_short n tokens tree errors }
{
    tokens / TOKEN_ROW < n || tree / TREE_ROW / 8 <= n || errors / ERROR_ROW / 8 <= n
}

// Whether more tokens are `(` or `not` than a rule may have. The tokens are read for it only where the bytes leave it open.
#[tactic(auto, using(crate::proofs::OpenerLaws::openers_length, crate::proofs::OpenerLaws::few_openers))]
fn too_many_openers(rule: &[u8]) -> bool
    requires { length rule.now ≤ meant.MAX_RULE }
    ensures { result ≡ ltb meant.MAX_OPENERS (openers_in (lex rule.now)) }
{
    if rule.len() <= MAX_OPENERS || usize::from(openers_bound(rule)) <= MAX_OPENERS {
        return false;
    }
    MAX_OPENERS < count_openers(rule)
}

// At least as many as there are tokens `(` and `not`: the bytes that one may begin with, the last byte always among them.
fn openers_bound(rule: &[u8]) -> u16
    requires { length rule.now ≤ meant.MAX_RULE }
    ensures { openers_in (lex rule.now) ≤ result }
{
    let mut n = 1;
    for i in 0..rule.len().saturating_sub(1) {
        n += openers_at(rule[i], rule[i + 1]);
    }
    n
}

// 1 where a token `(` or `not` may begin with a byte that has this byte behind it, else 0.
#[tactic(auto, using(crate::proofs::LexLaws::byte_is), unfolding(crate::specs::LexScan::openers_at))]
fn openers_at(b: u8, next: u8) -> u16
    ensures { result ≡ openers_at b next }
{
    u16::from(b == b'(' || b == b'n' && next == b'o')
}

// How many tokens are `(` or `not`.
#[tactic(auto, using(crate::proofs::ReadLaws::lex_length))]
fn count_openers(rule: &[u8]) -> usize
    ensures { result ≡ openers_in (lex rule.now) }
{
    let mut n = 0;
    for token in (Tokens { rest: rule }) {
        if is_opener(token.kind) {
            n += 1;
        }
    }
    n
}

fn is_opener(kind: Kind) -> bool
    ensures { result ≡ is_opener (number kind) }
{
    matches!(kind, Kind::LParen | Kind::NotKw)
}

// Writes a row for each token, and gives their number.
#[tactic(auto, using(crate::proofs::ReadLaws::lex_length))]
fn write_tokens(rule: &[u8], tokens: &mut [u32]) -> usize
    requires { (length rule.now ≤ meant.MAX_RULE) × (length rule.now * meant.TOKEN_ROW ≤ length tokens.old) }
    ensures { (result ≡ length (lex rule.now)) × (tokens.new ≡ with_rows (token_rows 0 (lex rule.now)) tokens.old) }
{
    let mut at = 0;
    let mut written = 0;
    for Token { kind, text } in (Tokens { rest: rule }) {
        let end = at + text.len();
        put_row(
            tokens,
            TOKEN_ROW * written,
            [kind.into(), at as u32, end as u32],
        );
        at = end;
        written += 1;
    }
    written
}

// Writes a row of the token table from `at` on.
#[tactic(auto, using(crate::proofs::ReadLaws::put_is))]
fn put_row(table: &mut [u32], at: usize, row: [u32; TOKEN_ROW])
    requires { at + meant.TOKEN_ROW ≤ length table.old }
    ensures { table.new ≡ sets table.old at row }
{
    table[at..at + TOKEN_ROW].copy_from_slice(&row);
}

// A token: its kind, and its bytes, a part of the rule.
#[derive(Clone, Copy)]
struct Token<'a> {
    kind: Kind,
    text: &'a [u8],
}

// The tokens of a rule, one after the other, by the bytes that are left.
#[derive(Drop)]
struct Tokens<'a> {
    rest: &'a [u8],
}

impl<'a> Iterator for Tokens<'a> {
    type Item = Token<'a>;

    ghost next_gives = { YieldsFirstBy token_of tokens_left };

    ghost remaining = { item_count tokens_left };

    #[inline(always)]
    #[tactic(auto, using(crate::proofs::LexLaws::lex_empty))]
    fn next(&mut self) -> Option<Token<'a>> {
        if self.rest.is_empty() {
            return None;
        }
        let First { kind, len } = first_token(self.rest);
        let (text, rest) = self.rest.split_at(len);
        self.rest = rest;
        Some(Token { kind, text })
    }
}

// A text's first token, by its kind and its length.
#[derive(Clone, Copy)]
struct First {
    kind: Kind,
    len: usize,
}

#[tactic(auto, using(crate::proofs::LexLaws::first_within, crate::proofs::LexLaws::first_tokens))]
fn first_token(text: &[u8]) -> First
    requires { 0 < length text.now }
    ensures { IsFirst text.now result }
{
    let shape = shape_of(text[0]);
    let len = 1 + more(&text[1..], shape);
    let kind = kind_of(&text[..len], shape);
    First { kind, len }
}

// The shape of a token, by its first byte. A symbol has its kind; an operator has its kind alone and its kind with a `=` behind it.
#[derive(Clone, Copy)]
enum Shape {
    Blanks,
    Quoted,
    Symbol(Kind),
    Operator(Kind, Kind),
    Digits,
    Word,
    Character,
}

// The arms of lexer.rs' `match bytes[pos]`, in their order.
#[tactic(auto, unfolding(crate::specs::Bytes::shape_of))]
fn shape_of(b: u8) -> Shape
    ensures { result ≡ shape_of b }
{
    if is_blank(b) {
        return Shape::Blanks;
    }
    match b {
        b'\'' => Shape::Quoted,
        b'.' => Shape::Symbol(Kind::Dot),
        b'(' => Shape::Symbol(Kind::LParen),
        b')' => Shape::Symbol(Kind::RParen),
        b',' => Shape::Symbol(Kind::Comma),
        b'=' => Shape::Operator(Kind::Error, Kind::EqEq),
        b'!' => Shape::Operator(Kind::Error, Kind::Neq),
        b'>' => Shape::Operator(Kind::Gt, Kind::Ge),
        b'<' => Shape::Operator(Kind::Lt, Kind::Le),
        _ => {
            if is_ascii_digit(b) {
                return Shape::Digits;
            }
            if is_ident_start(b) {
                return Shape::Word;
            }
            Shape::Character
        }
    }
}

// How many bytes a token of this shape has past its first one; `rest` is what stands after that one. Each run has its own arm, so that the
// shape is asked once.
#[tactic(auto, using(crate::proofs::LexLaws::run_length))]
fn more(rest: &[u8], shape: Shape) -> usize
    ensures { result ≡ more shape rest.now }
{
    match shape {
        Shape::Blanks => run(rest, Shape::Blanks),
        Shape::Quoted => quoted(rest),
        Shape::Symbol(_) => 0,
        Shape::Operator(_, _) => equals(rest),
        Shape::Digits => run(rest, Shape::Digits),
        Shape::Word => run(rest, Shape::Word),
        Shape::Character => run(rest, Shape::Character),
    }
}

// How many bytes, from the first on, go on a token of this shape.
fn run(rest: &[u8], shape: Shape) -> usize
    ensures { result ≡ length (take_while (goes_on shape) rest.now) }
{
    rest.iter().take_while(|b| goes_on(shape, **b)).count()
}

// How many bytes a string literal has past its opening quote: up to the next quote and with it, or all.
#[tactic(auto, using(crate::proofs::LexLaws::quoted_some, crate::proofs::LexLaws::quoted_none))]
fn quoted(rest: &[u8]) -> usize
    ensures { result ≡ quoted rest.now }
{
    match find_quote(rest) {
        Some(close) => close + 1,
        None => rest.len(),
    }
}

fn find_quote(rest: &[u8]) -> Option<usize>
    ensures { result ≡ position (λ b. b == 39) rest.now }
{
    rest.iter().position(|b| *b == b'\'')
}

// 1 where the next byte is `=`, else 0.
#[tactic(auto, using(crate::proofs::LexLaws::equals_front))]
fn equals(rest: &[u8]) -> usize
    ensures { result ≡ equals rest.now }
{
    usize::from(rest.starts_with(b"="))
}

// Whether a byte goes on a token of this shape.
fn goes_on(shape: Shape, b: u8) -> bool
    ensures { result ≡ goes_on shape b }
{
    match shape {
        Shape::Blanks => is_ascii_whitespace(b),
        Shape::Digits => is_ascii_digit(b),
        Shape::Word => is_ident_continue(b),
        Shape::Character => is_trailing(b),
        Shape::Quoted | Shape::Symbol(_) | Shape::Operator(_, _) => false,
    }
}

// The kind of a token of this shape with these bytes.
fn kind_of(word: &[u8], shape: Shape) -> Kind
    ensures { number result ≡ kind_of shape word.now }
{
    match shape {
        Shape::Blanks => Kind::Whitespace,
        Shape::Quoted => Kind::StringLit,
        Shape::Symbol(k) => k,
        Shape::Operator(alone, _) if word.len() == 1 => alone,
        Shape::Operator(_, paired) => paired,
        Shape::Digits => Kind::IntLit,
        Shape::Word => word_kind(word),
        Shape::Character => Kind::Error,
    }
}

// A keyword's kind, or IDENT.
#[tactic(auto, unfolding(crate::specs::Lex::word_kind))]
fn word_kind(word: &[u8]) -> Kind
    ensures { number result ≡ word_kind word.now }
{
    if text::same(word, b"and") {
        return Kind::AndKw;
    }
    if text::same(word, b"or") {
        return Kind::OrKw;
    }
    if text::same(word, b"not") {
        return Kind::NotKw;
    }
    Kind::Ident
}

// The tests of bytes by the names that lexer.rs has for them. This one: whether a byte is a blank that begins a token.
#[tactic(auto, unfolding(crate::specs::Bytes::is_blank))]
fn is_blank(b: u8) -> bool
    ensures { result ≡ is_blank b }
{
    b == b' ' || b == b'\t' || b == b'\n' || b == b'\r'
}

// Whether a byte goes on a blank run: a form feed does, though it begins none.
#[tactic(auto, using(crate::proofs::LexLaws::blank_is))]
fn is_ascii_whitespace(b: u8) -> bool
    ensures { result ≡ is_ascii_whitespace b }
{
    b.is_ascii_whitespace()
}

#[tactic(auto, using(crate::proofs::LexLaws::digit_is))]
fn is_ascii_digit(b: u8) -> bool
    ensures { result ≡ is_ascii_digit b }
{
    b.is_ascii_digit()
}

#[tactic(auto, using(crate::proofs::LexLaws::ident_start_is))]
fn is_ident_start(b: u8) -> bool
    ensures { result ≡ is_ident_start b }
{
    b.is_ascii_alphabetic() || b == b'_'
}

// Small letters are asked for first, by themselves, as most bytes of a rule are such: otherwise they cost nearly twice as much.
#[tactic(auto, unfolding(crate::specs::Bytes::is_ident_continue))]
fn is_ident_continue(b: u8) -> bool
    ensures { result ≡ is_ident_continue b }
{
    if b.is_ascii_lowercase() {
        return true;
    }
    is_ident_start(b) || is_ascii_digit(b)
}

// Whether a byte is a trailing byte of a UTF-8 character.
#[tactic(auto, unfolding(crate::specs::Bytes::is_trailing))]
fn is_trailing(b: u8) -> bool
    ensures { result ≡ is_trailing b }
{
    0x80 <= b && b <= 0xBF
}
