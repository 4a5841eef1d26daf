// parser.rs: the green tree of a rule, as rows of a lent table, and the parse errors, as rows of another.
#![tactic(auto)]

ghost use Rattle.std.specs.Prelude.{◌≡◌, ℕ, ◌∷◌, [], ◌+◌, ◌≤◌, ◌<◌, ◌^◌, ◌&&◌, leb, length, drop};
ghost use Rattle.std.proofs.lemmas.List.Edits.{sets};
ghost use Rattle.syntax.specs.Kind.{NONE};
ghost use Rattle.syntax.specs.Kinds.{number};
ghost use Rattle.syntax.specs.Forms as forms;
ghost use Rattle.lexer.specs.Lex.{lex, token_rows};
ghost use Rattle.lexer.specs.Read.{check_rule};
ghost use Rattle.reader.specs.Reader.{row_at, kind_at};
ghost use Rattle.trees.specs.Look.{skip_ws, tail_of, first_kind, current_text, at_kind, at_ident, at_message_dot, at_field, is_comparison, has_count_compare_ahead, has_binary_op_at_level};
ghost use Rattle.trees.specs.Parse.{Parser, in_node, next, next_is, fails, fails_ahead, eat_ws, bump, expect, expect_ident, literal, call_expr, ident_expr, contains_expr, compare_expr, simple_atom, predicate_args, no_args, no_method, parse_method, parse_dot_call, parse, OrExpr, AndExpr, Atom, Calls, parse_source, parse_pipeline, parse_pipeline_or_count_compare, remaining, left_over, parse_root};
ghost use Rattle.trees.specs.Read.{check_tables, Reads};
ghost use Rattle.trees.specs.Writing.{NoneFrom, NoOpsFrom};
ghost use Rattle.trees.specs.Writing as tables;
ghost use Rattle.parser.specs.Parser.{left, token_ahead, Ready, Asks, Did, Started, Inside, Finished, Reported, expected_number, is_predicate_method, is_plain_method};

use lexer::limits::{ERROR_ROW, MAX_RULE, TOKEN_ROW, TREE_ROW};
use reader::{Reader, Row};
use syntax::form::Form;
use syntax::kind::Kind;
use syntax::refusal::Refusal;
use syntax::text;
use trees::{Cursor, Ops, Reading, Rows};

// Reads a rule that passes refusals 1 to 4 into the three tables, plain slices as C lends them; a refusal leaves them as they are.
pub fn parse_expr(rule: &[u8], tokens: &mut [u32], tree: &mut [u32], errors: &mut [u32]) -> Reading
    ensures { Reads (check_rule rule.now (length tokens.old) (length tree.old) (length errors.old)) rule.now tokens.old tokens.new tree.old tree.new errors.old errors.new result }
{
    lexer::check_rule(rule, tokens.len(), tree.len(), errors.len())?;
    parse_rule(rule, tokens, tree, errors)
}

// Reads any bytes into the three tables. It refuses only what it has no room for, and then leaves the tables as they are.
pub fn parse_rule(rule: &[u8], tokens: &mut [u32], tree: &mut [u32], errors: &mut [u32]) -> Reading
    ensures { Reads (check_tables (length rule.now) (length tokens.old) (length tree.old) (length errors.old)) rule.now tokens.old tokens.new tree.old tree.new errors.old errors.new result }
{
    if MAX_RULE < rule.len() {
        return Err(Refusal::RuleTooLong);
    }
    if lexer::tables_short(rule.len(), tokens.len(), tree.len(), errors.len()) {
        return Err(Refusal::TableTooShort);
    }
    let n = lexer::lex(rule, tokens)?;
    let end = parse_tokens(rule, &tokens[..TOKEN_ROW * n], tree, errors);
    Ok(Rows {
        tokens: n,
        tree: end.row / TREE_ROW,
        errors: end.error / ERROR_ROW,
    })
}

// Reads the token rows of a rule into the other two tables, and gives where it stands then.
fn parse_tokens(rule: &[u8], tokens: &[u32], tree: &mut [u32], errors: &mut [u32]) -> Cursor
    requires asks { tables.Asks (lex rule.now) tokens.now tree.old errors.old 0 START parse_root }
    requires short { length rule.now < 2 ^ 32 }
    ensures { tables.Did (lex rule.now) tree.old tree.new errors.old errors.new 0 START result parse_root }
{
    let ops = last_ops(rule, tokens);
    let mut parser = ExprParser {
        rule,
        tokens,
        tree,
        errors,
        level: 0,
        at: START,
        ops,
    };
    parser.parse_root();
    parser.at
}

// The rule and its token rows, the two tables that are written, the level of the tree's next row, where the parser stands, and from where
// on no `and` and no `or` comes.
#[derive(Drop)]
struct ExprParser<'a> {
    rule: &'a [u8],
    tokens: &'a [u32],
    tree: &'a mut [u32],
    errors: &'a mut [u32],
    level: u32,
    at: Cursor,
    ops: Ops,
}

// At the first token, and at the front of both tables.
const START: Cursor = Cursor {
    token: 0,
    byte: 0,
    row: 0,
    error: 0,
};

fn last_ops(rule: &[u8], tokens: &[u32]) -> Ops
    requires { tokens.now ≡ token_rows 0 (lex rule.now) }
    ensures { NoOpsFrom (lex rule.now) result }
{
    Ops {
        ands: past_last(rule, tokens, Kind::AndKw),
        ors: past_last(rule, tokens, Kind::OrKw),
    }
}

// The place past the last token of a kind, 0 where there is none: a scan for that kind can end there.
fn past_last(rule: &[u8], tokens: &[u32], kind: Kind) -> usize
    requires { tokens.now ≡ token_rows 0 (lex rule.now) }
    ensures { NoneFrom (number kind) (lex rule.now) result }
{
    let wanted = u32::from(kind);
    for i in (0..tokens.len() / TOKEN_ROW).rev() {
        if tokens[TOKEN_ROW * i] == wanted {
            return i + 1;
        }
    }
    0
}

// Writes a row of the tree table from `at` on, or of the error table, which is as wide.
#[tactic(auto, using(lexer::proofs::ReadLaws::put_is))]
fn put_row(table: &mut [u32], at: usize, row: [u32; TREE_ROW])
    requires { at + TREE_ROW ≤ length table.old }
    ensures { table.new ≡ sets table.old at row }
{
    table[at..at + TREE_ROW].copy_from_slice(&row);
}

// Writes the token at a place as a leaf of a level; the place is then the one past it.
fn put_leaf(tree: &mut [u32], level: u32, at: &mut Cursor, token: Row)
    requires room { at.old.row + TREE_ROW ≤ length tree.old }
    requires small { at.old.token + 1 < 2 ^ 64 }
    ensures leaf { tree.new ≡ sets tree.old at.old.row (token.kind ∷ level ∷ at.old.byte ∷ token.end ∷ []) }
    ensures past { at.new ≡ record { token = at.old.token + 1; byte = token.end; row = at.old.row + TREE_ROW; error = at.old.error } }
{
    put_row(tree, at.row, [token.kind, level, at.byte, token.end]);
    at.token += 1;
    at.byte = token.end;
    at.row += TREE_ROW;
}

// `>= > <= < == !=`
#[tactic(auto, unfolding(trees::specs::Look::is_comparison))]
fn is_comparison(kind: Kind) -> bool
    ensures { result ≡ is_comparison (number kind) }
{
    matches!(
        kind,
        Kind::Ge | Kind::Gt | Kind::Le | Kind::Lt | Kind::EqEq | Kind::Neq
    )
}

fn is_predicate_method(method: &[u8]) -> bool
    ensures { result ≡ is_predicate_method method.now }
{
    text::same(method, b"where")
        || text::same(method, b"all")
        || text::same(method, b"any")
        || text::same(method, b"none")
}

fn is_plain_method(method: &[u8]) -> bool
    ensures { result ≡ is_plain_method method.now }
{
    text::same(method, b"features") || text::same(method, b"diagnostics")
}

// The number of the kind expected, as an error row has it: 0 where the form of error expects no kind.
fn expected_number(expected: Option<Kind>) -> u32
    ensures { result ≡ expected_number expected }
{
    expected.map_or(0, u32::from)
}

// Token helpers.
impl<'a> ExprParser<'a> {
    // A reader of the tokens that are left.
    fn reader(&self) -> Reader<'a>
        ensures { (result.rows ≡ self.now.tokens) × (result.place ≡ self.now.at.token) }
    {
        Reader::new(self.tokens, self.at.token)
    }

    // The kind of the first token that is no blank.
    #[tactic(auto, using(crate::proofs::ParserLaws::current_here))]
    fn current_kind(&self) -> Option<u32>
        requires { Ready self.now }
        ensures { result ≡ first_kind (skip_ws (left self.now)) }
    {
        self.reader().current_kind()
    }

    // That token.
    fn token_ahead(&self) -> Option<Row>
        ensures { result ≡ token_ahead self.now }
    {
        self.reader().skip_ws().row()
    }

    // Its bytes; at the end of text it has none.
    fn current_text(&self) -> &'a [u8]
        requires { Ready self.now }
        ensures { result.now ≡ current_text (left self.now) }
    {
        let Some(row) = self.token_ahead() else {
            return b"";
        };
        &self.rule[row.first as usize..row.end as usize]
    }

    #[tactic(auto, using(trees::proofs::LookLaws::kind_test))]
    fn at_kind(&self, kind: Kind) -> bool
        requires { Ready self.now }
        ensures { result ≡ at_kind (number kind) (left self.now) }
    {
        self.current_kind() == Some(u32::from(kind))
    }

    // Whether that token is this word.
    fn at_ident(&self, text: &[u8]) -> bool
        requires { Ready self.now }
        ensures { result ≡ at_ident text.now (left self.now) }
    {
        self.is_ident(self.token_ahead(), text)
    }

    // The same of that token where it is known: one look serves its kind and its text, and more than one word.
    fn is_ident(&self, token: Option<Row>, text: &[u8]) -> bool
        requires ready { Ready self.now }
        requires ahead { token ≡ token_ahead self.now }
        ensures { result ≡ at_ident text.now (left self.now) }
    {
        let Some(row) = token else {
            return false;
        };
        if row.kind != Kind::Ident as u32 {
            return false;
        }
        text::same(&self.rule[row.first as usize..row.end as usize], text)
    }

    fn at_eof(&self) -> bool
        requires { Ready self.now }
        ensures { result ≡ at_kind NONE (left self.now) }
    {
        self.current_kind().is_none()
    }

    // `message` with a `.` after it: `peek_kind(1)`, the kind of the second token that is no blank, is asked.
    #[tactic(auto, using(trees::proofs::LookLaws::head_test), unfolding(trees::specs::Look::at_message_dot, trees::specs::Look::peek_kind))]
    fn at_message_dot(&self, token: Option<Row>) -> bool
        requires ready { Ready self.now }
        requires ahead { token ≡ token_ahead self.now }
        ensures { result ≡ at_message_dot (left self.now) }
    {
        self.is_ident(token, b"message") && self.peek_kind() == Some(Kind::Dot as u32)
    }

    // The kind of the second token that is no blank.
    fn peek_kind(&self) -> Option<u32>
        requires { Ready self.now }
        ensures { result ≡ first_kind (skip_ws (tail_of (skip_ws (left self.now)))) }
    {
        let current = self.reader().skip_ws();
        Reader::new(self.tokens, current.place + 1).current_kind()
    }

    // Whether the next token is of this kind.
    #[tactic(auto, using(trees::proofs::LookLaws::next_test, crate::proofs::ParserLaws::next_here))]
    fn next_is(&self, kind: Kind) -> bool
        requires { Ready self.now }
        ensures { result ≡ next_is (number kind) (left self.now) }
    {
        self.next_kind() == Some(u32::from(kind))
    }

    // The kind of the next token.
    #[tactic(auto, unfolding(reader::specs::Reader::kind_at))]
    fn next_kind(&self) -> Option<u32>
        requires { Ready self.now }
        ensures { result ≡ kind_at self.now.tokens.now self.now.at.token }
    {
        self.next_row().map(|token| token.kind)
    }

    // The next token, as the reader finds it; its place is known to be within the rows, so no division is needed for it.
    #[tactic(auto, using(reader::proofs::ReaderLaws::row_some, reader::proofs::ReaderLaws::row_none, trees::proofs::TokenLaws::table_length, crate::proofs::ParserLaws::tokens_few))]
    fn next_row(&self) -> Option<Row>
        requires { Ready self.now }
        ensures { result ≡ row_at self.now.tokens.now self.now.at.token }
    {
        let at = TOKEN_ROW * self.at.token;
        if self.tokens.len() <= at {
            return None;
        }
        Some(Row {
            kind: self.tokens[at],
            first: self.tokens[at + 1],
            end: self.tokens[at + 2],
        })
    }
}

// Token consumption. Each token is written on the way to one of another kind, so that a `while` says it.
impl ExprParser<'_> {
    // The blanks that come next.
    fn eat_ws(&mut self)
        requires { Asks self.old eat_ws }
        ensures { Did self.old self.new eat_ws }
    {
        while self.next_is(Kind::Whitespace) {
            self.put_token();
        }
    }

    // Blanks, and the token after them.
    #[inline(always)]
    fn bump(&mut self)
        requires { Asks self.old bump }
        ensures { Did self.old self.new bump }
    {
        self.eat_ws();
        self.put_token();
    }

    // Blanks, and the token after them if it is of this kind, else an error.
    #[inline(always)]
    fn expect(&mut self, kind: Kind)
        requires { Asks self.old (expect (number kind)) }
        ensures { Did self.old self.new (expect (number kind)) }
    {
        self.eat_ws();
        if self.next_is(kind) {
            self.put_token();
        } else {
            self.fail(Form::Expect, Some(kind));
        }
    }

    // Blanks, and this word after them, else an error.
    fn expect_ident(&mut self, text: &[u8])
        requires { Asks self.old (expect_ident text.now) }
        ensures { Did self.old self.new (expect_ident text.now) }
    {
        self.eat_ws();
        if self.at_ident(text) {
            self.put_token();
        } else {
            self.fail(Form::ExpectIdent, None);
        }
    }

    // All tokens left. Tokens and place are values on the way: in the parser both would be read, and the place written, for each token.
    fn take_remaining(&mut self)
        requires { Asks self.old remaining }
        ensures { Did self.old self.new remaining }
    {
        let tokens = self.tokens;
        let mut at = self.at;
        while let Some(token) = Reader::new(tokens, at.token).row() {
            put_leaf(self.tree, self.level, &mut at, token);
        }
        self.at = at;
    }

    // The next token, as a leaf; at the end of text nothing.
    fn put_token(&mut self)
        requires { Asks self.old next }
        ensures { Did self.old self.new next }
    {
        if let Some(token) = self.next_row() {
            put_leaf(self.tree, self.level, &mut self.at, token);
        }
    }

    // A node's row, whose end `finish_node` sets; what comes next stands inside it.
    fn start_node(&mut self, kind: Kind) -> usize
        requires { (p : Parser) × Asks self.old (in_node (number kind) p) }
        ensures { Started self.old self.new (number kind) result }
    {
        let node = self.at.row;
        let row = [kind as u32, self.level, self.at.byte, self.at.byte];
        put_row(self.tree, node, row);
        self.at.row += TREE_ROW;
        self.level += 1;
        node
    }

    // Sets the end of the node whose row is `node`, and steps out of it.
    fn finish_node(&mut self, node: usize)
        requires { Inside self.old node }
        ensures { Finished self.old self.new node }
    {
        self.tree[node + 3] = self.at.byte;
        self.level -= 1;
    }

    // An error at the next token, or at the end of text.
    fn fail(&mut self, form: Form, expected: Option<Kind>)
        requires { Asks self.old (fails (forms.number form) (expected_number expected)) }
        ensures { Did self.old self.new (fails (forms.number form) (expected_number expected)) }
    {
        self.put_error(form, expected, self.next_row());
    }

    // An error at the first token that is no blank, or at the end of text.
    fn fail_ahead(&mut self, form: Form)
        requires { Asks self.old (fails_ahead (forms.number form)) }
        ensures { Did self.old self.new (fails_ahead (forms.number form)) }
    {
        self.put_error(form, None, self.token_ahead());
    }

    // An error row at a token, or at the end of text.
    fn put_error(&mut self, form: Form, expected: Option<Kind>, token: Option<Row>)
        requires ready { Ready self.old }
        requires room { self.old.at.error + ERROR_ROW ≤ length self.old.errors.now }
        ensures { (i : ℕ) → token ≡ row_at self.old.tokens.now i → Reported self.old self.new (forms.number form) (expected_number expected) (drop i (lex self.old.rule.now)) }
    {
        let form = u32::from(form);
        let expected = expected_number(expected);
        let end = self.rule.len() as u32;
        let row = match token {
            Some(token) => [form, expected, token.first, token.end],
            None => [form, expected, end, end],
        };
        put_row(self.errors, self.at.error, row);
        self.at.error += ERROR_ROW;
    }
}

// Grammar rules.
impl ExprParser<'_> {
    // The whole rule: a pipeline or a comparison, and what is left over.
    fn parse_root(&mut self)
        requires { Asks self.old parse_root }
        ensures { Did self.old self.new parse_root }
    {
        let node = self.start_node(Kind::Root);
        self.parse_pipeline_or_count_compare();
        self.eat_ws();
        self.left_over();
        self.finish_node(node);
    }

    // Tokens left over: an error, and they stand in the root.
    fn left_over(&mut self)
        requires { Asks self.old left_over }
        ensures { Did self.old self.new left_over }
    {
        if !self.at_eof() {
            self.fail(Form::LeftOver, None);
            self.take_remaining();
        }
    }

    // A pipeline, and an operator and an integer after it if the rule ends in them.
    fn parse_pipeline_or_count_compare(&mut self)
        requires { Asks self.old parse_pipeline_or_count_compare }
        ensures { Did self.old self.new parse_pipeline_or_count_compare }
    {
        if self.has_count_compare_ahead() {
            let node = self.start_node(Kind::CountCompareExpr);
            self.parse_pipeline();
            self.bump();
            self.bump();
            self.finish_node(node);
        } else {
            self.parse_pipeline();
        }
    }

    // Whether the last two tokens that are no blanks are a comparison operator and an integer, looked for from the end.
    fn has_count_compare_ahead(&self) -> bool
        requires { Ready self.now }
        ensures { result ≡ has_count_compare_ahead (left self.now) }
    {
        let mut integer = false;
        for i in (self.at.token..self.tokens.len() / TOKEN_ROW).rev() {
            let kind = self.tokens[TOKEN_ROW * i];
            if kind == Kind::Whitespace as u32 {
                continue;
            }
            if integer {
                return Kind::try_from(kind).is_ok_and(is_comparison);
            }
            if kind != Kind::IntLit as u32 {
                return false;
            }
            integer = true;
        }
        false
    }

    // pipeline = source ( '.' method )*
    fn parse_pipeline(&mut self)
        requires { Asks self.old parse_pipeline }
        ensures { Did self.old self.new parse_pipeline }
    {
        let node = self.start_node(Kind::PipelineExpr);
        self.parse_source();
        self.parse_calls();
        self.finish_node(node);
    }

    // source = 'components' | 'analysis' '(' STRING ')'
    fn parse_source(&mut self)
        requires { Asks self.old parse_source }
        ensures { Did self.old self.new parse_source }
    {
        if self.at_ident(b"components") {
            self.ident_expr();
        } else if self.at_ident(b"analysis") {
            self.call_expr();
        } else {
            self.fail_ahead(Form::Source);
        }
    }

    // ( '.' method )*: the blanks after the last call stay in the pipeline. The loop ends behind them and before what is no call.
    fn parse_calls(&mut self)
        requires { Asks self.old (parse Calls) }
        ensures { Did self.old self.new (parse Calls) }
    {
        loop {
            self.eat_ws();
            if !self.next_is(Kind::Dot) {
                break;
            }
            self.parse_dot_call();
        }
    }

    // dot_call = '.' ident [ '(' args ')' ]
    fn parse_dot_call(&mut self)
        requires { Asks self.old (parse_dot_call (parse OrExpr)) }
        ensures { Did self.old self.new (parse_dot_call (parse OrExpr)) }
    {
        let node = self.start_node(Kind::DotCall);
        self.expect(Kind::Dot);
        self.parse_method();
        self.finish_node(node);
    }

    // The method's name decides, whatever kind of token has it.
    fn parse_method(&mut self)
        requires { Asks self.old (parse_method (parse OrExpr)) }
        ensures { Did self.old self.new (parse_method (parse OrExpr)) }
    {
        let method = self.current_text();
        if is_predicate_method(method) {
            self.bump();
            self.predicate_args();
        } else if text::same(method, b"count") {
            self.bump();
            self.no_args();
        } else if is_plain_method(method) {
            self.bump();
        } else {
            self.no_method();
        }
    }

    // '(' or_expr ')'
    fn predicate_args(&mut self)
        requires { Asks self.old (predicate_args (parse OrExpr)) }
        ensures { Did self.old self.new (predicate_args (parse OrExpr)) }
    {
        let node = self.start_node(Kind::CallArgs);
        self.expect(Kind::LParen);
        self.parse_or_expr();
        self.expect(Kind::RParen); // The bracket that closes the call.
        self.finish_node(node);
    }

    // '(' ')'
    fn no_args(&mut self)
        requires { Asks self.old no_args }
        ensures { Did self.old self.new no_args }
    {
        let node = self.start_node(Kind::CallArgs);
        self.expect(Kind::LParen);
        self.expect(Kind::RParen);
        self.finish_node(node);
    }

    // No method: an error, and the next token is passed over. At the end of text nothing is taken, not even blanks.
    fn no_method(&mut self)
        requires { Asks self.old no_method }
        ensures { Did self.old self.new no_method }
    {
        self.fail_ahead(Form::Method);
        if !self.at_eof() {
            self.bump();
        }
    }
}

// Boolean expression grammar.
//
// or_expr  = and_expr ( 'or' and_expr )*
// and_expr = atom ( 'and' atom )*
// atom     = 'not' atom
//          | 'has' '(' STRING ')'
//          | 'connected'
//          | field '==' STRING
//          | 'message' '.' 'contains' '(' STRING ')'
//          | '(' or_expr ')'
//
// An operand alone is its own node; more than one stand in a BINARY_EXPR. The first two rules are two functions, as in parser.rs: what they
// share would take the next rule as a closure, and a closure handed around a cycle of calls gets no proof.
impl ExprParser<'_> {
    // A node only where an `or` stands ahead.
    #[cycle(parse_or_expr)]
    fn parse_or_expr(&mut self)
        requires { Asks self.old (parse OrExpr) }
        ensures { Did self.old self.new (parse OrExpr) }
    {
        if self.past_ops() {
            return self.parse_atom();
        }
        let end = self.ops.ors;
        if !self.has_binary_op_at_level(Kind::OrKw, end) {
            return self.parse_and_expr();
        }
        let node = self.start_node(Kind::BinaryExpr);
        self.parse_and_expr();
        while self.at_kind(Kind::OrKw) {
            self.bump();
            self.parse_and_expr();
        }
        self.finish_node(node);
    }

    // Whether neither `and` nor `or` is left: an or_expr is then an atom.
    fn past_ops(&self) -> bool
        ensures { result ≡ leb self.now.ops.ors self.now.at.token && leb self.now.ops.ands self.now.at.token }
    {
        self.ops.ors <= self.at.token && self.ops.ands <= self.at.token
    }

    // A node only where an `and` stands ahead, even past an `or`.
    #[cycle(parse_or_expr)]
    fn parse_and_expr(&mut self)
        requires { Asks self.old (parse AndExpr) }
        ensures { Did self.old self.new (parse AndExpr) }
    {
        let end = self.ops.ands;
        if !self.has_binary_op_at_level(Kind::AndKw, end) {
            return self.parse_atom();
        }
        let node = self.start_node(Kind::BinaryExpr);
        self.parse_atom();
        while self.at_kind(Kind::AndKw) {
            self.bump();
            self.parse_atom();
        }
        self.finish_node(node);
    }

    // Whether `op` stands ahead outside brackets, before the bracket that closes this place and after something that is no blank. From the
    // token at `end` on there is none.
    fn has_binary_op_at_level(&self, op: Kind, end: usize) -> bool
        requires ready { Ready self.now }
        requires none_from { NoneFrom (number op) (lex self.now.rule.now) end }
        ensures { result ≡ has_binary_op_at_level (number op) (left self.now) }
    {
        let wanted = u32::from(op);
        let mut depth: usize = 0;
        let mut found_first_atom = false;
        for i in self.at.token..end {
            let kind = self.tokens[TOKEN_ROW * i];
            if kind == Kind::Whitespace as u32 {
                continue;
            }
            if kind == Kind::RParen as u32 {
                if depth == 0 {
                    return false;
                }
                depth -= 1;
                continue;
            }
            if kind == Kind::LParen as u32 {
                depth += 1;
            } else if kind == wanted && depth == 0 && found_first_atom {
                return true;
            }
            found_first_atom = true;
        }
        false
    }

    #[cycle(parse_or_expr)]
    fn parse_atom(&mut self)
        requires { Asks self.old (parse Atom) }
        ensures { Did self.old self.new (parse Atom) }
    {
        self.eat_ws();
        if self.next_is(Kind::NotKw) {
            let node = self.start_node(Kind::UnaryExpr);
            self.bump();
            self.parse_atom();
            self.finish_node(node);
        } else if self.next_is(Kind::LParen) {
            let node = self.start_node(Kind::ParenExpr);
            self.bump();
            self.parse_or_expr();
            self.expect(Kind::RParen);
            self.finish_node(node);
        } else {
            self.simple_atom();
        }
    }

    // 'has' '(' STRING ')' | 'connected' | 'message' '.' 'contains' '(' STRING ')' | field '==' STRING
    fn simple_atom(&mut self)
        requires { Asks self.old simple_atom }
        ensures { Did self.old self.new simple_atom }
    {
        let token = self.token_ahead();
        if self.is_ident(token, b"has") {
            self.call_expr();
        } else if self.is_ident(token, b"connected") {
            self.ident_expr();
        } else if self.at_message_dot(token) {
            self.contains_expr();
        } else if self.at_field(token) {
            self.compare_expr();
        } else {
            self.fail_ahead(Form::Atom);
        }
    }

    #[tactic(auto, unfolding(trees::specs::Look::at_field))]
    fn at_field(&self, token: Option<Row>) -> bool
        requires ready { Ready self.now }
        requires ahead { token ≡ token_ahead self.now }
        ensures { result ≡ at_field (left self.now) }
    {
        self.is_ident(token, b"category")
            || self.is_ident(token, b"kind")
            || self.is_ident(token, b"direction")
            || self.is_ident(token, b"severity")
            || self.is_ident(token, b"message")
    }

    // has('..') and analysis('..')
    fn call_expr(&mut self)
        requires { Asks self.old call_expr }
        ensures { Did self.old self.new call_expr }
    {
        let node = self.start_node(Kind::CallExpr);
        self.bump();
        self.expect(Kind::LParen);
        self.literal();
        self.expect(Kind::RParen);
        self.finish_node(node);
    }

    // connected and components
    fn ident_expr(&mut self)
        requires { Asks self.old ident_expr }
        ensures { Did self.old self.new ident_expr }
    {
        let node = self.start_node(Kind::IdentExpr);
        self.bump();
        self.finish_node(node);
    }

    // message.contains('..')
    fn contains_expr(&mut self)
        requires { Asks self.old contains_expr }
        ensures { Did self.old self.new contains_expr }
    {
        let node = self.start_node(Kind::ContainsExpr);
        self.bump();
        self.expect(Kind::Dot);
        self.expect_ident(b"contains");
        self.expect(Kind::LParen);
        self.literal();
        self.expect(Kind::RParen);
        self.finish_node(node);
    }

    // field == '..'
    fn compare_expr(&mut self)
        requires { Asks self.old compare_expr }
        ensures { Did self.old self.new compare_expr }
    {
        let node = self.start_node(Kind::CompareExpr);
        self.bump();
        self.expect(Kind::EqEq);
        self.literal();
        self.finish_node(node);
    }

    // A string literal as a node; blanks before it are inside, even where it is missing.
    fn literal(&mut self)
        requires { Asks self.old literal }
        ensures { Did self.old self.new literal }
    {
        let node = self.start_node(Kind::Literal);
        self.expect(Kind::StringLit);
        self.finish_node(node);
    }
}
