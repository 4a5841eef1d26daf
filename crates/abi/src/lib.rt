// What the crates below do, over plain numbers and slices, as C and Rust call it: the crate abi_c exports these functions.
#![tactic(auto)]

mod answer;

ghost use Rattle.std.specs.Prelude.{◌≡◌, length};
ghost use Rattle.board.specs.Check.{check_image};
ghost use Rattle.lexer.specs.Read.{check_rule};
ghost use Rattle.message.specs.Message.{message_of};
ghost use Rattle.abi.specs.Abi.{Answers, RowsAnswer, Tables, MessageAnswer, check_number};
ghost use Rattle.abi.specs.Numbers.{ReadAnswer, RunAnswer};

use message::ErrorRow;

// Reads a rule into any three tables. It gives 1, and the eight numbers of the reading at the front of `answer`; or 0, with all tables as
// they were, where `answer` has fewer than eight numbers.
#[tactic(auto, using(crate::proofs::AnswerLaws::read_short, crate::proofs::AnswerLaws::read_answer))]
pub fn spar_read(
    rule: &[u8],
    tokens: &mut [u32],
    tree: &mut [u32],
    errors: &mut [u32],
    answer: &mut [u32],
) -> u32
    ensures { ReadAnswer rule.now tokens.old tokens.new tree.old tree.new errors.old errors.new answer.old answer.new result }
{
    if answer.len() < answer::ANSWER {
        return 0;
    }
    let reading = parser::parse_expr(rule, tokens, tree, errors);
    let first = answer::reading_numbers(reading);
    answer::write(answer, first, answer::row_numbers(reading));
    1
}

// Runs a rule on a board image with any four tables. It gives 1, and the eight numbers of what the rule comes to at the front of `answer`;
// or 0, with all tables as they were, where `answer` has fewer than eight numbers.
#[tactic(auto, using(crate::proofs::AnswerLaws::run_short, crate::proofs::AnswerLaws::run_answer))]
pub fn spar_run(
    rule: &[u8],
    image: &[u8],
    tokens: &mut [u32],
    tree: &mut [u32],
    errors: &mut [u32],
    collection: &mut [u32],
    answer: &mut [u32],
) -> u32
    ensures { RunAnswer rule.now image.now tokens.old tokens.new tree.old tree.new errors.old errors.new collection.old collection.new answer.old answer.new result }
{
    if answer.len() < answer::ANSWER {
        return 0;
    }
    let given = eval::run(rule, image, tokens, tree, errors, collection);
    let first = answer::outcome_numbers(given.outcome, given.verdict);
    answer::write(answer, first, answer::row_numbers(given.reading));
    1
}

// Reads a rule's tokens into a table. `tree` and `errors` are the lengths of the other two tables. It gives 0, and the number of
// tokens in `count`; or the number of a refusal from 1 to 4, with table and count as they were.
#[tactic(auto, using(lexer::proofs::ReadLaws::tokens_few))]
pub fn assertion_read_tokens(
    rule: &[u8],
    tokens: &mut [u32],
    tree: usize,
    errors: usize,
    count: &mut u32,
) -> u32
    ensures { Answers (check_rule rule.now (length tokens.old) tree errors) rule.now tokens.old tokens.new count.old count.new result }
{
    match lexer::read_tokens(rule, tokens, tree, errors) {
        Ok(n) => {
            *count = n as u32;
            0
        }
        Err(r) => u32::from(r),
    }
}

// Reads a rule into three tables. It gives 0, and the numbers of token, tree and error rows in their places; or the number of a
// refusal from 1 to 4, with tables and places as they were.
#[tactic(auto, using(trees::proofs::ReadLaws::rows_few))]
pub fn assertion_parse_expr(
    rule: &[u8],
    tokens: &mut [u32],
    tree: &mut [u32],
    errors: &mut [u32],
    token_rows: &mut u32,
    tree_rows: &mut u32,
    error_rows: &mut u32,
) -> u32
    ensures rows_answer { RowsAnswer (check_rule rule.now (length tokens.old) (length tree.old) (length errors.old)) rule.now token_rows.old token_rows.new tree_rows.old tree_rows.new error_rows.old error_rows.new result }
    ensures tables { Tables (check_rule rule.now (length tokens.old) (length tree.old) (length errors.old)) rule.now tokens.old tokens.new tree.old tree.new errors.old errors.new }
{
    match parser::parse_expr(rule, tokens, tree, errors) {
        Ok(rows) => {
            *token_rows = rows.tokens as u32;
            *tree_rows = rows.tree as u32;
            *error_rows = rows.errors as u32;
            0
        }
        Err(r) => u32::from(r),
    }
}

// Writes the message of an error row. It gives 0, and the number of the message's bytes in `written`; or 1 where `out` is shorter
// than the message, with both as they were.
pub fn assertion_message(
    rule: &[u8],
    form: u32,
    expected: u32,
    first: u32,
    end: u32,
    out: &mut [u8],
    written: &mut usize,
) -> u32
    ensures { MessageAnswer (message_of rule.now form expected first end) out.old out.new written.old written.new result }
{
    let row = ErrorRow {
        form,
        expected,
        first,
        end,
    };
    match message::write_message(rule, row, out) {
        Some(n) => {
            *written = n;
            0
        }
        None => 1,
    }
}

// Checks a board image, and the length of the collection table that its members are to fit: 0, or the number of a refusal from 5 to 8.
pub fn assertion_check_image(image: &[u8], collection: usize) -> u32
    ensures { result ≡ check_number (check_image image.now collection) }
{
    match board::check_image(image, collection) {
        Ok(()) => 0,
        Err(r) => u32::from(r),
    }
}
