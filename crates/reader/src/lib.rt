// The token rows of a rule, looked at by place: what parser.rs `ExprParser` asks of its tokens and its place in them.
#![tactic(auto)]

ghost use Rattle.std.specs.Prelude.{◌≡◌};
ghost use Rattle.reader.specs.Reader.{row_at, kind_at, past_ws, current_kind};

use lexer::limits::TOKEN_ROW;
use syntax::kind::Kind;

// A token as its row has it: the number of its kind, and its first and end byte.
#[derive(Clone, Copy)]
pub struct Row {
    pub kind: u32,
    pub first: u32,
    pub end: u32,
}

// The token rows, and the number of the next token.
#[derive(Clone, Copy)]
pub struct Reader<'a> {
    pub rows: &'a [u32],
    pub place: usize,
}

impl<'a> Reader<'a> {
    // A reader of these rows that stands at a place.
    pub fn new(rows: &'a [u32], place: usize) -> Reader<'a>
        ensures { (result.rows ≡ rows.entry) × (result.place ≡ place) }
    {
        Reader { rows, place }
    }

    // parser.rs `current_kind`: the kind of the first token from here on that is no blank.
    pub fn current_kind(self) -> Option<u32>
        ensures { result ≡ current_kind self.entry.rows.now self.entry.place }
    {
        self.skip_ws().kind()
    }

    // The reader past the blanks that stand next.
    pub fn skip_ws(self) -> Reader<'a>
        ensures { (result.rows ≡ self.entry.rows) × (result.place ≡ past_ws self.entry.rows.now self.entry.place) }
    {
        let (rows, _) = self.rows.as_chunks::<TOKEN_ROW>();
        let rest = rows.get(self.place..).unwrap_or(&[]);
        let blanks = rest.iter().take_while(|r| r[0] == Kind::Whitespace as u32);
        Reader::new(self.rows, self.place + blanks.count())
    }

    // The kind of the next token.
    fn kind(self) -> Option<u32>
        ensures { result ≡ kind_at self.entry.rows.now self.entry.place }
    {
        self.row().map(|row| row.kind)
    }

    // The next token; none past the last whole row.
    pub fn row(self) -> Option<Row>
        ensures { result ≡ row_at self.entry.rows.now self.entry.place }
    {
        if self.rows.len() / TOKEN_ROW <= self.place {
            return None;
        }
        let at = TOKEN_ROW * self.place;
        Some(Row {
            kind: self.rows[at],
            first: self.rows[at + 1],
            end: self.rows[at + 2],
        })
    }
}
