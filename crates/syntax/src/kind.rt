// syntax.rs: the kinds of tokens and nodes, in its order. In the lent tables a kind stands as its number.
ghost use Rattle.std.specs.Prelude.{◌≡◌};
ghost use Rattle.syntax.specs.Kinds.{number, Names};

// A kind of token or node, with its number.
#[derive(Clone, Copy, PartialEq, Eq, Debug)]
pub enum Kind {
    // Tokens.
    Whitespace = 0,
    Ident = 1,
    StringLit = 2,
    Dot = 3,
    LParen = 4,
    RParen = 5,
    EqEq = 6,
    Neq = 7,
    Ge = 8,
    Gt = 9,
    Le = 10,
    Lt = 11,
    IntLit = 12,
    Comma = 13,
    // Keywords.
    AndKw = 14,
    OrKw = 15,
    NotKw = 16,
    // A character that begins no token.
    Error = 17,
    // Nodes.
    Root = 18,
    PipelineExpr = 19,
    DotCall = 20,
    CallArgs = 21,
    BinaryExpr = 22,
    UnaryExpr = 23,
    CompareExpr = 24,
    CallExpr = 25,
    ParenExpr = 26,
    Literal = 27,
    IdentExpr = 28,
    ContainsExpr = 29,
    CountCompareExpr = 30,
}

// A number that is no kind's.
#[derive(Clone, Copy, PartialEq, Eq, Debug)]
pub struct UnknownKind(pub u32);

impl From<Kind> for u32 {
    ghost from_gives = { λ kind n. n ≡ number kind };

    fn from(kind: Kind) -> u32 {
        kind as u32
    }
}

impl TryFrom<u32> for Kind {
    type Error = UnknownKind;

    ghost try_from_gives = { Names };

    fn try_from(n: u32) -> Result<Kind, UnknownKind> {
        match n {
            0 => Ok(Kind::Whitespace),
            1 => Ok(Kind::Ident),
            2 => Ok(Kind::StringLit),
            3 => Ok(Kind::Dot),
            4 => Ok(Kind::LParen),
            5 => Ok(Kind::RParen),
            6 => Ok(Kind::EqEq),
            7 => Ok(Kind::Neq),
            8 => Ok(Kind::Ge),
            9 => Ok(Kind::Gt),
            10 => Ok(Kind::Le),
            11 => Ok(Kind::Lt),
            12 => Ok(Kind::IntLit),
            13 => Ok(Kind::Comma),
            14 => Ok(Kind::AndKw),
            15 => Ok(Kind::OrKw),
            16 => Ok(Kind::NotKw),
            17 => Ok(Kind::Error),
            18 => Ok(Kind::Root),
            19 => Ok(Kind::PipelineExpr),
            20 => Ok(Kind::DotCall),
            21 => Ok(Kind::CallArgs),
            22 => Ok(Kind::BinaryExpr),
            23 => Ok(Kind::UnaryExpr),
            24 => Ok(Kind::CompareExpr),
            25 => Ok(Kind::CallExpr),
            26 => Ok(Kind::ParenExpr),
            27 => Ok(Kind::Literal),
            28 => Ok(Kind::IdentExpr),
            29 => Ok(Kind::ContainsExpr),
            30 => Ok(Kind::CountCompareExpr),
            _ => Err(UnknownKind(n)),
        }
    }
}
