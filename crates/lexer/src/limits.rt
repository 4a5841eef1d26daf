// The limits of document 01.

// The most bytes that a rule may have, and the most tokens `(` and `not`.
pub const MAX_RULE: usize = 500;

pub const MAX_OPENERS: usize = 64;

// The numbers of a row of each table.
pub const TOKEN_ROW: usize = 3;

pub const TREE_ROW: usize = 4;

pub const ERROR_ROW: usize = 4;
