// What every crate above shares: the kinds of tokens and nodes, the refusals, texts and their parts, and UTF-8.
#![tactic(auto)]

pub mod form;
pub mod kind;
pub mod refusal;
pub mod text;
pub mod utf8;
