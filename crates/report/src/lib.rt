// What is printed for the one who asked: the verdict, what a rule comes to, its members, and each parse error with its place. Each
// writer appends whole lines, or a part of one.
#![tactic(auto)]

pub mod answer;
pub mod error;
