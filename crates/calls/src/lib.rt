// eval.rs, what needs no board: the seven calls and what each gives, the outcome and its verdict, and a comparison's integer and operator.
#![tactic(auto)]

pub mod compare;
pub mod method;
pub mod table;
pub mod value;
pub mod verdict;
