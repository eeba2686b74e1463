// The program's side to the system: its arguments, reads and writes on streams, and what it says of failures and of itself.
#![tactic(auto)]

pub mod arguments;
pub mod failures;
pub mod help;
pub mod streams;
