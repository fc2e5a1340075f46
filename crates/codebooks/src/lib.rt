// Codebooks, and the bit sinks and bit sources that they work over.
#![tactic(auto)]

pub mod book;
pub mod default;
pub mod each;
pub mod fault;
mod scratch;
pub mod streams;
