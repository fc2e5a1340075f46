// Streams of symbols, and symbols written and read one after the other.
#![tactic(auto)]

pub mod decode;
pub mod encode;
pub mod traits;
