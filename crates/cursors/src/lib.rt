// Stores over a lent slice of words: the cursor, and a store read the other way round.
#![tactic(auto)]

pub mod cursor;
pub mod reverse;
