// Word stores: the traits by which code reads and writes words, calls over any store, and the small store.
#![tactic(auto)]

pub mod fault;
pub mod generic;
pub mod small;
pub mod traits;
