// The words that the whole library speaks in: refusals, rows and links as types, and, in specs/, what bits, places, coders, codebooks,
// link sets and runs mean. The contracts of all other crates cite these definitions. A function that only answers true carries a theorem:
// one is proved only where a contract names it.
#![tactic(auto)]

pub mod examples;
pub mod golomb;
pub mod histories;
pub mod link;
pub mod refusal;
pub mod runs;
pub mod settled;
