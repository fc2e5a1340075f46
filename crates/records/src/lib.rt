// Words of 32 bits kept in bytes, five bytes a record: the word, lowest byte first, and then how many one bits it has.
#![tactic(auto)]

pub mod byte_records;
pub mod fault;
pub mod reader;
pub mod record;
pub mod store;
