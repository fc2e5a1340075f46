// Byte records that are only read.
use super::byte_records::ByteRecords;

pub type Records<'a> = ByteRecords<&'a [u8]>;
