// One record, and which bytes and record numbers make a store.
ghost use Rattle.std.specs.Prelude.{◌≡◌, ◌+◌, ◌*◌, ◌≤◌, length};
ghost use Rattle.records.specs.Faults.{RecordsChecked};
ghost use Rattle.records.specs.Records.{RecordRead, place_at, put_record};

use super::fault::RecordError;
use backends::fault::ReadFault;
use backends::traits::MOST_PLACES;

// The bytes of a record.
pub const RECORD_BYTES: usize = 5;

// Whether a record store can stand at a record number of so many bytes.
pub fn check_records(len: usize, pos: usize) -> Result<(), RecordError>
    ensures { RecordsChecked len pos result }
{
    if len % RECORD_BYTES != 0 {
        return Err(RecordError::Ragged);
    }
    if pos > len / RECORD_BYTES || len / RECORD_BYTES > MOST_PLACES {
        return Err(RecordError::Misplaced);
    }
    Ok(())
}

// The word of a record that the bytes have, or the fault that it is. (That they have it is of the bytes and a place together: a type for it
// would hold the bytes.)
#[tactic(auto, using(crate::proofs::Chunks::chunk_byte))]
pub(crate) fn record_at(bytes: &[u8], at: usize) -> Result<u32, ReadFault>
    requires { 5 * at + 5 ≤ length bytes.now }
    ensures { RecordRead (place_at bytes.now at) result }
{
    let (records, _) = bytes.as_chunks::<RECORD_BYTES>();
    let [a, b, c, d, ones] = records[at];
    let word = u32::from_le_bytes([a, b, c, d]);
    if u32::from(ones) != word.count_ones() {
        return Err(ReadFault { place: at as u64 });
    }
    Ok(word)
}

// Writes the record of a word where the bytes have its place. (By index: `copy_from_slice` costs more for five bytes.)
pub(crate) fn put_record(bytes: &mut [u8], at: usize, word: u32)
    requires { 5 * at + 5 ≤ length bytes.old }
    ensures { bytes.new ≡ put_record bytes.old at word }
{
    let start = RECORD_BYTES * at;
    let [a, b, c, d] = word.to_le_bytes();
    bytes[start] = a;
    bytes[start + 1] = b;
    bytes[start + 2] = c;
    bytes[start + 3] = d;
    bytes[start + 4] = word.count_ones() as u8;
}
