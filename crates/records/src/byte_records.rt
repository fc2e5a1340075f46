// Records in bytes of any kind, with a record number: how they are opened and read.
ghost use Rattle.std.specs.Prelude.{◌≡◌, [], ◌+◌, ◌*◌, ◌≤◌, reverse, length};
ghost use Rattle.records.specs.ByteRecords.{StoreOpened, StorePopped, StoreTook, store_queue, store_room, store_stack};
ghost use Rattle.records.specs.Held.{RecordsHeld};
ghost use Rattle.records.specs.Places.{queue_fits, stack_fits};
ghost use Rattle.records.specs.Records.{RecordRead, place_at};

use super::record::{RECORD_BYTES, check_records, record_at};
use backends::fault::ReadFault;
use backends::traits::{BoundedReadWords, MOST_PLACES, Queue, ReadWords, Stack, WordSource};
use std::convert::AsSlice;
use words::PartialWord;

// What lends bytes; its default lends none.
pub trait Bytes: AsSlice<u8> + Default + Drop {
    ghost none: { (b : Self) → Self.is_default b → Self.items b ≡ [] };
}

impl Bytes for &[u8] {
    ghost none = { λ b empty. empty };
}

impl Bytes for &mut [u8] {
    ghost none = { λ b empty. empty };
}

// As a stack it holds the records before the record number, and as a queue those from it on. The number stands beside the bytes, since
// they are the caller's.
#[derive(Drop)]
pub struct ByteRecords<B> {
    pub(crate) bytes: B,
    pub(crate) pos: usize,
}

impl<B: Bytes> ByteRecords<B> {
    // At a record number; over no bytes where `check_records` refuses.
    pub fn new_at_pos(bytes: B, pos: usize) -> ByteRecords<B>
        ensures { StoreOpened B.items bytes pos result }
    {
        if check_records(bytes.as_slice().len(), pos).is_err() {
            return ByteRecords {
                bytes: B::default(),
                pos: 0,
            };
        }
        ByteRecords { bytes, pos }
    }

    // As many records as can be places.
    pub(crate) fn room(&self) -> usize
        ensures { result ≡ store_room B.items self.now }
    {
        MOST_PLACES.min(self.bytes.as_slice().len() / RECORD_BYTES)
    }

    // How many of them stand before the record number. (As a cursor's, which is of another type and has another clause.)
    pub(crate) fn held(&self) -> usize
        ensures { RecordsHeld (B.items self.now.bytes) self.now.pos result }
    {
        self.pos.min(self.room())
    }

    // The word of a record that there is, or the fault that it is. (Apart: where a call changes the store, only the length of bytes that are
    // handed on stays known.)
    fn word(&self, at: usize) -> Result<u32, ReadFault>
        requires { 5 * at + 5 ≤ length (B.items self.now.bytes) }
        ensures { RecordRead (place_at (B.items self.now.bytes) at) result }
    {
        record_at(self.bytes.as_slice(), at)
    }
}

impl<B: Bytes> ReadWords<u32, Stack> for ByteRecords<B> {
    ghost coming = { λ s. reverse (store_stack B.items s) };

    ghost reads = { StorePopped B.items };

    fn read(&mut self) -> Result<Option<u32>, ReadFault> {
        let at = self.held();
        if at == 0 {
            return Ok(None);
        }
        let word = self.word(at - 1)?;
        self.pos = at - 1;
        Ok(Some(word))
    }
}

impl<B: Bytes> ReadWords<u32, Queue> for ByteRecords<B> {
    ghost coming = { store_queue B.items };

    ghost reads = { StoreTook B.items };

    // (Before the room's end the record number counts as it is. Told by `pos`, a read need not work out `held` once more.)
    fn read(&mut self) -> Result<Option<u32>, ReadFault> {
        if self.held() >= self.room() {
            return Ok(None);
        }
        let word = self.word(self.pos)?;
        self.pos += 1;
        Ok(Some(word))
    }
}

impl<B: Bytes> BoundedReadWords<u32, Stack> for ByteRecords<B> {
    fn remaining(&self) -> usize {
        self.held()
    }
}

impl<B: Bytes> BoundedReadWords<u32, Queue> for ByteRecords<B> {
    fn remaining(&self) -> usize {
        self.room() - self.held()
    }
}

impl<B: Bytes> WordSource<u32, Stack> for ByteRecords<B> {
    ghost fits = { λ s. stack_fits (B.items s.bytes) s.pos };
}

impl<B: Bytes> WordSource<u32, Queue> for ByteRecords<B> {
    ghost fits = { λ s. queue_fits (B.items s.bytes) s.pos };
}
