// Byte records that are read and written, over lent bytes.
ghost use Rattle.std.specs.Prelude.{◌≡◌, refl};
ghost use Rattle.records.specs.ByteRecords.{StoreWrote, store_room, store_stack};
ghost use Rattle.records.specs.Laws.{store_bounded, store_kept, store_within};

use super::byte_records::ByteRecords;
use super::record::put_record;
use backends::traits::{BoundedWriteWords, WordSink, WordStack, WriteWords};
use words::fault::BoundedWriteError;

// Its capacity is the number of records.
pub type RecordStore<'a> = ByteRecords<&'a mut [u8]>;

impl<'a> RecordStore<'a> {
    // The bytes that were lent, and the record number. (Each store that gives its slice back says so: they share no type.)
    pub fn into_bytes_and_pos(self) -> (&'a mut [u8], usize)
        ensures lent { result.0.ghost_name ≡ self.entry.bytes.ghost_name }
        ensures content { result.0.now ≡ self.entry.bytes.now }
        ensures stands { result.1 ≡ self.entry.pos }
    {
        let ByteRecords { bytes, pos } = self;
        (bytes, pos)
    }
}

impl<'a> WriteWords<u32> for RecordStore<'a> {
    ghost places = { store_stack (λ b. b.now) };

    ghost capacity = { store_room (λ b. b.now) };

    ghost writes = { StoreWrote };

    fn write(&mut self, word: u32) -> Result<(), BoundedWriteError> {
        let at = self.held();
        if at >= self.room() {
            return Err(BoundedWriteError::OutOfSpace);
        }
        put_record(self.bytes, at, word);
        self.pos = at + 1;
        Ok(())
    }
}

impl<'a> BoundedWriteWords<u32> for RecordStore<'a> {
    fn space_left(&self) -> usize {
        self.room() - self.held()
    }
}

impl<'a> WordSink<u32> for RecordStore<'a> {
    ghost within = { store_within (λ b. b.now) };

    ghost bounded = { store_bounded (λ b. b.now) };
}

impl<'a> WordStack<u32> for RecordStore<'a> {
    ghost newest = { λ s. refl };

    ghost kept = { store_kept (λ b. b.now) };
}
