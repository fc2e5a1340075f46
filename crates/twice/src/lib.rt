// Words of 8 bits on a medium of which single bytes may go bad: each byte is kept twice, and where the two differ the place is a fault.
// docs/STORES.md walks through this crate; a store of your own can begin as a copy of it, so it shares no code with the record store.
#![tactic(auto)]

ghost use Rattle.std.specs.Prelude.{◌≡◌, ◌+◌, ◌*◌, ◌<◌, reverse, length, refl};
ghost use Rattle.twice.specs.Calls.{TwiceOpened, TwicePopped, TwiceWrote};
ghost use Rattle.twice.specs.Parts.{SlotRead, TwiceHeld};
ghost use Rattle.twice.specs.Places.{put_twice, twice_room, twice_stack};
ghost use Rattle.twice.specs.Laws.{places_within, room_bounded, room_kept};
ghost use Rattle.twice.specs.Slots.{all_fits};

use backends::fault::ReadFault;
use backends::traits::{
    BoundedReadWords, BoundedWriteWords, MOST_PLACES, ReadWords, Stack, WordSink, WordSource,
    WordStack, WriteWords,
};
use words::PartialWord;
use words::fault::BoundedWriteError;

// Slot i is the bytes 2i and 2i+1. As a stack it holds the slots before the position, and its capacity is the number of slots. The
// position stands beside the bytes, since they are the caller's.
#[derive(Drop)]
pub struct TwiceStore<'a> {
    bytes: &'a mut [u8],
    pos: usize,
}

impl<'a> TwiceStore<'a> {
    // At a position; over an empty slice where that is past the last slot, or there are over 2^56 slots. The last byte of an odd number
    // is never used.
    pub fn new_at_pos(bytes: &'a mut [u8], pos: usize) -> TwiceStore<'a>
        ensures { TwiceOpened bytes.entry.ghost_name bytes.old pos result }
    {
        let slots = bytes.len() / 2;
        if pos > slots || slots > MOST_PLACES {
            return TwiceStore {
                bytes: &mut [],
                pos: 0,
            };
        }
        TwiceStore { bytes, pos }
    }

    // The bytes that were lent, and the position.
    pub fn into_bytes_and_pos(self) -> (&'a mut [u8], usize)
        ensures lent { result.0.ghost_name ≡ self.entry.bytes.ghost_name }
        ensures content { result.0.now ≡ self.entry.bytes.now }
        ensures stands { result.1 ≡ self.entry.pos }
    {
        let TwiceStore { bytes, pos } = self;
        (bytes, pos)
    }

    // How many slots there are.
    fn room(&self) -> usize
        ensures { result ≡ twice_room self.now }
    {
        MOST_PLACES.min(self.bytes.len() / 2)
    }

    // How many of them are held: the position, as it counts.
    fn held(&self) -> usize
        ensures { TwiceHeld self.now.bytes.now self.now.pos result }
    {
        self.pos.min(self.room())
    }

    // The word of a slot, or the fault that it is.
    fn slot(&self, at: usize) -> Result<u8, ReadFault>
        requires { 2 * at + 1 < length self.now.bytes.now }
        ensures { SlotRead self.now.bytes.now at result }
    {
        let word = self.bytes[2 * at];
        if word != self.bytes[2 * at + 1] {
            return Err(ReadFault { place: at as u64 });
        }
        Ok(word)
    }
}

// Puts a word into a slot that the bytes have.
fn put(bytes: &mut [u8], at: usize, word: u8)
    requires { 2 * at + 1 < length bytes.old }
    ensures { bytes.new ≡ put_twice bytes.old at word }
{
    bytes[2 * at] = word;
    bytes[2 * at + 1] = word;
}

impl<'a> WriteWords<u8> for TwiceStore<'a> {
    ghost places = { twice_stack };

    ghost capacity = { twice_room };

    ghost writes = { TwiceWrote };

    fn write(&mut self, word: u8) -> Result<(), BoundedWriteError> {
        let at = self.held();
        if at == self.room() {
            return Err(BoundedWriteError::OutOfSpace);
        }
        put(self.bytes, at, word);
        self.pos = at + 1;
        Ok(())
    }
}

impl<'a> ReadWords<u8, Stack> for TwiceStore<'a> {
    ghost coming = { λ s. reverse (twice_stack s) };

    ghost reads = { TwicePopped };

    fn read(&mut self) -> Result<Option<u8>, ReadFault> {
        let at = self.held();
        if at == 0 {
            return Ok(None);
        }
        let word = self.slot(at - 1)?;
        self.pos = at - 1;
        Ok(Some(word))
    }
}

impl<'a> BoundedReadWords<u8, Stack> for TwiceStore<'a> {
    fn remaining(&self) -> usize {
        self.held()
    }
}

impl<'a> BoundedWriteWords<u8> for TwiceStore<'a> {
    fn space_left(&self) -> usize {
        self.room() - self.held()
    }
}

impl<'a> WordSource<u8, Stack> for TwiceStore<'a> {
    ghost fits = { λ s. all_fits s.bytes.now s.pos };
}

impl<'a> WordSink<u8> for TwiceStore<'a> {
    ghost within = { places_within };

    ghost bounded = { room_bounded };
}

impl<'a> WordStack<u8> for TwiceStore<'a> {
    ghost newest = { λ s. refl };

    ghost kept = { room_kept };
}

#[cfg(test)]
mod tests {
    use super::TwiceStore;
    use backends::fault::ReadFault;
    use backends::generic::replace_newest;
    use backends::traits::{BoundedReadWords, BoundedWriteWords, ReadWords, WriteWords};
    use words::fault::BoundedWriteError;

    // A word, a fault, and room for one word more.
    #[test]
    fn a_word_and_a_fault(rt: HostRuntime) {
        let mut bytes = [0x0D, 0x0D, 0x41, 0x40, 0, 0];
        let mut store = TwiceStore::new_at_pos(&mut bytes, 2);
        assert_eq!(rt; store.remaining(), 2);
        assert_eq!(rt; store.read(), Err(ReadFault { place: 1 }));
        assert_eq!(rt; store.write(7), Ok(()));
        assert_eq!(rt; store.space_left(), 0);
        assert_eq!(rt; store.write(8), Err(BoundedWriteError::OutOfSpace));
        assert_eq!(rt; store.read(), Ok(Some(7)));
        let (bytes, pos) = store.into_bytes_and_pos();
        assert_eq!(rt; pos, 2);
        let bytes: &[u8] = bytes;
        assert_eq!(rt; bytes, [0x0D, 0x0D, 0x41, 0x40, 7, 7].as_slice());
    }

    // Over an odd number of bytes: the only slot, with a call that takes any word stack, and a position past it.
    #[test]
    fn the_ends(rt: HostRuntime) {
        let mut bytes = [0x0D, 0x0D, 0x41];
        let mut first = TwiceStore::new_at_pos(&mut bytes, 1);
        assert_eq!(rt; first.space_left(), 0);
        assert_eq!(rt; replace_newest(&mut first, 9), Ok(Some(0x0D)));
        assert_eq!(rt; first.read(), Ok(Some(9)));
        assert_eq!(rt; first.read(), Ok(None));
        let past = TwiceStore::new_at_pos(&mut bytes, 2);
        assert_eq!(rt; past.remaining(), 0);
        assert_eq!(rt; past.space_left(), 0);
    }
}
