// The calls of the small store. (In a file of their own: a struct with a ghost field imports all that its file's `ghost use` lines name,
// and what these name cites the struct.)
ghost use Rattle.std.specs.Prelude.{◌≡◌, [], reverse};
ghost use Rattle.std.proofs.Common.{rules};
ghost use Rattle.std.proofs.lemmas.Grind.{common_steps};
ghost use Rattle.backends.specs.Small.{SmallHolds, SmallPopped, SmallWrote, small_places, small_room};
ghost use Rattle.backends.specs.SmallLaws.{small_fits};

use super::SmallStore;
use crate::fault::ReadFault;
use crate::traits::{
    BoundedReadWords, BoundedWriteWords, ReadWords, Stack, WordSink, WordSource, WordStack,
    WriteWords,
};
use arrayvec::ArrayVec;
use words::PartialWord;
use words::fault::BoundedWriteError;

impl SmallStore {
    // Empty.
    pub fn new() -> SmallStore
        ensures empty { small_places result ≡ [] }
        ensures room { small_room result ≡ 8 }
        ensures whole { SmallHolds result [] }
    {
        SmallStore {
            words: ArrayVec::new(),
        }
    }
}

impl Default for SmallStore {
    ghost is_default = { λ s. SmallHolds s [] };

    fn default() -> SmallStore {
        SmallStore::new()
    }
}

impl WriteWords<u64> for SmallStore {
    ghost places = { small_places };

    ghost capacity = { small_room };

    ghost writes = { SmallWrote };

    fn write(&mut self, word: u64) -> Result<(), BoundedWriteError> {
        self.words
            .try_push(word)
            .map_err(|_| BoundedWriteError::OutOfSpace)
    }
}

impl ReadWords<u64, Stack> for SmallStore {
    ghost coming = { λ s. reverse (small_places s) };

    ghost reads = { SmallPopped };

    fn read(&mut self) -> Result<Option<u64>, ReadFault> {
        Ok(self.words.pop())
    }
}

impl BoundedReadWords<u64, Stack> for SmallStore {
    fn remaining(&self) -> usize {
        self.words.len()
    }
}

impl BoundedWriteWords<u64> for SmallStore {
    fn space_left(&self) -> usize {
        self.words.remaining_capacity()
    }
}

impl WordSource<u64, Stack> for SmallStore {
    ghost fits = { small_fits };
}

impl WordSink<u64> for SmallStore {
    ghost within = { Prim.search (rules, common_steps) };

    ghost bounded = { Prim.search rules };
}

impl WordStack<u64> for SmallStore {
    ghost newest = { Prim.search rules };

    ghost kept = { Prim.search rules };
}
