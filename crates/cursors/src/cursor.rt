// A lent slice of words with a position, as a stack, as a source and as a sink.
ghost use Rattle.std.specs.Prelude.{◌≡◌, reverse, refl};
ghost use Rattle.std.proofs.Common.{rules};
ghost use Rattle.std.proofs.lemmas.Grind.{common_steps};
ghost use Rattle.cursors.specs.Cursors.{Checked, CursorPopped, CursorTook, CursorWrote, OpenedAt, at, queued, room_of, stacked};
ghost use Rattle.cursors.specs.Laws.{queue_fits, stack_fits};

mod calls;

use backends::fault::{ReadFault, SeekError};
use backends::traits::{
    BoundedReadWords, BoundedWriteWords, MOST_PLACES, Queue, ReadWords, Stack, WordSink,
    WordSource, WordStack, WriteWords,
};
use words::Word;
use words::fault::BoundedWriteError;

// As a stack it holds the words before the position, and its capacity is the slice's length; as a source it holds the words from the
// position on. The position stands beside the slice, since the slots are the caller's. (No ghost field bounds it: as of every store, what
// is said of a cursor holds of each value that the type has, with the position cut at the slice's end.)
#[derive(Drop)]
pub struct Cursor<'a, W> {
    pub(crate) buf: &'a mut [W],
    pub(crate) pos: usize,
}

// Whether a cursor can stand at a position of a slice of so many words.
pub fn check_pos(len: usize, pos: usize) -> Result<(), SeekError>
    ensures { Checked len pos result }
{
    if pos > len || len > MOST_PLACES {
        return Err(SeekError::PastEnd);
    }
    Ok(())
}

impl<'a, W: Word> Cursor<'a, W> {
    // At a position; over an empty slice where `check_pos` refuses.
    pub fn new_at_pos(buf: &'a mut [W], pos: usize) -> Cursor<'a, W>
        ensures { OpenedAt buf.entry.ghost_name buf.old pos result }
    {
        if check_pos(buf.len(), pos).is_err() {
            return Cursor {
                buf: &mut buf[0..0],
                pos: 0,
            };
        }
        Cursor { buf, pos }
    }

    // The position, as it counts.
    pub(crate) fn place(&self) -> usize
        ensures { result ≡ at self.now }
    {
        self.pos.min(self.room())
    }

    // How many slots can be places.
    fn room(&self) -> usize
        ensures { result ≡ room_of self.now }
    {
        MOST_PLACES.min(self.buf.len())
    }
}

impl<'a, W: Word> WriteWords<W> for Cursor<'a, W> {
    ghost places = { stacked W.Word.value };

    ghost capacity = { room_of };

    ghost writes = { CursorWrote };

    // Puts the word into the slot at the position and moves on.
    fn write(&mut self, word: W) -> Result<(), BoundedWriteError> {
        let at = self.place();
        if at >= self.room() {
            return Err(BoundedWriteError::OutOfSpace);
        }
        self.buf[at] = word;
        self.pos = at + 1;
        Ok(())
    }
}

impl<'a, W: Word> ReadWords<W, Stack> for Cursor<'a, W> {
    ghost coming = { λ c. reverse (stacked W.Word.value c) };

    ghost reads = { CursorPopped };

    // The word before the position, to which it moves.
    fn read(&mut self) -> Result<Option<W>, ReadFault> {
        let Some(last) = self.place().checked_sub(1) else {
            return Ok(None);
        };
        self.pos = last;
        Ok(Some(self.buf[last]))
    }
}

impl<'a, W: Word> ReadWords<W, Queue> for Cursor<'a, W> {
    ghost coming = { queued W.Word.value };

    ghost reads = { CursorTook };

    // The word at the position, past which it moves.
    fn read(&mut self) -> Result<Option<W>, ReadFault> {
        let at = self.place();
        if at >= self.room() {
            return Ok(None);
        }
        self.pos = at + 1;
        Ok(Some(self.buf[at]))
    }
}

impl<'a, W: Word> BoundedReadWords<W, Stack> for Cursor<'a, W> {
    fn remaining(&self) -> usize {
        self.place()
    }
}

impl<'a, W: Word> BoundedReadWords<W, Queue> for Cursor<'a, W> {
    fn remaining(&self) -> usize {
        self.room() - self.place()
    }
}

impl<'a, W: Word> BoundedWriteWords<W> for Cursor<'a, W> {
    fn space_left(&self) -> usize {
        self.room() - self.place()
    }
}

impl<'a, W: Word> WordSource<W, Stack> for Cursor<'a, W> {
    ghost fits = { stack_fits W.Partial.PartialWord.width W.Word.value W.Word.small };
}

impl<'a, W: Word> WordSource<W, Queue> for Cursor<'a, W> {
    ghost fits = { queue_fits W.Partial.PartialWord.width W.Word.value W.Word.small };
}

impl<'a, W: Word> WordSink<W> for Cursor<'a, W> {
    ghost within = { Prim.search (rules, common_steps) };

    ghost bounded = { Prim.search rules };
}

impl<'a, W: Word> WordStack<W> for Cursor<'a, W> {
    ghost newest = { λ c. refl };

    ghost kept = { Prim.search rules };
}
