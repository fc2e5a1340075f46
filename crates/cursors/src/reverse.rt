// A store read under the other reading name, and the cursor that is filled from the slice's end down.
ghost use Rattle.std.specs.Prelude.{◌^◌, ◌≤◌, length};
ghost use Rattle.std.proofs.Common.{rules};
ghost use Rattle.std.proofs.lemmas.Grind.{common_steps};
ghost use Rattle.backends.specs.Answers.{told_write};
ghost use Rattle.backends.specs.Slices.{Placed};
ghost use Rattle.cursors.specs.Reversed.{PutBelow, SameStore, Turned, TurnedWrote, TurnsBack, turned_room, turned_stack};

use super::cursor::Cursor;
use backends::fault::{ReadFault, SeekError};
use backends::traits::{
    BoundedReadWords, BoundedWriteWords, Pos, Queue, ReadWords, Seek, Stack, WordSink, WordSource,
    WordStack, WriteWords,
};
use words::Word;
use words::fault::BoundedWriteError;

// Read as a queue it gives what the wrapped store gives as a stack, and the other way round.
#[derive(Drop)]
pub struct Reverse<B>(pub B);

// A block for each order, and not one over both (`Reversible`): so a call over a store with one of the two reading names need not say which, since
// just one block serves it.
impl<W: Word, B: ReadWords<W, Stack>> ReadWords<W, Queue> for Reverse<B> {
    ghost coming = { λ s. B.ReadWords.coming s.0 };

    ghost reads = { λ s r t. B.ReadWords.reads s.0 r t.0 };

    fn read(&mut self) -> Result<Option<W>, ReadFault> {
        <B as ReadWords<W, Stack>>::read(&mut self.0)
    }
}

impl<W: Word, B: ReadWords<W, Queue>> ReadWords<W, Stack> for Reverse<B> {
    ghost coming = { λ s. B.ReadWords.coming s.0 };

    ghost reads = { λ s r t. B.ReadWords.reads s.0 r t.0 };

    fn read(&mut self) -> Result<Option<W>, ReadFault> {
        <B as ReadWords<W, Queue>>::read(&mut self.0)
    }
}

impl<W: Word, B> BoundedReadWords<W, Queue> for Reverse<B>
where
    B: BoundedReadWords<W, Stack>,
{
    fn remaining(&self) -> usize {
        <B as BoundedReadWords<W, Stack>>::remaining(&self.0)
    }
}

impl<W: Word, B> BoundedReadWords<W, Stack> for Reverse<B>
where
    B: BoundedReadWords<W, Queue>,
{
    fn remaining(&self) -> usize {
        <B as BoundedReadWords<W, Queue>>::remaining(&self.0)
    }
}

impl<W: Word, B> WordSource<W, Queue> for Reverse<B>
where
    B: WordSource<W, Stack>,
{
    ghost fits = { λ s. B.WordSource.fits s.0 };
}

impl<W: Word, B> WordSource<W, Stack> for Reverse<B>
where
    B: WordSource<W, Queue>,
{
    ghost fits = { λ s. B.WordSource.fits s.0 };
}

// A reversed cursor holds, as a stack, the words from the last slot down to the position; its capacity is the slice's length.
impl<'a, W: Word> WriteWords<W> for Reverse<Cursor<'a, W>> {
    ghost places = { turned_stack W.Word.value };

    ghost capacity = { turned_room };

    ghost writes = { TurnedWrote };

    fn write(&mut self, word: W) -> Result<(), BoundedWriteError> {
        self.0.put_below(word)
    }
}

impl<'a, W: Word> BoundedWriteWords<W> for Reverse<Cursor<'a, W>> {
    fn space_left(&self) -> usize {
        self.0.place()
    }
}

impl<'a, W: Word> WordSink<W> for Reverse<Cursor<'a, W>> {
    ghost within = { Prim.search (rules, common_steps) };

    ghost bounded = { Prim.search rules };
}

impl<'a, W: Word> WordStack<W> for Reverse<Cursor<'a, W>> {
    ghost newest = { Prim.search (rules, common_steps) };

    ghost kept = { Prim.search rules };
}

// The position is the wrapped store's.
impl<B: Pos> Pos for Reverse<B> {
    ghost stands = { λ s. B.Pos.stands s.0 };

    ghost ends = { λ s. B.Pos.ends s.0 };

    fn pos(&self) -> usize {
        self.0.pos()
    }
}

impl<B: Seek> Seek for Reverse<B> {
    ghost seeks = { λ s p r t. B.Seek.seeks s.0 p r t.0 };

    fn seek(&mut self, pos: usize) -> Result<(), SeekError> {
        self.0.seek(pos)
    }
}

impl<'a, W: Word> Cursor<'a, W> {
    // The same store, in the slice turned end for end.
    #[tactic(auto, using(crate::proofs::Turns::turning))]
    pub fn into_reversed(self) -> Reverse<Cursor<'a, W>>
        ensures turned { Turned self.entry result.0 }
        ensures same { length self.entry.buf.now ≤ 2 ^ 56 → SameStore W.Word.value self.entry result }
        ensures back { Placed (length self.entry.buf.now) self.entry.pos → TurnsBack self.entry result.0 }
    {
        Reverse(self.turned())
    }

    // The slice turned end for end, and the position counted from the other end.
    fn turned(self) -> Cursor<'a, W>
        ensures { Turned self.entry result }
    {
        let pos = self.buf.len() - self.place();
        let buf = self.buf;
        buf.reverse();
        Cursor { buf, pos }
    }

    // Puts a word into the slot below the position and moves there; refused without effect at the beginning. (Apart: `means`
    // of `write` needs an answer, and an edit of this body is to be refused at its own clause.)
    fn put_below(&mut self, word: W) -> Result<(), BoundedWriteError>
        ensures { PutBelow self.old word (told_write result) self.new }
    {
        let below = self
            .place()
            .checked_sub(1)
            .ok_or(BoundedWriteError::OutOfSpace)?;
        self.buf[below] = word;
        self.pos = below;
        Ok(())
    }
}

impl<'a, W: Word> Reverse<Cursor<'a, W>> {
    // The same store, in the slice turned end for end.
    #[tactic(auto, using(crate::proofs::Turns::turning))]
    pub fn into_reversed(self) -> Cursor<'a, W>
        ensures turned { Turned self.entry.0 result }
        ensures same { length self.entry.0.buf.now ≤ 2 ^ 56 → SameStore W.Word.value result self.entry }
        ensures back { Placed (length self.entry.0.buf.now) self.entry.0.pos → TurnsBack self.entry.0 result }
    {
        let Reverse(cursor) = self;
        cursor.turned()
    }
}
