// What a store of words is to the code above it. docs/STORES.md is the guide for authors of stores.
ghost use Rattle.std.specs.Prelude.{◌≡◌, ℕ, ◌-◌, ◌^◌, ◌≤◌, List, reverse, length, Option, Result};
ghost use Rattle.model.specs.Cells.{Place};
ghost use Rattle.model.specs.Refusals.{Answer};
ghost use Rattle.model.specs.Stores.{SourceRead, StackWritten, valued};
ghost use Rattle.backends.specs.Answers.{told_read, told_write};
ghost use Rattle.backends.specs.Sources.{AllFit, SoughtTo};
ghost use Rattle.backends.specs.declared.fault.SeekError.{SeekError as PositionError};

use super::fault::{ReadFault, SeekError};
use words::fault::BoundedWriteError;
use words::{PartialWord, Word};

// As many places as a store can have: 2^56.
pub const MOST_PLACES: usize = 0x100_0000_0000_0000;

// The order in which a store is read.
pub trait Semantics {}

// Newest word first.
#[derive(Clone, Copy)]
pub struct Stack;

// Oldest word first.
#[derive(Clone, Copy)]
pub struct Queue;

impl Semantics for Stack {}

impl Semantics for Queue {}

// An order, and the opposite one. (Apart from `Semantics`, since a trait cannot bound its own associated type by itself.)
pub trait Reversible: Semantics {
    type Reversed: Semantics;
}

impl Reversible for Stack {
    type Reversed = Queue;
}

impl Reversible for Queue {
    type Reversed = Stack;
}

// Reads words in one order.
pub trait ReadWords<W: Word, S: Semantics> {
    // the places to come, next first
    ghost coming: { Self → List Place };

    // what a read, by its answer, makes of the whole store, slots past the places included
    ghost reads: { Self → Answer (Option W) → Self → Type 0 };

    // The next word, which is taken; none at the end. A fault is told by its number, and stays.
    fn read(&mut self) -> Result<Option<W>, ReadFault>
        ensures means { SourceRead (coming self.old) (valued W.Word.value (told_read result)) (coming self.new) }
        ensures does { reads self.old (told_read result) self.new };
}

// A source of words.
pub trait WordSource<W: Word, S: Semantics>: ReadWords<W, S> {
    ghost fits: { (s : Self) → AllFit W.Partial.PartialWord.width (Self.ReadWords.coming s) };
}

// A source that knows how many places are left.
pub trait BoundedReadWords<W: Word, S: Semantics>: ReadWords<W, S> {
    fn remaining(&self) -> usize
        ensures { result ≡ length (Self.ReadWords.coming self.now) };
}

// Writes words.
pub trait WriteWords<W: Word> {
    // the places, oldest first
    ghost places: { Self → List Place };

    // how many there can be
    ghost capacity: { Self → ℕ };

    // what a write of a word, by its answer, makes of the whole store, slots past the places included
    ghost writes: { Self → W → Answer (Unit {0}) → Self → Type 0 };

    // Adds a word; refused without effect where there are as many places as there can be.
    fn write(&mut self, word: W) -> Result<(), BoundedWriteError>
        ensures means { StackWritten (capacity self.old) (places self.old) (W.Word.value word) (told_write result) (places self.new) }
        ensures same { capacity self.new ≡ capacity self.old }
        ensures does { writes self.old word (told_write result) self.new };
}

// A sink of words: the places never exceed the capacity, and that is at most 2^56.
pub trait WordSink<W: Word>: WriteWords<W> {
    ghost within: { (s : Self) → length (Self.WriteWords.places s) ≤ Self.WriteWords.capacity s };

    ghost bounded: { (s : Self) → Self.WriteWords.capacity s ≤ 2 ^ 56 };
}

// A sink that knows how much room is left.
pub trait BoundedWriteWords<W: Word>: WriteWords<W> {
    fn space_left(&self) -> usize
        ensures { result ≡ Self.WriteWords.capacity self.now - length (Self.WriteWords.places self.now) };
}

// A stack of words: what is read as a stack is what was written, and no read changes the capacity.
pub trait WordStack<W: Word>: WordSource<W, Stack> + WordSink<W> {
    ghost newest: { (s : Self) → Self.ReadWords.coming s ≡ reverse (Self.WriteWords.places s) };

    ghost kept: { (s t : Self) (r : Answer (Option W)) → Self.ReadWords.reads s r t → Self.WriteWords.capacity t ≡ Self.WriteWords.capacity s };
}

// A store with a position.
pub trait Pos {
    // the position, and the last one that there is
    ghost stands: { Self → ℕ };

    ghost ends: { Self → ℕ };

    fn pos(&self) -> usize
        ensures { result ≡ stands self.now };
}

// A store whose position can be moved.
pub trait Seek: Pos {
    // what a move to a position, by its answer, makes of the whole store
    ghost seeks: { Self → ℕ → Result (Unit {0}) PositionError → Self → Type 0 };

    // Moves to a position; refused without effect past the last one.
    fn seek(&mut self, pos: usize) -> Result<(), SeekError>
        ensures means { SoughtTo (Self.Pos.ends self.old) (Self.Pos.stands self.old) pos result (Self.Pos.stands self.new) }
        ensures does { seeks self.old pos result self.new };
}
