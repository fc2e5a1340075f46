// Calls over any store. (Each that writes or takes says that the capacity stays: that is of a store before and after, and no invariant of
// one value.)
ghost use Rattle.std.specs.Prelude.{◌≡◌, map, length, ◌==◌};
ghost use Rattle.model.specs.Stores.{valued};
ghost use Rattle.backends.specs.Answers.{told_read, told_write};
ghost use Rattle.backends.specs.Chains.{Extended, Replaced, Taken, WroteAll};
ghost use Rattle.backends.specs.Slices.{word_at};

use super::fault::ReadFault;
use super::traits::{
    BoundedReadWords, BoundedWriteWords, ReadWords, Semantics, WordSink, WordStack, WriteWords,
};
use words::Word;
use words::fault::BoundedWriteError;

// Whether no place is left to read.
pub fn is_exhausted<W: Word, S: Semantics, B: BoundedReadWords<W, S>>(store: &B) -> bool
    ensures { result ≡ (length (B.ReadWords.coming store.now) == 0) }
{
    store.remaining() == 0
}

// Whether there is no room for a word.
pub fn is_full<W: Word, B: BoundedWriteWords<W> + WordSink<W>>(store: &B) -> bool
    ensures { result ≡ (length (B.WriteWords.places store.now) == B.WriteWords.capacity store.now) }
{
    store.space_left() == 0
}

// Writes words one after the other, up to the first that is refused; those before it stay.
pub fn extend_from_iter<W: Word, B: WordSink<W>>(
    store: &mut B,
    words: &[W],
) -> Result<(), BoundedWriteError>
    ensures calls { WroteAll B.WriteWords.writes store.old words.now (told_write result) store.new }
    ensures places { Extended (B.WriteWords.capacity store.old) (B.WriteWords.places store.old) (map (word_at W.Word.value) words.now) (told_write result) (B.WriteWords.places store.new) }
    ensures same { B.WriteWords.capacity store.new ≡ B.WriteWords.capacity store.old }
{
    write_all(store, words)
}

// The loop of it. (Apart: `calls` and `places` need answers, and an edit of the public call is to be refused at its clause.)
fn write_all<W: Word, B: WordSink<W>>(store: &mut B, words: &[W]) -> Result<(), BoundedWriteError>
    ensures calls { WroteAll B.WriteWords.writes store.old words.now (told_write result) store.new }
    ensures places { Extended (B.WriteWords.capacity store.old) (B.WriteWords.places store.old) (map (word_at W.Word.value) words.now) (told_write result) (B.WriteWords.places store.new) }
    ensures same { B.WriteWords.capacity store.new ≡ B.WriteWords.capacity store.old }
{
    for word in words {
        store.write(*word)?;
    }
    Ok(())
}

// Puts a word in the place of the newest, which is answered; the room that the old one leaves is enough.
pub fn replace_newest<W: Word, B: WordStack<W>>(
    store: &mut B,
    word: W,
) -> Result<Option<W>, ReadFault>
    ensures places { Replaced (B.WriteWords.places store.old) (W.Word.value word) (valued W.Word.value (told_read result)) (B.WriteWords.places store.new) }
    ensures same { B.WriteWords.capacity store.new ≡ B.WriteWords.capacity store.old }
{
    let Some(old) = take_newest(store)? else {
        return Ok(None);
    };
    let _ = store.write(word);
    Ok(Some(old))
}

// The newest word, by the places; where there is one, it leaves room. (Apart, as `write_all` is.)
fn take_newest<W: Word, B: WordStack<W>>(store: &mut B) -> Result<Option<W>, ReadFault>
    ensures places { Taken (B.WriteWords.capacity store.old) (B.WriteWords.places store.old) (valued W.Word.value (told_read result)) (B.WriteWords.places store.new) }
    ensures same { B.WriteWords.capacity store.new ≡ B.WriteWords.capacity store.old }
{
    store.read()
}
