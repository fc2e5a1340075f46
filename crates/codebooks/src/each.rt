// Several bits by single calls, for sinks and sources that have no quicker way.
ghost use Rattle.std.specs.Prelude.{◌≤◌, min};
ghost use Rattle.model.specs.Bits.{low_bits};
ghost use Rattle.backends.specs.Answers.{told_read, told_write};
ghost use Rattle.codebooks.specs.Chains.{Reached};
ghost use Rattle.codebooks.specs.Sent.{Sent};
ghost use Rattle.codebooks.specs.Streams.{ManyRead, OneRead, handed};
ghost use Rattle.codebooks.specs.Told.{told_bits};

use super::streams::{BitSink, BitSource, BitsRead};
use backends::fault::ReadFault;
use words::fault::BoundedWriteError;

// The lowest `count` bits of a number, at most 64, lowest first.
pub fn emit_each<K: BitSink>(sink: &mut K, number: u64, count: u32) -> Result<(), BoundedWriteError>
    ensures { Sent K.BitSink.held K.BitSink.emits (handed number count) sink.old (told_write result) sink.new }
{
    for i in 0..count.min(64) {
        sink.emit((number >> i) % 2 == 1)?;
    }
    Ok(())
}

// The next `count` bits, at most 64, as a number, the first bit the highest; fewer at the end.
pub fn read_each<R: BitSource>(source: &mut R, count: u32) -> Result<BitsRead, ReadFault>
    ensures means { ManyRead (min count 64) (R.BitSource.coming source.old) (told_bits result) (R.BitSource.coming source.new) }
    ensures does { Reached R.BitSource.reads source.old source.new }
{
    let most = count.min(64);
    let mut number: u64 = 0;
    for i in 0..most {
        let Some(bit) = source.next_bit()? else {
            return Ok(BitsRead { number, count: i });
        };
        number = 2 * number + u64::from(bit);
    }
    Ok(BitsRead {
        number,
        count: most,
    })
}

// Zero bits up to the first one bit, which is taken too: how many there were, staying at the largest number; none where the end comes first.
pub fn read_to_one<R: BitSource>(source: &mut R) -> Result<Option<u64>, ReadFault>
    ensures means { OneRead (R.BitSource.coming source.old) (told_read result) (R.BitSource.coming source.new) }
    ensures does { Reached R.BitSource.reads source.old source.new }
{
    let mut zeros: u64 = 0;
    while let Some(one) = source.next_bit()? {
        if one {
            return Ok(Some(zeros));
        }
        zeros = zeros.saturating_add(1);
    }
    Ok(None)
}
