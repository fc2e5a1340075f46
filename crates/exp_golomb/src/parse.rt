// The number of the codeword that a bit source gives.
ghost use Rattle.std.specs.Prelude.{◌≡◌, ◌+◌, ◌^◌, ◌<◌, ◌≤◌, List};
ghost use Rattle.model.specs.Cells.{Cell};
ghost use Rattle.backends.specs.Answers.{told_read};
ghost use Rattle.codebooks.specs.Answers.{told_decode};
ghost use Rattle.codebooks.specs.Chains.{Reached};
ghost use Rattle.codebooks.specs.Told.{told_bits};
ghost use Rattle.exp_golomb.specs.Parsed.{FirstOne, MoreBits, NumberOf, Parsed, ParsedAs, Short, ZerosThenOne};

use backends::fault::ReadFault;
use codebooks::fault::{DecodeError, SymbolCodeError};
use codebooks::streams::{BitSource, BitsRead, BitsSource};

// Parses the codeword of a number of `width` bits: the zeros up to the first one bit, then as many bits again.
pub(crate) fn parse_number<R: BitsSource>(source: &mut R, width: u32) -> Result<u64, DecodeError>
    requires { width ≤ 64 }
    ensures { Parsed R.BitSource.coming R.BitSource.reads width source.old (told_decode result) source.new }
{
    let zeros = first_one(source)?.ok_or(SymbolCodeError::InvalidCodeword)?;
    if zeros > u64::from(width) {
        return Err(SymbolCodeError::InvalidCodeword.into());
    }
    let zeros = zeros as u32;
    let read = more_bits(source, zeros)?;
    if read.count < zeros {
        return Err(SymbolCodeError::InvalidCodeword.into());
    }
    let number = number_of(zeros, read.number, width).ok_or(SymbolCodeError::InvalidCodeword)?;
    Ok(number)
}

// Zero bits and the first one bit. (Apart, as `more_bits` is: the clause says it in the words of the parser.)
fn first_one<R: BitsSource>(source: &mut R) -> Result<Option<u64>, ReadFault>
    ensures means { FirstOne (R.BitSource.coming source.old) (told_read result) (R.BitSource.coming source.new) }
    ensures does { Reached R.BitSource.reads source.old source.new }
{
    source.next_one()
}

// The bits after it.
fn more_bits<R: BitsSource>(source: &mut R, zeros: u32) -> Result<BitsRead, ReadFault>
    requires { zeros ≤ 64 }
    ensures means { MoreBits zeros (R.BitSource.coming source.old) (told_bits result) (R.BitSource.coming source.new) }
    ensures low { Short zeros (told_bits result) }
    ensures does { (s : R) → Reached R.BitSource.reads s source.old → Reached R.BitSource.reads s source.new }
{
    source.next_bits(zeros)
}

// The number of a codeword, by its zeros and the bits after its one bit; none where it has more than `width` bits.
fn number_of(zeros: u32, low: u64, width: u32) -> Option<u64>
    requires zeros_le_width { zeros ≤ width }
    requires width_bound { width ≤ 64 }
    requires low_bound { low < 2 ^ zeros }
    ensures { NumberOf width zeros low result }
{
    if zeros < width {
        Some(low_ones(zeros) + low)
    } else if low == 0 {
        Some(low_ones(zeros))
    } else {
        None
    }
}

// The number whose lowest `count` bits are ones.
fn low_ones(count: u32) -> u64
    requires { count ≤ 64 }
    ensures { result + 1 ≡ 2 ^ count }
{
    if count < 64 {
        (1 << count) - 1
    } else {
        u64::MAX
    }
}
