// Words of 8, 32 and 64 bits, and partial words, which hold up to a word's number of bits.
#![tactic(auto)]

ghost use Rattle.std.specs.Prelude.{◌≡◌, ℕ, ◌-◌, ◌/◌, ◌%◌, ◌^◌, ◌<◌, ◌≤◌, Bool, List, [], ◌++◌, length, ◌==◌};
ghost use Rattle.model.specs.Bits.{low_bits, zeros};
ghost use Rattle.words.specs.Partials.{IsWord, Masked, NumberWord, PartRead, PartWritten, SealedWord, UnsealedWord, Whole};

pub mod fault;
mod part;
mod unsigned;

use fault::BoundedWriteError;
pub use part::{Partial, Partial8, Partial32, Partial64};

// Up to a word's number of bits, the newest highest.
pub trait PartialWord: Copy {
    // how many bits it can hold
    ghost width: { ℕ };

    // the bits held, oldest first
    ghost held: { Self → List Bool };

    // the word that has them, and the place of the newest, or 0 where there is none
    ghost bits: { Self → ℕ };

    ghost place: { Self → ℕ };

    // With no bits.
    fn new() -> Self
        ensures { held result ≡ [] };

    // How many bits are held.
    fn len(&self) -> u32
        ensures { result ≡ length (held self.now) };

    fn is_empty(&self) -> bool
        ensures { result ≡ (length (held self.now) == 0) };

    fn is_full(&self) -> bool
        ensures { result ≡ (length (held self.now) == width) };

    // Adds a bit; refused without effect where there is no room for it.
    fn write_bit(&mut self, bit: bool) -> Result<(), BoundedWriteError>
        ensures { PartWritten width (held self.old) bit result (held self.new) };

    // Takes the newest bit, if there is one.
    fn read_bit(&mut self) -> Option<bool>
        ensures { PartRead (held self.old) result (held self.new) };

    ghost some: { 0 < width };

    ghost most: { width ≤ 64 };

    ghost few: { (p : Self) → length (held p) ≤ width };

    ghost masked: { (p : Self) → Masked width (place p) (bits p) (held p) };
}

// A word of a fixed number of bits: of a store, or the number of a symbol.
pub trait Word: Copy {
    type Partial: PartialWord;

    // the number that it is
    ghost number: { Self → ℕ };

    // the word of a number
    ghost word: { ℕ → Self };

    // the number that its bits are; every word that a program has is below 2 ^ width, so the two are one
    ghost value: { Self → ℕ };

    // The number of bits.
    fn width() -> u32
        ensures { result ≡ Self.Partial.PartialWord.width };

    // The number that it is. (A call of its own: bounds by `Into` and `TryFrom` would need two laws more to name `number` and `value`.)
    fn to_u64(self) -> u64
        ensures number { result ≡ number self }
        ensures value { result ≡ value self };

    // The word of a number, if the number has so few bits.
    fn from_u64(n: u64) -> Option<Self>
        ensures { NumberWord Self.Partial.PartialWord.width number n result };

    // The partial word that holds all bits of this word.
    fn opened(self) -> Self::Partial
        ensures { Self.Partial.PartialWord.held result ≡ low_bits Self.Partial.PartialWord.width (value self) };

    // The word of the bits held, if they fill it.
    fn closed(part: Self::Partial) -> Option<Self>
        ensures { Whole Self.Partial.PartialWord.width number value (Self.Partial.PartialWord.held part) result };

    // The bits held, and zeros to the edge.
    fn padded(part: Self::Partial) -> Self
        ensures { IsWord Self.Partial.PartialWord.width number value (Self.Partial.PartialWord.held part ++ zeros (Self.Partial.PartialWord.width - length (Self.Partial.PartialWord.held part))) result };

    // The bits held, a one bit, and zeros to the edge; none where there is no room for the one bit.
    fn sealed(part: Self::Partial) -> Option<Self>
        ensures { SealedWord Self.Partial.PartialWord.width number value (Self.Partial.PartialWord.held part) result };

    // The bits below the highest one bit, or none where all are zero.
    fn unsealed(self) -> Option<Self::Partial>
        ensures { UnsealedWord Self.Partial.PartialWord.width Self.Partial.PartialWord.held (value self) result };

    // The lowest bit, and the word of the bits above it.
    fn halved(self) -> (bool, Self)
        ensures lowest { result.0 ≡ (value self % 2 == 1) }
        ensures above { value result.1 ≡ value self / 2 }
        ensures exact { number result.1 ≡ value result.1 };

    ghost small: { (x : Self) → value x < 2 ^ Self.Partial.PartialWord.width };

    ghost exact: { (x : Self) → number x < 2 ^ Self.Partial.PartialWord.width → value x ≡ number x };

    ghost back: { (x : Self) → word (number x) ≡ x };

    ghost there: { (n : ℕ) → number (word n) ≡ n };
}
