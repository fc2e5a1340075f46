// The partial word of an unsigned integer type.
ghost use Rattle.std.specs.Prelude.{◌≡◌, ◌-◌, ◌%◌, ◌^◌, ◌<◌, ◌≤◌, ⊤, [], ◌++◌, length};
ghost use Rattle.model.specs.Bits.{low_bits, zeros};
ghost use Rattle.words.specs.Partials.{Below, IsWord, PartPopped, PartPushed, Single, UnsealedWord, held_at};
ghost use Rattle.words.specs.Parts.{held_few};
ghost use Rattle.std.proofs.Common.{rules};

use crate::fault::BoundedWriteError;
use crate::unsigned::Unsigned;
use crate::{PartialWord, Word};
use std::alloc::AllocError;

// Up to a word's number of bits, the newest highest: `mask` is the place of the newest, or 0 where there is none.
// The mask with its 0, in place of an Option, is constriction's form, which docs/CODERS.md promises.
#[derive(Copy)]
pub struct Partial<U: Unsigned> {
    pub word: U,
    pub mask: U,
    ghost single: { Single U.WIDTH (U.number mask) },
    ghost below: { Below U.WIDTH (U.number mask) (U.number word) },
}

pub type Partial8 = Partial<u8>;

pub type Partial32 = Partial<u32>;

pub type Partial64 = Partial<u64>;

// Written out: `Clone` cannot be derived beside a ghost field of a generic type.
impl<U: Unsigned> Clone for Partial<U> {
    ghost is_clone = { λ x y. y ≡ x };

    ghost is_infallible = { λ _. ⊤ };

    fn clone(&self) -> Result<Partial<U>, AllocError> {
        Ok(*self)
    }
}

impl<U: Unsigned> PartialWord for Partial<U> {
    ghost width = { U.WIDTH };

    ghost held = { λ p. held_at U.WIDTH (U.number p.mask) (U.number p.word) };

    ghost bits = { λ p. U.number p.word };

    ghost place = { λ p. U.number p.mask };

    ghost some = { U.laws.some };

    ghost most = { U.laws.most };

    ghost few = { λ p. held_few U.WIDTH (U.number p.mask) (U.number p.word) };

    ghost masked = { Prim.search rules };

    fn new() -> Partial<U> {
        Partial::empty()
    }

    fn len(&self) -> u32 {
        self.size()
    }

    fn is_empty(&self) -> bool {
        self.size() == 0
    }

    fn is_full(&self) -> bool {
        self.size() == U::WIDTH
    }

    fn write_bit(&mut self, bit: bool) -> Result<(), BoundedWriteError> {
        *self = self.pushed(bit).ok_or(BoundedWriteError::OutOfSpace)?;
        Ok(())
    }

    fn read_bit(&mut self) -> Option<bool> {
        let (bit, rest) = self.popped()?;
        *self = rest;
        Some(bit)
    }
}

// Apart from the calls of the traits: these clauses need answers, and an edit of a call is to be refused at its own clause.
impl<U: Unsigned> Partial<U> {
    // The one of these numbers, with the newest bit at the mask.
    fn at(mask: u64, word: u64) -> Partial<U>
        requires single { Single U.WIDTH mask }
        requires below { Below U.WIDTH mask word }
        ensures { ⟦<Self as PartialWord>⟧.held result ≡ held_at U.WIDTH mask word }
    {
        Partial {
            word: U::exact(word),
            mask: U::exact(mask),
        }
    }

    // No bits.
    fn empty() -> Partial<U>
        ensures { ⟦<Self as PartialWord>⟧.held result ≡ [] }
    {
        Partial::at(0, 0)
    }

    // All bits of a word.
    pub(crate) fn whole(word: U) -> Partial<U>
        ensures { ⟦<Self as PartialWord>⟧.held result ≡ low_bits U.WIDTH (⟦<U as Word>⟧.value word) }
    {
        Partial::at(1 << (U::WIDTH - 1), word.wide())
    }

    // How many bits are held.
    pub(crate) fn size(self) -> u32
        ensures len { result ≡ length (⟦<Self as PartialWord>⟧.held self) }
        ensures few { result ≤ U.WIDTH }
    {
        u64::BITS - self.mask.wide().leading_zeros()
    }

    // With a bit more, the newest; none where there is no room for it.
    pub(crate) fn pushed(self, bit: bool) -> Option<Partial<U>>
        ensures { PartPushed U.WIDTH ⟦<Self as PartialWord>⟧.held (⟦<Self as PartialWord>⟧.held self) bit result }
    {
        let size = self.size();
        if size == U::WIDTH {
            return None;
        }
        let word = self.word.wide() | (u64::from(bit) << size);
        Some(Partial::at(1 << size, word))
    }

    // The newest bit, and what is held without it; none where none is held.
    fn popped(self) -> Option<(bool, Partial<U>)>
        ensures { PartPopped ⟦<Self as PartialWord>⟧.held (⟦<Self as PartialWord>⟧.held self) result }
    {
        let place = self.mask.wide();
        if place == 0 {
            return None;
        }
        let word = self.word.wide();
        let bit = word & place != 0;
        Some((bit, Partial::at(place >> 1, word & (place - 1))))
    }

    // The word of the bits held, and zeros above them.
    pub(crate) fn to_word(self) -> U
        ensures padded { IsWord U.WIDTH U.number ⟦<U as Word>⟧.value (⟦<Self as PartialWord>⟧.held self ++ zeros (U.WIDTH - length (⟦<Self as PartialWord>⟧.held self))) result }
        ensures full { U.WIDTH ≤ length (⟦<Self as PartialWord>⟧.held self) → IsWord U.WIDTH U.number ⟦<U as Word>⟧.value (⟦<Self as PartialWord>⟧.held self) result }
    {
        self.word
    }

    // The bits of a word below its highest one bit; none where it has no one bit.
    pub(crate) fn below_highest(word: U) -> Option<Partial<U>>
        ensures { UnsealedWord U.WIDTH ⟦<Self as PartialWord>⟧.held (⟦<U as Word>⟧.value word) result }
    {
        let n = word.wide();
        if n == 0 {
            return None;
        }
        let mark = 1 << n.ilog2();
        Some(Partial::at(mark >> 1, n & (mark - 1)))
    }
}
