// The unsigned integer types, as words.
ghost use Rattle.std.specs.Prelude.{◌≡◌, ℕ, ◌%◌, ◌^◌, ◌<◌};
ghost use Rattle.words.specs.Partials.{NumberWord, UnsignedLaws};
ghost use Rattle.std.proofs.Common.{rules};

use crate::Word;
use crate::part::Partial;

// An unsigned integer type of at most 64 bits.
pub trait Unsigned: Copy {
    // how many bits it has
    ghost WIDTH: { ℕ };

    // the number that a value is
    ghost number: { Self → ℕ };

    // the value of a number
    ghost word: { ℕ → Self };

    const WIDTH: u32;

    // The number that it is.
    fn wide(self) -> u64
        ensures number { result ≡ number self }
        ensures small { result < 2 ^ WIDTH };

    // The value of a number, if the number has so few bits.
    fn narrow(n: u64) -> Option<Self>
        ensures { NumberWord WIDTH number n result };

    // The value of a number that has so few bits.
    fn exact(n: u64) -> Self
        requires { n < 2 ^ WIDTH }
        ensures { number result ≡ n };

    ghost laws: { UnsignedLaws WIDTH number word };
}

// Three impls, since one that a macro of the repository writes is refused.
impl Unsigned for u8 {
    ghost WIDTH = { 8 };

    ghost number = { λ x. x };

    ghost word = { λ n. n };

    ghost laws = { Prim.search rules };

    const WIDTH: u32 = u8::BITS;

    fn wide(self) -> u64 {
        u64::from(self)
    }

    fn narrow(n: u64) -> Option<u8> {
        u8::try_from(n).ok()
    }

    fn exact(n: u64) -> u8 {
        n as u8
    }
}

impl Unsigned for u32 {
    ghost WIDTH = { 32 };

    ghost number = { λ x. x };

    ghost word = { λ n. n };

    ghost laws = { Prim.search rules };

    const WIDTH: u32 = u32::BITS;

    fn wide(self) -> u64 {
        u64::from(self)
    }

    fn narrow(n: u64) -> Option<u32> {
        u32::try_from(n).ok()
    }

    fn exact(n: u64) -> u32 {
        n as u32
    }
}

impl Unsigned for u64 {
    ghost WIDTH = { 64 };

    ghost number = { λ x. x };

    ghost word = { λ n. n };

    ghost laws = { Prim.search rules };

    const WIDTH: u32 = u64::BITS;

    fn wide(self) -> u64 {
        self
    }

    fn narrow(n: u64) -> Option<u64> {
        Some(n)
    }

    fn exact(n: u64) -> u64 {
        n
    }
}

impl<U: Unsigned> Word for U {
    type Partial = Partial<U>;

    ghost number = { U.number };

    ghost word = { U.word };

    ghost value = { λ x. U.number x % 2 ^ U.WIDTH };

    ghost small = { Prim.search rules };

    ghost exact = { Prim.search rules };

    ghost back = { U.laws.back };

    ghost there = { U.laws.there };

    fn width() -> u32 {
        U::WIDTH
    }

    fn to_u64(self) -> u64 {
        self.wide()
    }

    fn from_u64(n: u64) -> Option<U> {
        U::narrow(n)
    }

    fn opened(self) -> Partial<U> {
        Partial::whole(self)
    }

    fn closed(part: Partial<U>) -> Option<U> {
        if part.size() < U::WIDTH {
            return None;
        }
        Some(part.to_word())
    }

    fn padded(part: Partial<U>) -> U {
        part.to_word()
    }

    fn sealed(part: Partial<U>) -> Option<U> {
        Some(part.pushed(true)?.to_word())
    }

    fn unsealed(self) -> Option<Partial<U>> {
        Partial::below_highest(self)
    }

    fn halved(self) -> (bool, U) {
        let n = self.to_u64();
        (n % 2 == 1, U::exact(n / 2))
    }
}
