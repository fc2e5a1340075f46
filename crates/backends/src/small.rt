// A stack of up to eight 64-bit words, kept inside its own value.
ghost use Rattle.std.specs.Prelude.{◌≤◌};
ghost use Rattle.arrayvec.specs.ArrayVec.{array_vec_len};

mod calls;

use arrayvec::ArrayVec;

// The words held, oldest first; its capacity is 8.
#[derive(Drop)]
pub struct SmallStore {
    words: ArrayVec<u64, 8>,
    ghost within: { array_vec_len words ≤ 8 },
}
