// A plain scratch of 256 bits.
ghost use Rattle.std.specs.Prelude.{◌≤◌, length};

mod calls;

use arrayvec::ArrayVec;

// The bits that were taken, oldest first.
#[derive(Drop)]
pub struct Scratch {
    bits: ArrayVec<bool, 256>,
    ghost within: { length bits.items ≤ 256 },
}
