// A number's bytes, in a file of their own, since the definitions that read them stand beside their facts.
ghost use Rattle.std.specs.Prelude.{◌≡◌, ◌≤◌, length};

/// The shortest form of a number, one to five bytes.
// Kept: an array and a length, since there is no heap here, and the kit's `ArrayVec` is not `Copy`, as this is.
#[derive(Clone, Copy)]
pub struct Encoded {
    pub(super) bytes: [u8; 5],
    pub(super) len: usize,
    ghost whole: { length bytes ≡ 5 },
    ghost least: { 1 ≤ len },
    ghost most: { len ≤ 5 },
}
