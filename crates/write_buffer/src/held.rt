// A store that is held back.
ghost use Rattle.std.specs.Prelude.{◌≡◌, length};

use block_address::Address;

#[derive(Clone, Copy)]
pub struct HeldStore {
    pub at: Address,
    pub bytes: [u8; 512],
    ghost whole: { length bytes ≡ 512 },
}
