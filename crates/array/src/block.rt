// The checks of the block calls.
ghost use Rattle.std.specs.Prelude.{◌≡◌};
ghost use Rattle.array.specs.Blocks.{BlockChecked};

use crate::checks::shape_of;
use array_model::refusal::ArrayRefusal;
use geometry::shape::Shape;
use member_store::{BLOCK_BYTES, MemberStore};

// Is there such a block, and has the buffer the length of one? Answers the counts of the store.
pub(super) fn check_block<S: MemberStore>(
    store: &S,
    block: usize,
    length: usize,
) -> Result<Shape, ArrayRefusal>
    ensures { BlockChecked (S.MemberStore.meaning store.now) block length result }
{
    let shape = shape_of(store)?;
    if block >= shape.data_blocks() {
        return Err(ArrayRefusal::NoBlock(block));
    }
    if length != BLOCK_BYTES {
        return Err(ArrayRefusal::WrongLength(length));
    }
    Ok(shape)
}
