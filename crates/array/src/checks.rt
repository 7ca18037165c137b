// The counts of an array, taken from its store at each call.
ghost use Rattle.std.specs.Prelude.{◌≡◌};
ghost use Rattle.array.specs.Sound.{Sizes};

use array_model::refusal::ArrayRefusal;
use geometry::shape::Shape;
use member_store::MemberStore;

// The counts of the store, where they are within the limits.
pub(super) fn shape_of<S: MemberStore>(store: &S) -> Result<Shape, ArrayRefusal>
    ensures { Sizes (S.MemberStore.meaning store.now) result }
{
    Ok(Shape::new(store.members(), store.blocks())?)
}
