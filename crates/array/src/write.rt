// Writing a block.
ghost use Rattle.std.specs.Prelude.{◌≡◌, length};
ghost use Rattle.cache.specs.Meaning.{contents};
ghost use Rattle.array_model.specs.Meaning.{geometry};
ghost use Rattle.array_model.specs.Calls.{Writes};
ghost use Rattle.array.specs.Sound.{means, Sound};
ghost use Rattle.array.specs.Blocks.{Puts};

use crate::array::Array;
use crate::block::check_block;
use crate::tokens::ReadyPermit;
use array_model::refusal::ArrayRefusal;
use array_model::state::State;
use cache::caches::Caches;
use geometry::layout::Layout;
use intent_log::IntentLog;
use member_store::MemberStore;

// Puts a block into the buffering cache.
fn put_block(caches: &mut Caches, block: usize, bytes: &[u8]) -> Result<(), ArrayRefusal>
    requires { length bytes.now ≡ 512 }
    ensures { Puts block bytes.now (contents caches.old) result (contents caches.new) }
{
    Ok(caches.put(block, bytes.try_into().unwrap())?)
}

impl<S: MemberStore, G: IntentLog, L: Layout> Array<S, G, L> {
    /// Puts a block into the buffering cache and touches no device.
    pub fn write(
        &mut self,
        _permit: &ReadyPermit,
        block: usize,
        bytes: &[u8],
    ) -> Result<(), ArrayRefusal>
        ensures sound { Sound S.MemberStore.meaning G.IntentLog.meaning G.IntentLog.sound self.old → Sound S.MemberStore.meaning G.IntentLog.meaning G.IntentLog.sound self.new }
        ensures does { Sound S.MemberStore.meaning G.IntentLog.meaning G.IntentLog.sound self.old → Writes (geometry L.Layout.arrangement (means S.MemberStore.meaning G.IntentLog.meaning self.old)) block bytes.now (means S.MemberStore.meaning G.IntentLog.meaning self.old) result (means S.MemberStore.meaning G.IntentLog.meaning self.new) }
    {
        match self.state {
            State::Ready => {
                check_block(&self.store, block, bytes.len())?;
                put_block(&mut self.caches, block, bytes)
            }
            State::Fallen | State::Down | State::Resync(_) | State::Short(_) => Err(
                ArrayRefusal::WrongState(self.state),
            ),
        }
    }
}
