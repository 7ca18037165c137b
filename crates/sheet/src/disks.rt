// The disks below an array or a log: a write buffer over a fuse over memory, and a look at what they hold.
ghost use Rattle.std.specs.Prelude.{◌≡◌, [], ◌∷◌, IfOk, None as Unset};
ghost use Rattle.memory_store.specs.Memory.{memory_means};
ghost use Rattle.sheet_parity.specs.Right.{AllRight};

use crate::load::STRIPES;
use anyhow::Context;
use fuse_series::FuseSeries;
use memory_store::memory::MemoryStore;
use program_parts::zeros::zeros;
use sheet_parity::wrong_stripes;
use std::alloc::{AllocError, Global};
use write_buffer::buffer::WriteBuffer;

pub type Disks = WriteBuffer<FuseSeries<MemoryStore>>;

/// What the fuse is set to by the power-ons after the first: first the one before the load, then the one before the
/// resynchronization.
#[derive(Clone, Copy)]
pub struct Settings {
    pub load: Option<usize>,
    pub resync: Option<usize>,
}

// The next setting last. The first power-on sets none.
fn series(heap: Global, settings: Settings) -> Result<Vec<Option<usize>>, AllocError>
    ensures { IfOk result (λ v. v.items ≡ settings.resync ∷ settings.load ∷ Unset ∷ []) }
{
    Ok(vec![in heap; settings.resync, settings.load, None]?)
}

/// Disks of zeros.
pub fn new_disks(
    heap: Global,
    members: usize,
    blocks: usize,
    settings: Settings,
) -> anyhow::Result<Disks> {
    let memory = zeros(heap, members, blocks)?.context("no memory store")?;
    let fuse = FuseSeries::new(memory, series(heap, settings)?);
    WriteBuffer::new(heap, fuse)
        .ok()
        .context("no memory for the write buffer")
}

/// How many stripes have wrong parity in the memory below: what stands while the write buffer holds nothing, as after
/// a power-on or a barrier.
pub fn wrong_on(disks: &Disks) -> usize
    ensures { result ≡ 0 → AllRight (memory_means disks.now.below.fuse.below) 16 }
{
    wrong_stripes(disks.below().below(), STRIPES)
}
