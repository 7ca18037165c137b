// The load: a hundred block writes with destages and flushes among them, always the same.
ghost use Rattle.std.specs.Prelude.{◌≡◌, ◌+◌, ◌*◌, ◌%◌, ◌^◌, ◌<◌};

use array_run::call::Call;
use member_store::BLOCK_BYTES;
use std::alloc::{AllocError, Global};
use std::array;

/// The members of the array.
pub const MEMBERS: usize = 4;

/// The stripes of the array: the blocks of each member.
pub const STRIPES: usize = 16;

/// The data blocks of a stripe.
const POSITIONS: usize = 3;

/// The data blocks of the array.
pub const DATA_BLOCKS: usize = 48;

/// The writes of the load.
const WRITES: u8 = 100;

/// The stripe of a write lies in a window of this many, which moves up by one with every `STAY` writes.
const WINDOW: usize = 4;

const STAY: u8 = 8;

/// A flush follows each write whose number, from 1, is a multiple of this.
const BETWEEN_FLUSHES: u8 = 16;

const SEED: u32 = 2_026;

/// A write, and the calls that follow it.
#[derive(Clone, Copy)]
pub struct LoadWrite {
    block: usize,
    bytes: [u8; BLOCK_BYTES],
    destages: usize,
    flush: bool,
}

// The draw after this one, by the linear congruence of Numerical Recipes.
fn next_draw(draw: u32) -> u32
    ensures { result ≡ (1664525 * draw + 1013904223) % 2 ^ 32 }
{
    draw.wrapping_mul(1_664_525).wrapping_add(1_013_904_223)
}

// The bytes of a write: at every offset other ones than those of any other write.
fn content(number: u8) -> [u8; BLOCK_BYTES] {
    array::from_fn(|at| number.wrapping_add((at % 256) as u8))
}

// The write of a number from 1, by a draw. Its high bits vary most.
fn write_of(number: u8, draw: u32) -> LoadWrite
    ensures { result.block < 48 }
{
    let high = (draw >> 16) as usize;
    let stripe = (usize::from(number / STAY) + high % WINDOW) % STRIPES;
    LoadWrite {
        block: stripe * POSITIONS + high / WINDOW % POSITIONS,
        bytes: content(number),
        destages: high / 64 % 3,
        flush: number % BETWEEN_FLUSHES == 0,
    }
}

/// The writes of the load.
pub fn load(heap: Global) -> Result<Vec<LoadWrite>, AllocError> {
    let mut writes = Vec::new(heap);
    let mut draw = SEED;
    for number in 1..=WRITES {
        draw = next_draw(draw);
        writes.push(write_of(number, draw))?;
    }
    Ok(writes)
}

// A call, so many times over.
fn push_times<'a>(
    calls: &mut Vec<Call<'a>>,
    call: Call<'a>,
    times: usize,
) -> Result<(), AllocError> {
    for _ in 0..times {
        calls.push(call)?;
    }
    Ok(())
}

/// The calls of the load; a close ends it.
pub fn load_calls(heap: Global, writes: &[LoadWrite]) -> Result<Vec<Call>, AllocError> {
    let mut calls = Vec::new(heap);
    for write in writes {
        calls.push(Call::Write {
            block: write.block,
            bytes: &write.bytes,
        })?;
        push_times(&mut calls, Call::Destage, write.destages)?;
        if write.flush {
            calls.push(Call::Flush)?;
        }
    }
    calls.push(Call::Close)?;
    Ok(calls)
}

/// The calls of a resynchronization: an opening, a step more than there are stripes, a finish.
pub fn resync_calls<'a>(heap: Global) -> Result<Vec<Call<'a>>, AllocError> {
    let mut calls = Vec::new(heap);
    calls.push(Call::Open)?;
    push_times(&mut calls, Call::Step, STRIPES + 1)?;
    calls.push(Call::Finish)?;
    Ok(calls)
}

/// A read of every block, in order.
pub fn read_calls<'a>(heap: Global) -> Result<Vec<Call<'a>>, AllocError> {
    let mut calls = Vec::new(heap);
    for block in 0..DATA_BLOCKS {
        calls.push(Call::Read {
            block,
            length: BLOCK_BYTES,
        })?;
    }
    Ok(calls)
}
