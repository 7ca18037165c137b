// The buffers of reads.
ghost use Rattle.std.specs.Prelude.{◌≡◌, replicate, IfOk};
ghost use Rattle.array_run.specs.Calls.{ReadTold};

use crate::answer::Answer;
use array_model::refusal::ArrayRefusal;
use std::alloc::{AllocError, Global};

// So many zeros.
pub(super) fn zero_buffer(heap: Global, length: usize) -> Result<Vec<u8>, AllocError>
    ensures { IfOk result (λ v. v.items ≡ replicate length 0) }
{
    vec![in heap; 0u8; length]
}

// What is told of a read into this buffer.
pub(super) fn read_told(outcome: Result<(), ArrayRefusal>, buffer: Vec<u8>) -> Answer
    ensures { ReadTold outcome buffer.items result }
{
    Answer::Read(outcome.map(|()| buffer))
}
