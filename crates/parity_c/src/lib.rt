//! Parity for callers in C, as a static library.
#![tactic(auto)]

ghost use Rattle.parity.specs.Refusals.{FlatGives};

/// The parity of blocks that lie one after the other, for callers in C. Answers whether it was worked out: there are 2 to 7
/// whole blocks and the buffer has the length of one. Otherwise the buffer is as it was.
#[unsafe(no_mangle)]
pub extern "C" fn dustercyan_parity(blocks: &[u8], into: &mut [u8]) -> bool
    ensures { FlatGives blocks.now into.old result into.new }
{
    parity::dustercyan_parity(blocks, into)
}
