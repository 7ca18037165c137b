//! Numbers in groups of seven bits (unsigned LEB128), in shortest form, up to 4,294,967,295.
#![tactic(auto)]

ghost use Rattle.std.specs.Prelude.{◌≡◌, ◌≤◌, length, cond, nat_lt, Ok, Err, IfOk};
ghost use Rattle.leb128.specs.declared.decoded.DecodeError.TheVariants.{Overflow};
ghost use Rattle.leb128.specs.Encoding.{encoding};
ghost use Rattle.leb128.specs.Decoding.{decoding};
ghost use Rattle.leb128.specs.Written.{written};
ghost use Rattle.leb128.specs.RoundTrip.{ReadBack, TakenWere};
ghost use Rattle.leb128.specs.Examples.{WorkedExamples, numbers};

pub mod decoded;
pub mod encoded;

use decoded::{DecodeError, Decoded};
use encoded::Encoded;

// The bits of a group, and the bit that is set while more follow.
const GROUP: u8 = 0x7f;

const MORE: u8 = 0x80;

// A group has seven bits, and five groups hold every number up to the largest.
const BITS: u32 = 7;

const LAST: usize = 4;

impl Encoded {
    /// The bytes of the number.
    pub fn as_slice(&self) -> &[u8]
        ensures { result.now ≡ written self.now }
    {
        &self.bytes[..self.len]
    }
}

/// The shortest form of a number. It is read back as that number, whatever follows it.
pub fn encode(n: u32) -> Encoded
    ensures bytes { written result ≡ encoding n }
    ensures reads_back { ReadBack n (written result) }
{
    let mut bytes = [0u8; 5];
    let mut rest = n;
    let mut i = 0;
    // Kept: a `for` over the places is no plainer: the number ends the loop, `len` is where, and each way out writes a byte.
    while rest >= 0x80 {
        bytes[i] = (rest & 0x7f) as u8 | MORE;
        rest >>= BITS;
        i += 1;
    }
    bytes[i] = rest as u8;
    Encoded { bytes, len: i + 1 }
}

// The number, if it is not above 4,294,967,295.
fn within_limit(n: u64) -> Result<u32, DecodeError>
    ensures { result ≡ cond (nat_lt n 4294967296) (Ok n) (Err Overflow) }
{
    u32::try_from(n).map_err(|_| DecodeError::Overflow)
}

/// The number that the bytes begin with. The bytes that it took are its shortest form.
pub fn decode(bytes: &[u8]) -> Result<Decoded, DecodeError>
    ensures value { result ≡ decoding bytes.now }
    ensures inside { IfOk result (λ d. d.taken ≤ length bytes.now) }
    ensures shortest { IfOk result (λ d. TakenWere bytes.now d) }
{
    let mut n: u64 = 0;
    let mut shift = 0u32;
    for (i, b) in bytes.iter().enumerate() {
        let group = (*b & GROUP) as u64;
        n |= group << shift;
        if *b & MORE == 0 {
            if i > 0 && group == 0 {
                return Err(DecodeError::LongerForm);
            }
            let value = within_limit(n)?;
            return Ok(Decoded {
                value,
                taken: i + 1,
            });
        }
        if i == LAST {
            return Err(DecodeError::Overflow);
        }
        shift += BITS;
    }
    Err(DecodeError::EndOfBytes)
}

/// The worked examples, proved as one table; the answer is how many numbers it has.
pub fn worked_examples_hold() -> usize
    ensures examples { WorkedExamples }
    ensures count { result ≡ length numbers }
{
    4
}
