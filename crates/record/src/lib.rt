//! The ring log's record: a version and a set of stripes, in a block of 512 bytes.
#![tactic(auto)]

ghost use Rattle.std.specs.Prelude.{◌≡◌, ◌+◌, ◌-◌, ◌<◌, ◌≤◌, true, length, take, drop, IfSome, Some, None, MatchOption};
ghost use Rattle.std.specs.Result.{result_ok};
ghost use Rattle.std.proofs.lemmas.List.Edits.{sets};
ghost use Rattle.leb128.specs.Encoding.{encoding};
ghost use Rattle.leb128.specs.Decoding.{decoding};
ghost use Rattle.stripe_set.specs.Rising.{rising as increasing};
ghost use Rattle.stripe_set.specs.Stripes.{stripes as listing};
ghost use Rattle.record.specs.Contents.{contents, contained};
ghost use Rattle.record.specs.Limits.{allowed, checked};
ghost use Rattle.record.specs.Form.{block};
ghost use Rattle.record.specs.Reading.{opens, above, stripes_from, recorded};
ghost use Rattle.record.specs.Spelling.{Spelt, SpeltAll};
ghost use Rattle.record.specs.Examples.{WorkedExamples, example as sample};

pub mod form;
pub mod text;

use form::Record;
use leb128::decoded::Decoded;
use stripe_set::set::{MOST, StripeSet};
use zero_bytes::all_zero;

/// The length of a block.
pub const BLOCK: usize = 512;

/// The most stripes that a record names.
pub const MOST_STRIPES: u32 = 64;

/// The last version; a record of it names no stripe.
pub const LAST_VERSION: u32 = 4294967295;

// The bytes that a record opens with.
const OPENING: [u8; 4] = [0x49, 0x4c, 0x30, 0x31];

impl Record {
    /// The record of a version and its stripes, if a record may have them.
    pub fn new(version: u32, stripes: StripeSet) -> Option<Record>
        ensures { contained result ≡ checked version (listing stripes) }
    {
        if !is_allowed(version, stripes.len() as u32) {
            return None;
        }
        Some(Record { version, stripes })
    }

    /// The version.
    pub fn version(&self) -> u32
        ensures { result ≡ (contents self.now).version }
    {
        self.version
    }

    /// The stripes that the record names.
    pub fn stripes(&self) -> StripeSet
        ensures { listing result ≡ (contents self.now).stripes }
    {
        self.stripes
    }

    /// The block of the record. It is read back as the record.
    pub fn encode(&self) -> [u8; BLOCK]
        ensures bytes { result ≡ block (contents self.now) }
        ensures reads_back { recorded result ≡ Some (contents self.now) }
    {
        let mut bytes = [0u8; BLOCK];
        write(&mut bytes, self.version(), self.stripes.as_slice());
        bytes
    }

    /// The record that a block holds, if any. The block is the one that the record is written as.
    pub fn decode(bytes: &[u8; BLOCK]) -> Option<Record>
        ensures value { contained result ≡ recorded bytes.now }
        ensures only_form { IfSome result (λ x. bytes.now ≡ block (contents x)) }
    {
        read(bytes)
    }
}

// May a record of this version name this many stripes?
fn is_allowed(version: u32, count: u32) -> bool
    ensures { result ≡ allowed version count }
{
    version > 0 && count <= MOST_STRIPES && (version < LAST_VERSION || count == 0)
}

// Writes a number at a place, and answers where it ends.
fn put(buf: &mut [u8], at: usize, n: u32) -> usize
    requires { at + 5 ≤ length buf.old }
    ensures end { result ≡ at + length (encoding n) }
    ensures room { (at < result) × (result ≤ at + 5) }
    ensures bytes { buf.new ≡ sets buf.old at (encoding n) }
{
    let number = leb128::encode(n);
    let digits = number.as_slice();
    let end = at + digits.len();
    buf[at..end].copy_from_slice(digits);
    end
}

// Writes the record of a version and its stripes over the whole block.
fn write(buf: &mut [u8], version: u32, stripes: &[u32])
    requires { (length buf.old ≡ 512) × (length stripes.now ≤ 64) × (increasing 0 stripes.now ≡ true) }
    ensures { buf.new ≡ block (record { version = version; stripes = stripes.now }) }
{
    buf.fill(0);
    buf[..4].copy_from_slice(&OPENING);
    let mut at = put(buf, 4, version);
    at = put(buf, at, stripes.len() as u32);
    let mut before = 0;
    for s in stripes {
        at = put(buf, at, *s - before);
        before = *s;
    }
}

// Do these bytes open a record?
fn is_opened(bytes: &[u8]) -> bool
    requires { length bytes.now ≡ 512 }
    ensures { result ≡ opens bytes.now }
{
    bytes.starts_with(&OPENING)
}

// The number at a place, if there is one.
fn number_at(bytes: &[u8], at: usize) -> Option<Decoded>
    requires { at ≤ length bytes.now }
    ensures value { result ≡ result_ok (decoding (drop at bytes.now)) }
    ensures inside { IfSome result (λ d. at + d.taken ≤ length bytes.now) }
    ensures spelt { IfSome result (λ d. Spelt bytes.now at (at + d.taken) d.value) }
{
    leb128::decode(&bytes[at..]).ok()
}

// The stripe at a place, at least `least` above `from`, and where it ends.
fn stripe_at(bytes: &[u8], at: usize, least: u32, from: u32) -> Option<(u32, usize)>
    requires { at ≤ length bytes.now }
    ensures value { result ≡ above least from at (decoding (drop at bytes.now)) }
    ensures inside { IfSome result (λ x. x.1 ≤ length bytes.now) }
    ensures spelt { IfSome result (λ x. Spelt bytes.now at x.1 (x.0 - from)) }
{
    let distance = number_at(bytes, at)?;
    if distance.value < least {
        return None;
    }
    let stripe = from.checked_add(distance.value)?;
    Some((stripe, at + distance.taken))
}

// Reads n stripes into `out`, and answers where they end.
fn read_stripes(bytes: &[u8], at: usize, n: usize, out: &mut [u32]) -> Option<usize>
    requires { (at ≤ length bytes.now) × (n ≤ length out.old) }
    ensures value { MatchOption result (stripes_from n 0 0 bytes.now at ≡ None) (λ e. stripes_from n 0 0 bytes.now at ≡ Some (take n out.new, e)) }
    ensures inside { IfSome result (λ e. e ≤ length bytes.now) }
    ensures spelt { IfSome result (λ e. SpeltAll bytes.now at e 0 (take n out.new)) }
{
    let mut pos = at;
    let mut least = 0;
    let mut from = 0;
    for place in &mut out[..n] {
        (from, pos) = stripe_at(bytes, pos, least, from)?;
        *place = from;
        least = 1;
    }
    Some(pos)
}

// The record that 512 bytes hold, if any.
fn read(bytes: &[u8]) -> Option<Record>
    requires { length bytes.now ≡ 512 }
    ensures value { contained result ≡ recorded bytes.now }
    ensures only_form { IfSome result (λ x. bytes.now ≡ block (contents x)) }
{
    if !is_opened(bytes) {
        return None;
    }
    let version = number_at(bytes, 4)?;
    let at = 4 + version.taken;
    let count = number_at(bytes, at)?;
    if !is_allowed(version.value, count.value) {
        return None;
    }
    let mut items = [0; MOST];
    let len = count.value as usize;
    let end = read_stripes(bytes, at + count.taken, len, &mut items)?;
    if !all_zero(&bytes[end..]) {
        return None;
    }
    let stripes = StripeSet::from_slice(&items[..len])?;
    Some(Record {
        version: version.value,
        stripes,
    })
}

/// The worked examples of the format, proved as one table; the answer is the table's record.
pub fn worked_examples_hold() -> Option<Record>
    ensures examples { WorkedExamples }
    ensures value { contained result ≡ Some sample }
{
    let stripes = StripeSet::from_slice(&[3, 5, 300])?;
    Record::new(2, stripes)
}
