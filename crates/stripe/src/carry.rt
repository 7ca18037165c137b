// A file over the members of an array and back: laid out with parity, one member forgotten and worked out again.
use block_address::Address;
use geometry::array_geometry::Geometry;
use geometry::layout::Layout;
use geometry::place::Location;
use geometry::shape::Shape;
use member_store::{BLOCK_BYTES, MemberStore};
use stripe_work::data::{CachedBlocks, MOST_POSITIONS};
use stripe_work::destage::destage_stripe;
use stripe_work::reconstruct::reconstruct_block;
use stripe_work::refusal::StripeRefusal;

// What a forgotten member holds.
const FORGOTTEN: [u8; BLOCK_BYTES] = [0xa5; BLOCK_BYTES];

/// How many blocks so many bytes take.
pub fn blocks_for(bytes: usize) -> usize {
    bytes.div_ceil(BLOCK_BYTES)
}

// A block of the file, filled up with zeros.
fn file_block(file: &[u8], block: usize) -> [u8; BLOCK_BYTES] {
    let (whole, rest) = file.as_chunks::<512>();
    if let Some(bytes) = whole.get(block) {
        return *bytes;
    }
    let mut bytes = [0u8; BLOCK_BYTES];
    if block == whole.len() {
        for (byte, from) in bytes.iter_mut().zip(rest) {
            *byte = *from;
        }
    }
    bytes
}

// The blocks of the file that lie in a stripe, by position.
fn stripe_blocks(file: &[u8], shape: Shape, stripe: usize) -> CachedBlocks {
    let mut cached = [None; MOST_POSITIONS];
    for (position, bytes) in cached.iter_mut().enumerate() {
        let block = shape.block_number(Location { stripe, position });
        *bytes = block.map(|block| file_block(file, block));
    }
    cached
}

/// Lays the file over the members, stripe by stripe, with parity.
pub fn lay_out<S: MemberStore, L: Layout>(
    store: &mut S,
    geometry: &Geometry<L>,
    file: &[u8],
) -> Result<(), StripeRefusal> {
    for stripe in 0..geometry.shape.stripes() {
        let cached = stripe_blocks(file, geometry.shape, stripe);
        destage_stripe(store, geometry, stripe, &cached)?;
    }
    Ok(())
}

/// Overwrites all blocks of a member.
pub fn forget<S: MemberStore>(store: &mut S, member: usize) -> Result<(), StripeRefusal> {
    for block in 0..store.blocks() {
        store.store(Address { member, block }, &FORGOTTEN)?;
    }
    Ok(())
}

/// Works all blocks of a member out of the others and stores them; says how many.
pub fn work_out<S: MemberStore, L: Layout>(
    store: &mut S,
    geometry: &Geometry<L>,
    member: usize,
) -> Result<usize, StripeRefusal> {
    let blocks = geometry.shape.blocks();
    for block in 0..blocks {
        let mut bytes = [0u8; BLOCK_BYTES];
        let at = Address { member, block };
        reconstruct_block(store, geometry, at, &mut bytes)?;
        store.store(at, &bytes)?;
    }
    Ok(blocks)
}

// Does a block of the array hold that of the file?
fn holds_block<S: MemberStore, L: Layout>(
    store: &mut S,
    geometry: &Geometry<L>,
    file: &[u8],
    block: usize,
) -> Result<bool, StripeRefusal> {
    let Some(at) = geometry.data_address(block) else {
        return Ok(false);
    };
    let mut bytes = [0u8; BLOCK_BYTES];
    store.read(at, &mut bytes)?;
    Ok(bytes == file_block(file, block))
}

/// Do the members hold all bytes of the file?
pub fn holds_file<S: MemberStore, L: Layout>(
    store: &mut S,
    geometry: &Geometry<L>,
    file: &[u8],
) -> Result<bool, StripeRefusal> {
    for block in 0..blocks_for(file.len()) {
        if !holds_block(store, geometry, file, block)? {
            return Ok(false);
        }
    }
    Ok(true)
}
