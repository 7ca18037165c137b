//! Where the blocks of a RAID-5 array lie: block numbers, stripes and positions, members, and the three layouts.
//!
//! This is the only crate that knows how tall a strip is and on which member a block lies.
#![tactic(auto)]

pub mod array_geometry;
mod convert;
mod counts;
pub mod layout;
pub mod place;
pub mod shape;
