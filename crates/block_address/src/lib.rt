//! A block on the members of a member store, by its address.
#![tactic(auto)]

ghost use Rattle.std.specs.Prelude.{Some};
ghost use Rattle.block_address.specs.Text.{place_text};

use std::fmt;

/// A place on the members: the member, and the block on it; both are numbered from 0.
#[derive(Clone, Copy, PartialEq, Eq, Debug)]
pub struct Address {
    pub member: usize,
    pub block: usize,
}

impl fmt::Display for Address {
    ghost output = { λ p. Some (place_text p) };

    fn fmt<W: fmt::Write>(&self, f: &mut fmt::Formatter<W>) -> fmt::Result {
        let member = self.member;
        let block = self.block;
        write!(f, "block {block} of member {member}")
    }
}
