// What a refusal says to a user.
ghost use Rattle.std.specs.Prelude.{Some};
ghost use Rattle.member_store.specs.Text.{text};

use super::refusal::Refusal;
use std::error::Error;
use std::fmt;

impl fmt::Display for Refusal {
    ghost output = { λ e. Some (text e) };

    fn fmt<W: fmt::Write>(&self, f: &mut fmt::Formatter<W>) -> fmt::Result {
        match self {
            Refusal::PowerOff(Some(at)) => write!(f, "refused (1): no power at {at}"),
            Refusal::PowerOff(None) => write!(f, "refused (1): no power at a barrier"),
            Refusal::NoMember(member) => write!(f, "refused (7): no member {member}"),
            Refusal::NoBlock(block) => write!(f, "refused (7): no block {block}"),
            Refusal::WrongLength(len) => write!(f, "refused (8): {len} bytes are no block"),
        }
    }
}

impl Error for Refusal {}
