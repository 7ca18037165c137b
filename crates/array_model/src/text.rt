// What states, refusals and answers say to a user.
ghost use Rattle.std.specs.Prelude.{Some};
ghost use Rattle.array_model.specs.Text.{state_text, layer_text, detail_text, refusal_text, taken_text, resync_text, destage_text, flush_text};

use super::answer::{Destage, FlushCounts, ResyncCounts, TakenStripe};
use super::refusal::{ArrayRefusal, BoxLayer, Detail};
use super::state::State;
use block_address::Address;
use std::error::Error;
use std::fmt;

impl fmt::Display for State {
    ghost output = { λ state. Some (state_text state) };

    fn fmt<W: fmt::Write>(&self, f: &mut fmt::Formatter<W>) -> fmt::Result {
        f.write_str(match self {
            State::Fallen => "fallen",
            State::Down => "down",
            State::Resync(_) => "resync",
            State::Ready => "ready",
            State::Short(_) => "short",
        })
    }
}

impl fmt::Display for BoxLayer {
    ghost output = { λ layer. Some (layer_text layer) };

    fn fmt<W: fmt::Write>(&self, f: &mut fmt::Formatter<W>) -> fmt::Result {
        f.write_str(match self {
            BoxLayer::Members => "members",
            BoxLayer::LogStore => "log-store",
            BoxLayer::Log => "log",
            BoxLayer::Array => "array",
        })
    }
}

impl fmt::Display for Detail {
    ghost output = { λ detail. Some (detail_text detail) };

    fn fmt<W: fmt::Write>(&self, f: &mut fmt::Formatter<W>) -> fmt::Result {
        match self {
            Detail::At(Address { member, block }) => write!(f, "{member} {block}"),
            Detail::Counts(members, blocks) => write!(f, "{members} {blocks}"),
            Detail::In(state) => write!(f, "{state}"),
            Detail::Number(number) => write!(f, "{number}"),
        }
    }
}

impl fmt::Display for ArrayRefusal {
    ghost output = { λ refusal. Some (refusal_text refusal) };

    fn fmt<W: fmt::Write>(&self, f: &mut fmt::Formatter<W>) -> fmt::Result {
        let number = self.number();
        let layer = self.layer();
        match self.detail() {
            Some(detail) => write!(f, "refused {number} {layer} {detail}"),
            None => write!(f, "refused {number} {layer}"),
        }
    }
}

impl Error for ArrayRefusal {}

impl fmt::Display for TakenStripe {
    ghost output = { λ taken. Some (taken_text taken) };

    fn fmt<W: fmt::Write>(&self, f: &mut fmt::Formatter<W>) -> fmt::Result {
        let parity = if self.mended { "mended" } else { "right" };
        write!(f, "stripe {} {parity}", self.stripe)
    }
}

impl fmt::Display for ResyncCounts {
    ghost output = { λ counts. Some (resync_text counts) };

    fn fmt<W: fmt::Write>(&self, f: &mut fmt::Formatter<W>) -> fmt::Result {
        write!(f, "read {} mended {}", self.read, self.mended)
    }
}

impl fmt::Display for Destage {
    ghost output = { λ destage. Some (destage_text destage) };

    fn fmt<W: fmt::Write>(&self, f: &mut fmt::Formatter<W>) -> fmt::Result {
        match self {
            Destage::Moved(stripe) => write!(f, "moved {stripe}"),
            Destage::Changed(puts) => write!(f, "changed {puts}"),
            Destage::Idle => f.write_str("idle"),
        }
    }
}

impl fmt::Display for FlushCounts {
    ghost output = { λ counts. Some (flush_text counts) };

    fn fmt<W: fmt::Write>(&self, f: &mut fmt::Formatter<W>) -> fmt::Result {
        write!(f, "flushed {} puts {}", self.stripes, self.puts)
    }
}
