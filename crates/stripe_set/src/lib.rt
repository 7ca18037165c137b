//! Sets of at most 64 stripe numbers, kept as rising lists.
#![tactic(auto)]

ghost use Rattle.std.specs.Prelude.{◌≡◌, ◌+◌, ◌<◌, [], ◌∷◌, length, IfSome, MatchOption};
ghost use Rattle.stripe_set.specs.Rising.{rising as increasing};
ghost use Rattle.stripe_set.specs.Stripes.{stripes, held, bounded};
ghost use Rattle.stripe_set.specs.Named.{named, LeastFrom, InBoth};
ghost use Rattle.stripe_set.specs.Union.{merged};

pub mod set;

use set::{MOST, StripeSet};
use std::cmp::Ordering;

/// Is each number above the one before?
pub fn is_rising(list: &[u32]) -> bool
    ensures { result ≡ increasing 0 list.now }
{
    list.is_sorted_by(|a, b| a < b)
}

// The least stripe of two rising lists, and what is left of each without it.
#[tactic(auto, unfolding(crate::specs::Union::merged))]
fn split_least<'a>(own: &'a [u32], list: &'a [u32]) -> Option<(u32, &'a [u32], &'a [u32])>
    ensures value { MatchOption result (merged own.now list.now ≡ []) (λ r. merged own.now list.now ≡ r.0 ∷ merged r.1.now r.2.now) }
    ensures shorter { IfSome result (λ r. length r.1.now + length r.2.now < length own.now + length list.now) }
{
    match (own.split_first(), list.split_first()) {
        (None, None) => None,
        (Some((a, left)), None) => Some((*a, left, list)),
        (None, Some((b, right))) => Some((*b, own, right)),
        (Some((a, left)), Some((b, right))) => Some(match a.cmp(b) {
            Ordering::Less => (*a, left, list),
            Ordering::Equal => (*a, left, right),
            Ordering::Greater => (*b, own, right),
        }),
    }
}

impl StripeSet {
    /// The set without stripes.
    pub fn empty() -> StripeSet
        ensures { stripes result ≡ [] }
    {
        StripeSet {
            items: [0; MOST],
            len: 0,
        }
    }

    /// The stripes of a list, if they are at most 64 and rise.
    pub fn from_slice(list: &[u32]) -> Option<StripeSet>
        ensures { held result ≡ bounded list.now }
    {
        if list.len() > MOST || !is_rising(list) {
            return None;
        }
        let mut items = [0; MOST];
        items[..list.len()].copy_from_slice(list);
        Some(StripeSet {
            items,
            len: list.len(),
        })
    }

    /// The stripes, rising.
    pub fn as_slice(&self) -> &[u32]
        ensures { result.now ≡ stripes self.now }
    {
        &self.items[..self.len]
    }

    /// How many stripes there are.
    pub fn len(&self) -> usize
        ensures { result ≡ length (stripes self.now) }
    {
        self.len
    }

    /// Is this stripe one of them?
    pub fn contains(&self, stripe: u32) -> bool
        ensures { result ≡ named stripe (stripes self.now) }
    {
        self.as_slice().contains(&stripe)
    }

    /// The least of them at or above a number, where there is one.
    pub fn least_from(&self, at: u32) -> Option<u32>
        ensures { LeastFrom (λ s. named s (stripes self.now)) at result }
    {
        self.as_slice().iter().copied().find(|s| *s >= at)
    }

    /// The stripes of both sets, if they are at most 64.
    pub fn union(&self, other: &StripeSet) -> Option<StripeSet>
        ensures value { held result ≡ bounded (merged (stripes self.now) (stripes other.now)) }
        ensures both { InBoth (merged (stripes self.now) (stripes other.now)) (stripes self.now) (stripes other.now) }
    {
        let mut own = self.as_slice();
        let mut list = other.as_slice();
        let mut items = [0; MOST];
        let mut len = 0;
        // Kept: `len` is the length of the set that fills, and no place in the lists: what is left of those ends the loop.
        while let Some((stripe, left, right)) = split_least(own, list) {
            if len == MOST {
                return None;
            }
            items[len] = stripe;
            len += 1;
            own = left;
            list = right;
        }
        Some(StripeSet { items, len })
    }
}
