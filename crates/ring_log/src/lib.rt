//! The ring log: records in the first blocks of a member store, the highest version of which stands.
#![tactic(auto)]

ghost use Rattle.std.specs.Prelude.{◌≡◌, ◌+◌, ◌%◌, ◌<◌, ◌≤◌, true, false, ◌&&◌, length};
ghost use Rattle.stripe_set.specs.Stripes.{stripes as listing};
ghost use Rattle.record.specs.Contents.{contents};
ghost use Rattle.record.specs.Limits.{allowed};
ghost use Rattle.record.specs.Reading.{recorded};
ghost use Rattle.device_calls.specs.Lists.{Performs, for_each};
ghost use Rattle.intent_log.specs.Meaning.{listed};
ghost use Rattle.ring_log.specs.Slots.{slots as slotted, slot_place};
ghost use Rattle.ring_log.specs.Highest.{at_slot, higher_of, slot_or, version_of, stripes_of};
ghost use Rattle.ring_log.specs.Kept.{kept};
ghost use Rattle.ring_log.specs.Ring.{ring as meant, Sound};
ghost use Rattle.ring_log.specs.Own.{contents_of, zero_slot, OwnMark, OwnFresh, OwnClear, OwnBlank, OwnPower, Shows};
ghost use Rattle.ring_log.specs.Puts.{Put, FollowsWith, steady_single};
ghost use Rattle.std.proofs.Common.{rules};

pub mod ring;

use block_address::Address;
use device_calls::store_and_bar;
use intent_log::refusal::LogRefusal;
use intent_log::state::LogState;
use intent_log::{IntentLog, is_list};
use member_store::refusal::Refusal;
use member_store::{BLOCK_BYTES, MemberStore};
use record::form::Record;
use ring::{RingLog, StandingRecord};
use stripe_set::set::StripeSet;

/// The most slots of a ring.
pub const MOST_SLOTS: usize = 64;

/// The fewest slots of a ring.
pub const LEAST_SLOTS: usize = 2;

/// The version from which a ring is spent.
pub const SPENT: u32 = 4294967294;

/// How many slots a ring has on a store with these counts.
pub fn slots_of(members: usize, blocks: usize) -> usize
    ensures { result ≡ slotted members blocks }
{
    members.saturating_mul(blocks).min(MOST_SLOTS)
}

// Where a slot lies: the slots go over the members, block by block.
fn slot_address(slot: usize, members: usize) -> Address
    requires { 1 ≤ members }
    ensures { result ≡ slot_place members slot }
{
    Address {
        member: slot % members,
        block: slot / members,
    }
}

// The slot of a version.
fn slot_for(version: u32, slots: usize) -> usize
    requires { 1 ≤ slots }
    ensures { result ≡ version % slots }
{
    version as usize % slots
}

// The set of a list's stripes.
fn set_of(list: &[u32]) -> StripeSet
    requires { listed list.now ≡ true }
    ensures { listing result ≡ list.now }
{
    StripeSet::from_slice(list).unwrap()
}

// The record that follows a version, with these stripes.
fn record_after(version: u32, stripes: StripeSet) -> Record
    requires { (version < 4294967295) × (allowed (version + 1) (length (listing stripes)) ≡ true) }
    ensures { contents result ≡ contents_of (version + 1) (listing stripes) }
{
    Record::new(version + 1, stripes).unwrap()
}

// The record in a slot, if any.
fn found_in(slot: usize, bytes: &[u8; BLOCK_BYTES]) -> Option<StandingRecord>
    ensures { kept result ≡ at_slot slot (recorded bytes.now) }
{
    Record::decode(bytes).map(|record| StandingRecord { slot, record })
}

// Of a record and a later slot's, the one that stands.
fn higher(best: Option<StandingRecord>, next: Option<StandingRecord>) -> Option<StandingRecord>
    ensures { kept result ≡ higher_of (kept best) (kept next) }
{
    match (best, next) {
        (None, _) => next,
        (Some(b), Some(n)) if b.record.version() < n.record.version() => next,
        _ => best,
    }
}

impl<S: MemberStore> RingLog<S> {
    /// A log on a store. It is off until its first power-on.
    pub fn new(store: S) -> RingLog<S>
        ensures store { result.state.store ≡ store }
        ensures off { (meant result.state.awake (S.MemberStore.meaning result.state.store)).on ≡ false }
    {
        RingLog {
            state: LogState::new(store),
        }
    }

    /// The store that the log lies on, given back.
    pub fn into_store(self) -> S
        ensures { result ≡ self.state.store }
    {
        self.state.store
    }

    /// The record that stands, if any: its version and its stripes.
    pub fn standing_record(&self) -> Result<Option<Record>, LogRefusal>
        ensures { let s = S.MemberStore.meaning self.now.state.store in Sound self.now.state.awake s (kept self.now.state.standing) → Shows (self.now.state.awake && s.on) s result }
    {
        self.state.check_power()?;
        Ok(self.state.standing.map(|standing| standing.record))
    }

    // The stripes that are named.
    fn named(&self) -> StripeSet
        ensures { listing result ≡ stripes_of (kept self.now.state.standing) }
    {
        self.state
            .standing
            .map_or(StripeSet::empty(), |standing| standing.record.stripes())
    }

    // The version that stands, or 0.
    fn version(&self) -> u32
        ensures { result ≡ version_of (kept self.now.state.standing) }
    {
        self.state
            .standing
            .map_or(0, |standing| standing.record.version())
    }

    // The slot of the record that stands, or a number where none does.
    fn slot_or(&self, none: usize) -> usize
        ensures { result ≡ slot_or none (kept self.now.state.standing) }
    {
        self.state.standing.map_or(none, |standing| standing.slot)
    }

    // Stores a record in the slot of its version and bars.
    fn put(&mut self, next: Record) -> Result<(), LogRefusal>
        requires { (self.old.state.awake && (S.MemberStore.meaning self.old.state.store).on) ≡ true }
        ensures { Put (S.MemberStore.meaning self.old.state.store) self.old.state.awake (kept self.old.state.standing) (contents next) result (S.MemberStore.meaning self.new.state.store) self.new.state.awake (kept self.new.state.standing) }
    {
        let members = self.state.store.members();
        let slot = slot_for(next.version(), slots_of(members, self.state.store.blocks()));
        let bytes = next.encode();
        store_and_bar(&mut self.state.store, slot_address(slot, members), &bytes)?;
        self.state.standing = Some(StandingRecord { slot, record: next });
        Ok(())
    }

    // The version that stands, where a list may be named in a record after it.
    fn version_before(&self, list: &[u32]) -> Result<u32, LogRefusal>
        ensures { FollowsWith self.now.state.awake (S.MemberStore.meaning self.now.state.store) (kept self.now.state.standing) list.now result }
    {
        self.state.check_list(list)?;
        let version = self.version();
        if version >= SPENT {
            return Err(LogRefusal::Spent);
        }
        Ok(version)
    }

    // Zeroes every slot but one.
    fn zero_slots(&mut self, members: usize, slots: usize, keep: usize) -> Result<(), Refusal>
        requires { 1 ≤ members }
        ensures same { (self.new.state.awake ≡ self.old.state.awake) × (self.new.state.standing ≡ self.old.state.standing) }
        ensures calls { Performs (for_each (zero_slot members keep) slots) (S.MemberStore.meaning self.old.state.store) result (S.MemberStore.meaning self.new.state.store) }
    {
        for i in 0..slots {
            if i != keep {
                self.state
                    .store
                    .store(slot_address(i, members), &[0; BLOCK_BYTES])?;
            }
        }
        Ok(())
    }
}

impl<S: MemberStore> IntentLog for RingLog<S> {
    ghost meaning = { λ l. meant l.state.awake (S.MemberStore.meaning l.state.store) };

    ghost sound = { λ l. Sound l.state.awake (S.MemberStore.meaning l.state.store) (kept l.state.standing) };

    ghost marking = { λ l w r m. OwnMark l.state.awake (S.MemberStore.meaning l.state.store) w r (S.MemberStore.meaning m.state.store) };

    ghost freshening = { λ l w r m. OwnFresh l.state.awake (S.MemberStore.meaning l.state.store) w r (S.MemberStore.meaning m.state.store) };

    ghost clearing = { λ l r m. OwnClear l.state.awake (S.MemberStore.meaning l.state.store) r (S.MemberStore.meaning m.state.store) };

    ghost blanking = { λ l r m. OwnBlank l.state.awake (S.MemberStore.meaning l.state.store) r (S.MemberStore.meaning m.state.store) };

    ghost powering = { λ l r m. OwnPower l.state.awake (S.MemberStore.meaning l.state.store) r (S.MemberStore.meaning m.state.store) };

    ghost rests = { Prim.search rules };

    ghost single = { λ l h on c k.
        let s = S.MemberStore.meaning l.state.store in
        steady_single s.members s.blocks l.state.awake s (kept l.state.standing) (S.MemberStore.counts l.state.store).0 (S.MemberStore.stands l.state.store) (h on) c k };

    ghost lists = { Prim.search rules };

    fn is_named(&self, stripe: u32) -> Result<bool, LogRefusal> {
        self.state.check_power()?;
        Ok(self.named().contains(stripe))
    }

    fn next_named(&self, at: u32) -> Result<Option<u32>, LogRefusal> {
        self.state.check_power()?;
        Ok(self.named().least_from(at))
    }

    fn stands(&self) -> Result<bool, LogRefusal> {
        self.state.check_power()?;
        Ok(self.state.standing.is_some())
    }

    fn fits(&self, list: &[u32]) -> Result<bool, LogRefusal> {
        self.state.check_power()?;
        Ok(is_list(list) && self.named().union(&set_of(list)).is_some())
    }

    fn spent(&self) -> Result<bool, LogRefusal> {
        self.state.check_power()?;
        Ok(self.version() >= SPENT)
    }

    fn mark(&mut self, list: &[u32]) -> Result<(), LogRefusal> {
        let version = self.version_before(list)?;
        let union = self.named().union(&set_of(list));
        let stripes = union.ok_or(LogRefusal::DoesNotFit(list.len()))?;
        self.put(record_after(version, stripes))
    }

    fn fresh(&mut self, list: &[u32]) -> Result<(), LogRefusal> {
        let version = self.version_before(list)?;
        self.put(record_after(version, set_of(list)))
    }

    fn clear(&mut self) -> Result<(), LogRefusal> {
        self.state.check_power()?;
        if self.state.standing.is_some() && self.named().len() == 0 {
            return Ok(());
        }
        self.put(record_after(self.version(), StripeSet::empty()))
    }

    fn blank(&mut self) -> Result<(), LogRefusal> {
        self.state.check_power()?;
        let members = self.state.store.members();
        let slots = slots_of(members, self.state.store.blocks());
        let keep = self.slot_or(slots);
        self.zero_slots(members, slots, keep)?;
        self.state.store.barrier()?;
        if self.state.standing.is_none() {
            return Ok(());
        }
        store_and_bar(
            &mut self.state.store,
            slot_address(keep, members),
            &[0; BLOCK_BYTES],
        )?;
        self.state.standing = None;
        Ok(())
    }

    fn power_on(&mut self) -> Result<(), LogRefusal> {
        let members = self.state.store.members();
        let blocks = self.state.store.blocks();
        let slots = slots_of(members, blocks);
        if slots < LEAST_SLOTS {
            return Err(LogRefusal::TooSmall(members, blocks));
        }
        self.state.awake = false;
        self.state.store.power_on();
        let mut bytes = [0u8; BLOCK_BYTES];
        let mut best = None;
        for i in 0..slots {
            self.state.store.read(slot_address(i, members), &mut bytes)?;
            best = higher(best, found_in(i, &bytes));
        }
        self.state.standing = best;
        self.state.awake = true;
        Ok(())
    }
}
