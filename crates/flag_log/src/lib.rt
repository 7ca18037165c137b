//! The flag log: one block that says whether any stripe may have been written to.
#![tactic(auto)]

ghost use Rattle.std.specs.Prelude.{◌≡◌, true, false, ◌&&◌, if◌then◌else◌, None};
ghost use Rattle.std.proofs.Common.{◌∙◌, ap, rules};
ghost use Rattle.flag_log.specs.Form.{every, flag_block, byte_record, flag_record};
ghost use Rattle.flag_log.specs.Flag.{flag as meant, Sound, standing_of};
ghost use Rattle.flag_log.specs.Own.{OwnMark, OwnFresh, OwnClear, OwnBlank, OwnPower, Shows};
ghost use Rattle.flag_log.specs.Puts.{Put, first_block, standing_from};

pub mod flag;

use block_address::Address;
use device_calls::store_and_bar;
use flag::{FlagLog, FlagRecord};
use intent_log::refusal::LogRefusal;
use intent_log::state::LogState;
use intent_log::{IntentLog, is_list};
use member_store::{BLOCK_BYTES, MemberStore};
use zero_bytes::all_zero;

// Where the record lies.
const FIRST: Address = Address {
    member: 0,
    block: 0,
};

// The block of a record, or zeros where there is none.
fn block_of(flag: Option<FlagRecord>) -> [u8; BLOCK_BYTES]
    ensures { result ≡ flag_block flag }
{
    let mut bytes = [0u8; BLOCK_BYTES];
    bytes[0] = flag.map_or(0, u8::from);
    bytes
}

// The record that a first byte says, where the other bytes are zero.
fn record_of(first: u8, padded: bool) -> Option<FlagRecord>
    ensures { result ≡ (if padded then byte_record first else None) }
{
    if !padded {
        return None;
    }
    FlagRecord::try_from(first).ok()
}

// The record that a block holds, if any.
fn record_in(bytes: &[u8; BLOCK_BYTES]) -> Option<FlagRecord>
    ensures { result ≡ flag_record bytes.now }
{
    record_of(bytes[0], all_zero(&bytes[1..]))
}

impl<S: MemberStore> FlagLog<S> {
    /// A log on a store. It is off until its first power-on.
    pub fn new(store: S) -> FlagLog<S>
        ensures store { result.state.store ≡ store }
        ensures off { (meant result.state.awake (S.MemberStore.meaning result.state.store)).on ≡ false }
    {
        FlagLog {
            state: LogState::new(store),
        }
    }

    /// The store that the log lies on, given back.
    pub fn into_store(self) -> S
        ensures { result ≡ self.state.store }
    {
        self.state.store
    }

    /// The record that stands, if any.
    pub fn standing_record(&self) -> Result<Option<FlagRecord>, LogRefusal>
        ensures { let s = S.MemberStore.meaning self.now.state.store in Sound self.now.state.awake s self.now.state.standing → Shows (self.now.state.awake && s.on) s result }
    {
        self.state.check_power()?;
        Ok(self.state.standing)
    }

    fn names_every(&self) -> bool
        ensures { result ≡ every self.now.state.standing }
    {
        matches!(self.state.standing, Some(FlagRecord::NamesEvery))
    }

    // Stores a record and bars.
    fn put(&mut self, next: Option<FlagRecord>) -> Result<(), LogRefusal>
        requires { (self.old.state.awake && (S.MemberStore.meaning self.old.state.store).on) ≡ true }
        ensures { Put (S.MemberStore.meaning self.old.state.store) self.old.state.awake self.old.state.standing next result (S.MemberStore.meaning self.new.state.store) self.new.state.awake self.new.state.standing }
    {
        store_and_bar(&mut self.state.store, FIRST, &block_of(next))?;
        self.state.standing = next;
        Ok(())
    }
}

impl<S: MemberStore> IntentLog for FlagLog<S> {
    ghost meaning = { λ l. meant l.state.awake (S.MemberStore.meaning l.state.store) };

    ghost sound = { λ l. Sound l.state.awake (S.MemberStore.meaning l.state.store) l.state.standing };

    ghost marking = { λ l w r m. OwnMark l.state.awake (S.MemberStore.meaning l.state.store) w r (S.MemberStore.meaning m.state.store) };

    ghost freshening = { λ l w r m. OwnFresh l.state.awake (S.MemberStore.meaning l.state.store) w r (S.MemberStore.meaning m.state.store) };

    ghost clearing = { λ l r m. OwnClear l.state.awake (S.MemberStore.meaning l.state.store) r (S.MemberStore.meaning m.state.store) };

    ghost blanking = { λ l r m. OwnBlank l.state.awake (S.MemberStore.meaning l.state.store) r (S.MemberStore.meaning m.state.store) };

    ghost powering = { λ l r m. OwnPower (S.MemberStore.meaning l.state.store) r (S.MemberStore.meaning m.state.store) };

    ghost rests = { Prim.search rules };

    ghost single = { λ l h on c k.
        let s = S.MemberStore.meaning l.state.store in
        let q = standing_from l.state.awake s (first_block s (S.MemberStore.counts l.state.store)) (S.MemberStore.stands l.state.store) c k in
        q.1.1 ∙ ap (λ v. standing_of (flag_record v)) ((h on).single q.0 q.1.0) };

    ghost lists = { Prim.search rules };

    fn is_named(&self, stripe: u32) -> Result<bool, LogRefusal> {
        self.state.check_power()?;
        Ok(self.names_every())
    }

    fn next_named(&self, at: u32) -> Result<Option<u32>, LogRefusal> {
        self.state.check_power()?;
        Ok(self.names_every().then_some(at))
    }

    fn stands(&self) -> Result<bool, LogRefusal> {
        self.state.check_power()?;
        Ok(self.state.standing.is_some())
    }

    fn fits(&self, list: &[u32]) -> Result<bool, LogRefusal> {
        self.state.check_power()?;
        Ok(is_list(list))
    }

    fn spent(&self) -> Result<bool, LogRefusal> {
        self.state.check_power()?;
        Ok(false)
    }

    fn mark(&mut self, list: &[u32]) -> Result<(), LogRefusal> {
        self.state.check_list(list)?;
        self.put(Some(FlagRecord::NamesEvery))
    }

    fn fresh(&mut self, list: &[u32]) -> Result<(), LogRefusal> {
        self.state.check_list(list)?;
        self.put(Some(FlagRecord::NamesEvery))
    }

    fn clear(&mut self) -> Result<(), LogRefusal> {
        self.state.check_power()?;
        self.put(Some(FlagRecord::NamesNothing))
    }

    fn blank(&mut self) -> Result<(), LogRefusal> {
        self.state.check_power()?;
        self.put(None)
    }

    fn power_on(&mut self) -> Result<(), LogRefusal> {
        self.state.awake = false;
        self.state.store.power_on();
        let mut bytes = [0u8; BLOCK_BYTES];
        self.state.store.read(FIRST, &mut bytes)?;
        self.state.standing = record_in(&bytes);
        self.state.awake = true;
        Ok(())
    }
}
