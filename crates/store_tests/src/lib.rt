// Tests of the member stores: the kinds stacked, all refusals, and a cut at each call of a short script.
#![tactic(auto)]

#[cfg(test)]
mod tests {
    use block_address::Address;
    use fuse::Fuse;
    use member_store::MemberStore;
    use member_store::refusal::Refusal;
    use memory_store::memory::MemoryStore;
    use remote_fuse::RemoteFuse;
    use remote_fuse::switch::FuseSwitch;
    use std::alloc::Global;
    use std::test::Fail;
    use write_buffer::buffer::WriteBuffer;

    // The stores of the script, to as many blocks of member 0.
    const STORES: u8 = 10;

    // 2 members with 10 blocks of zeros each.
    fn zeros(heap: Global) -> Result<MemoryStore, Fail> {
        let bytes = vec![in heap; 0u8; 10240]?;
        MemoryStore::new(2, 10, bytes).map_err(|_| Fail::new("no memory store"))
    }

    fn buffered<S: MemberStore + Drop>(heap: Global, below: S) -> Result<WriteBuffer<S>, Fail> {
        WriteBuffer::new(heap, below).map_err(|_| Fail::new("no write buffer"))
    }

    // The block of the script with this number.
    fn place(block: u8) -> Address {
        Address {
            member: 0,
            block: usize::from(block),
        }
    }

    // Fills block after block and then bars, until a refusal.
    fn script<S: MemberStore>(store: &mut S) -> Result<(), Refusal> {
        for block in 0..STORES {
            store.store(place(block), &[block + 1; 512])?;
        }
        store.barrier()
    }

    // How many of the stores stand: the first ones, all others being lost.
    fn standing<S: MemberStore>(store: &mut S) -> Option<u8> {
        let mut count = 0;
        for block in 0..STORES {
            let mut into = [99u8; 512];
            let _ = store.read(place(block), &mut into);
            if into[0] == block + 1 && into[511] == block + 1 && count == block {
                count = block + 1;
            } else if into[0] != 0 || into[511] != 0 {
                return None;
            }
        }
        Some(count)
    }

    fn no_power_at(block: u8) -> Result<(), Refusal> {
        Err(Refusal::PowerOff(Some(place(block))))
    }

    // What the script answers, and how many of its stores stand when power is back.
    fn cut<S: MemberStore + Drop>(mut store: S) -> (Result<(), Refusal>, Option<u8>) {
        let answer = script(&mut store);
        store.power_on();
        (answer, standing(&mut store))
    }

    // The disks take `left` stores and barriers.
    fn cut_below(heap: Global, left: u8) -> Result<(Result<(), Refusal>, Option<u8>), Fail> {
        let fuse = Fuse::new(zeros(heap)?, Some(usize::from(left)));
        Ok(cut(buffered(heap, fuse)?))
    }

    // The buffer takes `left` stores and barriers.
    fn cut_above(heap: Global, left: u8) -> Result<(Result<(), Refusal>, Option<u8>), Fail> {
        let buffer = buffered(heap, zeros(heap)?)?;
        Ok(cut(Fuse::new(buffer, Some(usize::from(left)))))
    }

    // The refusal tells the block that was passed below when power went.
    #[test]
    fn cuts_under_the_buffer(rt: HostRuntime) -> Result<(), Fail> {
        for left in 0..STORES {
            let (answer, count) = cut_below(rt.alloc(), left)?;
            assert!(rt; answer == no_power_at(left));
            assert!(rt; count == Some(left));
        }
        let (at_barrier, stood) = cut_below(rt.alloc(), STORES)?;
        assert!(rt; at_barrier == Err(Refusal::PowerOff(None)));
        assert!(rt; stood == Some(STORES));
        let (done, all) = cut_below(rt.alloc(), STORES + 1)?;
        assert!(rt; done.is_ok() && all == Some(STORES));
        Ok(())
    }

    // Of the stores that the buffer took, all but the last 8 stand.
    #[test]
    fn cuts_over_the_buffer(rt: HostRuntime) -> Result<(), Fail> {
        for left in 0..STORES {
            let (answer, count) = cut_above(rt.alloc(), left)?;
            assert!(rt; answer == no_power_at(left));
            assert!(rt; count == Some(left.saturating_sub(8)));
        }
        let (done, all) = cut_above(rt.alloc(), STORES + 1)?;
        assert!(rt; done.is_ok() && all == Some(STORES));
        Ok(())
    }

    #[test]
    fn fuse_over_fuse(rt: HostRuntime) -> Result<(), Fail> {
        let mut store = Fuse::new(Fuse::new(zeros(rt.alloc())?, Some(1)), Some(3));
        assert!(rt; script(&mut store) == no_power_at(1));
        assert!(rt; !store.powered());
        let mut into = [7u8; 512];
        let at = Address {
            member: 1,
            block: 2,
        };
        assert!(rt; store.read(at, &mut into) == Err(Refusal::PowerOff(Some(at))));
        assert!(rt; into[0] == 7);
        assert!(rt; store.barrier() == Err(Refusal::PowerOff(None)));
        store.power_on();
        assert!(rt; standing(&mut store) == Some(1));
        assert!(rt; script(&mut store).is_ok());
        Ok(())
    }

    // The switch sets the fuse; a power-on removes the setting, also one that the fuse has not taken yet.
    #[test]
    fn fuse_set_from_outside(rt: HostRuntime) -> Result<(), Fail> {
        let switch = FuseSwitch::new(rt.alloc())?;
        for left in 0..STORES {
            let mut store = RemoteFuse::new(zeros(rt.alloc())?, switch.clone()?);
            switch.cut_after(usize::from(left));
            assert!(rt; script(&mut store) == no_power_at(left));
            assert!(rt; !store.powered());
            switch.cut_after(0);
            store.power_on();
            assert!(rt; standing(&mut store) == Some(left));
            assert!(rt; script(&mut store).is_ok());
            switch.cut_after(usize::from(STORES));
            assert!(rt; script(&mut store) == Err(Refusal::PowerOff(None)));
        }
        Ok(())
    }

    #[test]
    fn refusals_in_order(rt: HostRuntime) -> Result<(), Fail> {
        let mut store = zeros(rt.alloc())?;
        let mut short = [7u8; 511];
        let nowhere = Address {
            member: 2,
            block: 10,
        };
        assert!(rt; store.read(nowhere, &mut short) == Err(Refusal::NoMember(2)));
        let past_last = Address {
            member: 1,
            block: 10,
        };
        assert!(rt; store.read(past_last, &mut short) == Err(Refusal::NoBlock(10)));
        let last = Address {
            member: 1,
            block: 9,
        };
        assert!(rt; store.read(last, &mut short) == Err(Refusal::WrongLength(511)));
        assert!(rt; short[0] == 7);
        assert!(rt; Refusal::NoBlock(10).number() == 7 && Refusal::NoBlock(10).place().is_none());
        assert!(rt; Refusal::PowerOff(None).number() == 1);
        assert!(rt; Refusal::WrongLength(511).number() == 8);
        Ok(())
    }

    // A refused making gives the bytes back.
    #[test]
    fn bad_counts(rt: HostRuntime) -> Result<(), Fail> {
        for (members, blocks) in [(0, 1), (1, 0), (2, 1), (usize::MAX, usize::MAX)] {
            let bytes = vec![in rt.alloc(); 5u8; 1023]?;
            let Err(e) = MemoryStore::new(members, blocks, bytes) else {
                return Err(Fail::new("made"));
            };
            assert!(rt; e.number() == 2 && e.members == members && e.blocks == blocks);
            assert!(rt; e.bytes.len() == 1023);
        }
        let bytes = vec![in rt.alloc(); 5u8; 1023]?;
        let memory = MemoryStore::new(1, 1, bytes).map_err(|_| Fail::new("not made"))?;
        assert!(rt; memory.into_bytes().len() == 1023);
        Ok(())
    }
}
