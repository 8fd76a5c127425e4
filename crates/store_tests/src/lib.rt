//! Examples of stores.
#![tactic(auto)]

#[cfg(test)]
mod tests {
    use card_store::Card;
    use cover_store::Cover;
    use model::types::Fault;
    use std::process::Abort;
    use std::test::Fail;
    use store::base::{NotMade, SavingStore, Store, StoreFault};
    use store::echoes::echo;
    use store::flat_store::Flat;

    fn tells(rt: &impl Abort, fault: StoreFault, number: u32) -> Result<(), Fail> {
        let told = Fault {
            number,
            layer: 6,
            place: 0,
            list: 0,
        };
        assert_eq!(rt; Fault::from(fault), told);
        Ok(())
    }

    fn is_refused(rt: &impl Abort, call: Result<(), StoreFault>) -> Result<(), Fail> {
        match call {
            Ok(()) => Err(Fail::new("done")),
            Err(fault) => tells(rt, fault, 27),
        }
    }

    // What is handed back where no store is made.
    fn not_made<T: Drop, P: Drop>(
        rt: &impl Abort,
        new: Result<T, NotMade<P>>,
        number: u32,
    ) -> Result<P, Fail> {
        match new {
            Ok(_) => Err(Fail::new("made")),
            Err(NotMade { parts, fault }) => {
                tells(rt, fault, number)?;
                Ok(parts)
            }
        }
    }

    // A refused read leaves the buffer.
    fn not_read<S: Store>(rt: &impl Abort, s: &S, place: u64, n: usize) -> Result<(), Fail> {
        let mut buffer = [9u8; 8];
        is_refused(rt, s.read(place, n, &mut buffer))?;
        assert_eq!(rt; buffer, [9; 8]);
        Ok(())
    }

    // Reads of a store of the bytes 1 to 6.
    fn reads<S: Store>(rt: &impl Abort, s: &S) -> Result<(), Fail> {
        let far = u64::MAX;
        for (place, n) in [
            (7, 0),
            (6, 1),
            (3, 4),
            (0, 7),
            (far, 0),
            (far, 1),
            (far - 3, 4),
        ] {
            not_read(rt, s, place, n)?;
        }
        is_refused(rt, s.read(0, 6, &mut [9u8; 5]))?;
        let mut buffer = [9u8; 8];
        s.read(6, 0, &mut buffer)?;
        assert_eq!(rt; buffer, [9; 8]);
        s.read(1, 5, &mut buffer)?;
        assert_eq!(rt; buffer, [2, 3, 4, 5, 6, 9, 9, 9]);
        Ok(())
    }

    // A place past the length takes no write.
    fn not_written<S: SavingStore>(rt: &impl Abort, s: &mut S, place: u64) -> Result<(), Fail> {
        is_refused(rt, s.write(place, &[8, 8, 8, 8]))?;
        is_refused(rt, s.write(place, &[]))
    }

    // Writes to a store of the bytes 1 to 6: past its length they leave it, at its length they add to it.
    fn writes<S: SavingStore>(rt: &impl Abort, s: &mut S) -> Result<(), Fail> {
        for place in [7, u64::MAX - 3, u64::MAX] {
            not_written(rt, s, place)?;
        }
        is_refused(rt, echo(s, 0, &[8, 8], &mut [0u8; 1]))?;
        s.write(6, &[])?;
        assert_eq!(rt; s.len(), 6);
        reads(rt, s)?;
        s.write(6, &[7])?;
        assert_eq!(rt; s.len(), 7);
        Ok(())
    }

    // Writes at the ceiling of a full store, around it and past it.
    fn ends<S: SavingStore>(rt: &impl Abort, s: &mut S, most: u64) -> Result<(), Fail> {
        let last = most.saturating_sub(1);
        s.write(most, &[])?;
        is_refused(rt, s.write(most, &[9]))?;
        is_refused(rt, s.write(last, &[9, 9]))?;
        not_written(rt, s, most.saturating_add(1))?;
        let mut back = [0u8; 1];
        s.read(last, 1, &mut back)?;
        assert_eq!(rt; back, [8]);
        echo(s, last, &[9], &mut back)?;
        assert_eq!(rt; back, [9]);
        Ok(())
    }

    // Byte by byte up to the ceiling.
    fn fills<S: SavingStore>(rt: &impl Abort, s: &mut S) -> Result<(), Fail> {
        let most = s.ceiling();
        for place in s.len()..most {
            s.write(place, &[8])?;
        }
        ends(rt, s, most)?;
        assert_eq!(rt; s.len(), most);
        Ok(())
    }

    // The same calls on any store of at most 6 bytes with room for more.
    fn tried<S: SavingStore>(rt: &impl Abort, s: &mut S) -> Result<(), Fail> {
        let mut back = [0u8; 6];
        echo(s, 0, &[1, 2, 3, 4, 5, 6], &mut back)?;
        assert_eq!(rt; back, [1, 2, 3, 4, 5, 6]);
        writes(rt, s)?;
        fills(rt, s)
    }

    #[test]
    fn flat(rt: HostRuntime) -> Result<(), Fail> {
        let buffer = vec![in rt.alloc(); 0u8; 16]?;
        let buffer = not_made(&rt, Flat::new(buffer, 17), 28)?;
        assert_eq!(rt; buffer.len(), 16);
        let mut s = Flat::new(buffer, 0)?;
        tried(&rt, &mut s)?;
        assert_eq!(rt; s.ceiling(), 16);
        Ok(())
    }

    #[test]
    fn card(rt: HostRuntime) -> Result<(), Fail> {
        let buffer = vec![in rt.alloc(); 0u8; 2048]?;
        let blocks = vec![in rt.alloc(); 3u32, 1]?;
        let mut s = Card::new(buffer, blocks, 0)?;
        tried(&rt, &mut s)?;
        assert_eq!(rt; s.ceiling(), 1024);
        Ok(())
    }

    // The buffer, handed back with a map that does not fit.
    fn without(
        rt: &(impl Abort + AllocGlobal),
        buffer: Vec<u8>,
        map: &[u32],
        len: u64,
    ) -> Result<Vec<u8>, Fail> {
        let blocks = map.to_vec(rt.alloc())?;
        let (buffer, blocks) = not_made(rt, Card::new(buffer, blocks, len), 28)?;
        assert_eq!(rt; blocks.as_slice(), map);
        Ok(buffer)
    }

    #[test]
    fn maps(rt: HostRuntime) -> Result<(), Fail> {
        let buffer = vec![in rt.alloc(); 0u8; 2047]?;
        let buffer = without(&rt, buffer, &[], 0)?;
        let buffer = without(&rt, buffer, &[0, 1, 0], 0)?;
        // block 3 is not whole
        let buffer = without(&rt, buffer, &[0, 3], 0)?;
        let buffer = without(&rt, buffer, &[0, 2], 1025)?;
        assert_eq!(rt; buffer.len(), 2047);
        let blocks = [0u32, 2].to_vec(rt.alloc())?;
        let s = Card::new(buffer, blocks, 1024)?;
        assert_eq!(rt; s.len(), 1024);
        Ok(())
    }

    #[test]
    fn long_maps(rt: HostRuntime) -> Result<(), Fail> {
        let buffer = vec![in rt.alloc(); 0u8; 66048]?;
        let blocks = (0..129u32).collect::<Vec<u32>>(rt.alloc())?;
        let (buffer, mut blocks) = not_made(&rt, Card::new(buffer, blocks, 0), 28)?;
        let _ = blocks.pop();
        let s = Card::new(buffer, blocks, 65536)?;
        assert_eq!(rt; s.len(), 65536);
        Ok(())
    }

    // A write and its read over three blocks, which do not lie in the order of the map.
    #[test]
    fn over_blocks(rt: HostRuntime) -> Result<(), Fail> {
        let buffer = vec![in rt.alloc(); 0u8; 2048]?;
        let blocks = vec![in rt.alloc(); 3u32, 1, 0]?;
        let mut s = Card::new(buffer, blocks, 1536)?;
        let new = (0..1100u32)
            .map(|i| (i % 251) as u8)
            .collect::<Vec<u8>>(rt.alloc())?;
        let mut back = vec![in rt.alloc(); 0u8; 1100]?;
        echo(&mut s, 300, new.as_slice(), back.as_mut_slice())?;
        assert_eq!(rt; back.as_slice(), new.as_slice());
        let mut edge = [0u8; 4];
        s.read(510, 4, &mut edge)?;
        assert_eq!(rt; edge, [210, 211, 212, 213]);
        s.read(1398, 4, &mut edge)?;
        assert_eq!(rt; edge, [94, 95, 0, 0]);
        Ok(())
    }

    #[test]
    fn prints(rt: HostRuntime) -> Result<(), Fail> {
        let text = format!(in rt.alloc(); "{}", StoreFault::Range)?;
        assert_eq!(rt; text.as_str(), "27 range layer 6 place 0 list 0");
        let buffer = vec![in rt.alloc(); 0u8; 16]?;
        match Flat::new(buffer, 17) {
            Ok(_) => Err(Fail::new("made")),
            Err(refused) => {
                let text = format!(in rt.alloc(); "{refused}")?;
                assert_eq!(rt; text.as_str(), "28 map layer 6 place 0 list 0");
                Ok(())
            }
        }
    }

    #[test]
    fn covered_card(rt: HostRuntime) -> Result<(), Fail> {
        let buffer = vec![in rt.alloc(); 0u8; 4096]?;
        let blocks = vec![in rt.alloc(); 7u32, 0, 4]?;
        let card = Card::new(buffer, blocks, 512)?;
        let mut s = Cover::new(card, 1)?;
        tried(&rt, &mut s)?;
        assert_eq!(rt; s.ceiling(), 1024);
        Ok(())
    }

    #[test]
    fn covers(rt: HostRuntime) -> Result<(), Fail> {
        let buffer = vec![in rt.alloc(); 0u8; 5120]?;
        let flat = Flat::new(buffer, 4614)?;
        let flat = not_made(&rt, Cover::new(flat, 9), 29)?;
        let flat = not_made(&rt, Cover::new(flat, u64::MAX), 29)?;
        let eight = Cover::new(flat, 8)?;
        // 518 bytes are left
        let eight = not_made(&rt, Cover::new(eight, 2), 29)?;
        let mut nine = Cover::new(eight, 1)?;
        assert_eq!(rt; nine.len(), 6);
        tried(&rt, &mut nine)?;
        let none = Cover::new(nine, 0)?;
        assert_eq!(rt; none.len(), 512);
        assert_eq!(rt; none.ceiling(), 512);
        Ok(())
    }
}
