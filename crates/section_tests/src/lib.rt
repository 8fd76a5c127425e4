//! Examples of opening: a file with one list and one transaction, with room for its counts and without.
#![tactic(auto)]

#[cfg(test)]
mod tests {
    use model::marks::{FILE_FORMAT, FILE_TYPE, FIRST_MARK, LAST_MARK, NIL};
    use model::types::{Fault, Span};
    use refusals::faults::OpenFault;
    use section::access::Figures;
    use section::files::File;
    use section::space::Space;
    use std::test::Fail;
    use store::base::{SavingStore, StoreFault};
    use store::flat_store::Flat;
    use tables::room::Row;

    // The root's fragment has 64 bytes, the log's two entries and a next reference.
    const ROOT: u64 = 1024;

    const LOG: u64 = 1088;

    const END: u64 = 1116;

    fn put_span(store: &mut Flat, place: u64, span: Span) -> Result<(), StoreFault> {
        store.write(place, &span.start.to_le_bytes())?;
        store.write(place.saturating_add(8), &span.size.to_le_bytes()[..4])
    }

    // The header, for so many finished transactions.
    fn put_header(store: &mut Flat, count: u32) -> Result<(), StoreFault> {
        store.write(0x00, &FILE_TYPE)?;
        store.write(0x30, &FILE_FORMAT)?;
        store.write(0x4C, &0x2A_u32.to_le_bytes())?;
        store.write(0x60, &count.to_le_bytes())?;
        put_span(store, 0x94, NIL)?;
        put_span(
            store,
            0xA0,
            Span {
                start: LOG,
                size: 28,
            },
        )?;
        put_span(
            store,
            0xAC,
            Span {
                start: ROOT,
                size: 64,
            },
        )?;
        store.write(0xC4, &END.to_le_bytes())
    }

    // List 16 with one node of five bytes' payload, and zeros behind it.
    fn put_root(store: &mut Flat) -> Result<(), StoreFault> {
        store.write(ROOT, &FIRST_MARK.to_le_bytes())?;
        store.write(1032, &16u32.to_le_bytes())?;
        store.write(1040, &0x8000_2401_u32.to_le_bytes())?;
        store.write(1044, b"plain")?;
        put_span(store, 1068, NIL)?;
        store.write(1080, &LAST_MARK.to_le_bytes())
    }

    // A count of 1 for list 16, and the sentinel with the sum of its eight bytes.
    fn put_log(store: &mut Flat) -> Result<(), StoreFault> {
        store.write(LOG, &[16, 0, 0, 0, 1, 0, 0, 0])?;
        store.write(1096, &1u32.to_le_bytes())?;
        store.write(1100, &0xa125_8927_u32.to_le_bytes())?;
        put_span(store, 1104, NIL)
    }

    // A file over the example, with room for so many counts.
    fn example(rt: &HostRuntime, changes: usize) -> Result<File<Flat>, Fail> {
        let mut store = Flat::new(vec![in rt.alloc(); 0u8; 1116]?, END)?;
        put_header(&mut store, 1)?;
        put_root(&mut store)?;
        put_log(&mut store)?;
        Ok(File::new(store, Space::new(rt.alloc(), changes)?))
    }

    #[test]
    fn room_enough(rt: HostRuntime) -> Result<(), Fail> {
        let mut file = example(&rt, 1)?;
        let figures = Figures {
            count: 1,
            end: END,
            lists: 1,
            fragments: 2,
            percent: 100,
        };
        assert_eq!(rt; file.open(7), Ok(figures));
        let row = Row {
            id: 16,
            first: 1,
            fragments: 1,
            nodes: 1,
            free: 1049,
        };
        assert_eq!(rt; file.lists(), [row].as_slice());
        assert_eq!(rt; file.open(8), Err(OpenFault::Busy));
        assert_eq!(rt; file.lists(), [row].as_slice());
        Ok(())
    }

    // Each try tells the first count that there is no room for, and leaves the file shut.
    #[test]
    fn room_too_small(rt: HostRuntime) -> Result<(), Fail> {
        let mut file = example(&rt, 0)?;
        for mark in [7, 8] {
            let Err(fault) = file.open(mark) else {
                return Err(Fail::new("opened"));
            };
            let told = Fault {
                number: 100,
                layer: 2,
                place: LOG,
                list: 0,
            };
            assert_eq!(rt; Fault::from(fault), told);
        }
        Ok(())
    }
}
