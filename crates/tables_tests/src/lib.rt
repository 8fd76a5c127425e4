//! Examples of the room: which fragments it takes in, and how many.
#![tactic(auto)]

#[cfg(test)]
mod tests {
    use bounded::Full;
    use model::marks::NIL;
    use model::types::Span;
    use refusals::faults::{ListFault, LogFault};
    use std::test::Fail;
    use tables::places::{Kind, Misplaced};
    use tables::queue::Named;
    use tables::room::{Room, Row};

    const END: u64 = 65_536;

    fn span(start: u64, size: u64) -> Span {
        Span { start, size }
    }

    fn row(id: u32) -> Row {
        Row {
            id,
            first: 0,
            fragments: 1,
            nodes: 1,
            free: 1100,
        }
    }

    #[test]
    fn places(rt: HostRuntime) -> Result<(), Fail> {
        let mut room = Room::new(rt.alloc(), 4)?;
        for (kind, start, size, wanted) in [
            // absent
            (Kind::Log, 0, 0, Err(Misplaced::Outside)),
            (Kind::List, NIL.start, NIL.size, Err(Misplaced::Outside)),
            // under the least size
            (Kind::Log, 2048, 11, Err(Misplaced::Outside)),
            (Kind::List, 2048, 35, Err(Misplaced::Outside)),
            // past the file's end
            (Kind::Log, END - 11, 12, Err(Misplaced::Outside)),
            (Kind::Log, u64::MAX, 12, Err(Misplaced::Outside)),
            (Kind::Log, 1024, u64::MAX, Err(Misplaced::Outside)),
            // over the header's last byte
            (Kind::Log, 1023, 12, Err(Misplaced::Overlap)),
            // behind the header, and up to the file's end
            (Kind::List, 1024, 36, Ok(())),
            (Kind::Log, END - 12, 12, Ok(())),
            // over the last byte of another, over all of it, and behind it
            (Kind::Log, 1059, 12, Err(Misplaced::Overlap)),
            (Kind::List, 1024, 36, Err(Misplaced::Overlap)),
            (Kind::Log, 1060, 12, Ok(())),
        ] {
            assert_eq!(rt;
                room.fragments.admit(kind, END, span(start, size)),
                wanted,
                "at {start}, {size}"
            );
        }
        let taken = [span(1024, 36), span(END - 12, 12), span(1060, 12)];
        assert_eq!(rt; room.fragments.as_slice(), taken.as_slice());
        Ok(())
    }

    #[test]
    fn fragments(rt: HostRuntime) -> Result<(), Fail> {
        let mut room = Room::new(rt.alloc(), 4)?;
        for i in 0..2048 {
            assert_eq!(rt;
                room.fragments
                    .admit(Kind::Log, END, span(1024 + 12 * i, 12)),
                Ok(()),
                "{i}"
            );
        }
        assert_eq!(rt;
            room.fragments.admit(Kind::Log, END, span(50_000, 12)),
            Err(Misplaced::Full)
        );
        // one that is also outside, and one that also overlaps
        assert_eq!(rt;
            room.fragments.admit(Kind::Log, END, span(50_000, 11)),
            Err(Misplaced::Outside)
        );
        assert_eq!(rt;
            room.fragments.admit(Kind::Log, END, span(1024, 12)),
            Err(Misplaced::Full)
        );
        assert_eq!(rt; room.fragments.len(), 2048);
        room.clear();
        assert_eq!(rt; room.fragments.len(), 0);
        assert_eq!(rt;
            room.fragments.admit(Kind::Log, END, span(1024, 12)),
            Ok(())
        );
        assert_eq!(rt; room.fragments.as_slice(), [span(1024, 12)].as_slice());
        Ok(())
    }

    #[test]
    fn lists(rt: HostRuntime) -> Result<(), Fail> {
        let mut room = Room::new(rt.alloc(), 4)?;
        for i in 0..1030 {
            room.queue.name(8 * i, span(1024, 36));
        }
        let last = Named {
            field: 8 * 1024,
            span: span(1024, 36),
        };
        assert_eq!(rt; room.queue.get(1024), Some(last));
        assert_eq!(rt; room.queue.get(1025), None);
        for id in 0x10..0x410 {
            assert_eq!(rt; room.lists.push(row(id)), Ok(()));
        }
        assert_eq!(rt; room.lists.push(row(0x410)), Err(Full));
        assert_eq!(rt; room.lists.len(), 1024);
        room.clear();
        assert_eq!(rt; room.lists.len(), 0);
        assert_eq!(rt; room.queue.get(0), None);
        Ok(())
    }

    #[test]
    fn refusals(rt: HostRuntime) {
        assert_eq!(rt; Kind::Log.past_last(END, span(2048, 12)), Misplaced::Full);
        assert_eq!(rt;
            Kind::Log.past_last(END, span(2048, 11)),
            Misplaced::Outside
        );
        assert_eq!(rt;
            Kind::List.past_last(END, span(2048, 35)),
            Misplaced::Outside
        );
        assert_eq!(rt;
            LogFault::from(Misplaced::Overlap.at(0xB0)),
            LogFault::Overlap { place: 0xB0 }
        );
        assert_eq!(rt;
            ListFault::from(Misplaced::Full.at(0xB0)),
            ListFault::Full { place: 0xB0 }
        );
    }
}
