//! Examples of looks: a file with two lists and two transactions, with a node behind each list's last one and a third transaction in its log.
#![tactic(auto)]

#[cfg(test)]
mod sample;

#[cfg(test)]
mod tests {
    use crate::sample::{BRANCH, DATA, example};
    use looks::seen::NodeSeen;
    use model::types::{Fault, Span};
    use refusals::calls::LookFault;
    use section::files::File;
    use std::process::Abort;
    use std::test::Fail;
    use store::flat_store::Flat;

    const MAX: u64 = u64::MAX;

    // The example, opened as a file with so many finished transactions.
    fn opened(rt: &HostRuntime, count: u32) -> Result<File<Flat>, Fail> {
        let mut file = example(rt, count)?;
        file.open(7)?;
        Ok(file)
    }

    // A look is refused with this number.
    fn is_refused<T: Drop>(
        rt: &impl Abort,
        look: Result<T, LookFault>,
        number: u32,
    ) -> Result<(), Fail> {
        let Err(fault) = look else {
            return Err(Fail::new("answered"));
        };
        let told = Fault {
            number,
            layer: 5,
            place: 0,
            list: 0,
        };
        assert_eq!(rt; Fault::from(fault), told, "where {number} is expected");
        Ok(())
    }

    // All looks at a node are refused with this number, and no buffer changes.
    fn none_sees(
        rt: &impl Abort,
        file: &File<Flat>,
        k: u64,
        list: u32,
        index: u64,
        number: u32,
    ) -> Result<(), Fail> {
        let mut buffer = [9u8; 16];
        is_refused(rt, file.node(k, list, index, &mut buffer), number)?;
        is_refused(rt, file.data(k, list, index, 0, 0, &mut buffer), number)?;
        assert_eq!(rt; buffer, [9; 16]);
        is_refused(rt, file.alike(k, list, index, 16, 0), number)?;
        is_refused(rt, file.alike(k, 16, 0, list, index), number)
    }

    // Each count of nodes is that of the finished transactions, and the node behind it is not seen.
    #[test]
    fn not_finished(rt: HostRuntime) -> Result<(), Fail> {
        let file = opened(&rt, 2)?;
        for (k, list, nodes) in [
            (1, 16, 3),
            (2, 16, 4),
            (1, 17, 0),
            (2, 17, 2),
            (1, 18, 0),
            (2, 18, 0),
        ] {
            assert_eq!(rt; file.count_at(k, list), Ok(nodes), "list {list} at {k}");
            for index in [u64::from(nodes), 4_294_967_296, MAX] {
                none_sees(&rt, &file, k, list, index, 26)?;
            }
        }
        Ok(())
    }

    // Looks go back to the counts from 1 to the file's.
    #[test]
    fn no_count(rt: HostRuntime) -> Result<(), Fail> {
        let file = opened(&rt, 2)?;
        for k in [0, 3, 4_294_967_297, MAX] {
            is_refused(&rt, file.count_at(k, 16), 25)?;
            none_sees(&rt, &file, k, 16, 0, 25)?;
        }
        Ok(())
    }

    // With the third transaction finished too, the same bytes have two nodes more; looks back answer as before.
    #[test]
    fn finished(rt: HostRuntime) -> Result<(), Fail> {
        let file = opened(&rt, 3)?;
        for (k, list, nodes) in [(1, 16, 3), (2, 16, 4), (3, 16, 5), (2, 17, 2), (3, 17, 3)] {
            assert_eq!(rt; file.count_at(k, list), Ok(nodes), "list {list} at {k}");
        }
        let mut buffer = [9u8; 5];
        let node = NodeSeen {
            id: 4,
            base: 0,
            reference: None,
            payload: 4,
        };
        assert_eq!(rt; file.node(3, 16, 4, &mut buffer), Ok(node));
        assert_eq!(rt; &buffer, b"lost\x09");
        none_sees(&rt, &file, 2, 16, 4, 26)
    }

    // A payload goes to the buffer's front, and the rest of the buffer is as it was.
    #[test]
    fn nodes(rt: HostRuntime) -> Result<(), Fail> {
        let file = opened(&rt, 2)?;
        let data = Some(Span {
            start: DATA,
            size: 11,
        });
        let branch = Some(Span {
            start: BRANCH,
            size: 96,
        });
        for (k, list, index, id, base, reference, payload, bytes) in [
            (1, 16, 0, 1, 0, None, 5, b"plain..."),
            (2, 16, 0, 1, 0, None, 5, b"plain..."),
            (1, 16, 1, 2, 1, data, 4, b"note...."),
            (2, 16, 2, 1, 0, None, 5, b"plain..."),
            (2, 16, 3, 3, 2, branch, 0, b"........"),
            (2, 17, 1, 1, 0, None, 5, b"plait..."),
        ] {
            let mut buffer = [b'.'; 8];
            let node = NodeSeen {
                id,
                base,
                reference,
                payload,
            };
            assert_eq!(rt;
                file.node(k, list, index, &mut buffer),
                Ok(node),
                "node {index} of {list} at {k}"
            );
            assert_eq!(rt; &buffer, bytes);
        }
        Ok(())
    }

    // A buffer takes a payload of its own size and no larger one.
    #[test]
    fn small_buffers(rt: HostRuntime) -> Result<(), Fail> {
        let file = opened(&rt, 2)?;
        let mut buffer = [b'.'; 4];
        is_refused(&rt, file.node(2, 16, 0, &mut buffer), 27)?;
        is_refused(&rt, file.data(2, 16, 1, 0, 5, &mut buffer), 27)?;
        assert_eq!(rt; &buffer, b"....");
        assert_eq!(rt; file.node(2, 16, 1, &mut buffer).is_ok(), true);
        assert_eq!(rt; &buffer, b"note");
        assert_eq!(rt; file.data(2, 16, 1, 0, 4, &mut buffer), Ok(()));
        assert_eq!(rt; &buffer, b"samp");
        assert_eq!(rt; file.node(2, 16, 3, &mut []).is_ok(), true);
        Ok(())
    }

    // Pieces of data that there are; nodes that refer to nothing or to a list have no data.
    #[test]
    fn pieces(rt: HostRuntime) -> Result<(), Fail> {
        let file = opened(&rt, 2)?;
        for (index, place, size, bytes) in [
            (1, 0, 11, b"sample data."),
            (1, 7, 4, b"data........"),
            (1, 3, 5, b"ple d......."),
            (1, 11, 0, b"............"),
            (0, 0, 0, b"............"),
            (3, 0, 0, b"............"),
        ] {
            let mut buffer = [b'.'; 12];
            assert_eq!(rt;
                file.data(2, 16, index, place, size, &mut buffer),
                Ok(()),
                "{size} bytes at {place} of {index}"
            );
            assert_eq!(rt; &buffer, bytes);
        }
        Ok(())
    }

    // Pieces that pass the data; no sum of a place and a size wraps.
    #[test]
    fn no_pieces(rt: HostRuntime) -> Result<(), Fail> {
        let file = opened(&rt, 2)?;
        for (index, place, size) in [
            (1, 0, 12),
            (1, 11, 1),
            (1, 12, 0),
            (1, MAX, 0),
            (1, MAX, 1),
            (1, 1, MAX),
            (1, MAX, MAX),
            (0, 0, 1),
            (0, 1, 0),
            (0, MAX, 1),
            (3, 0, 1),
        ] {
            let mut buffer = [b'.'; 16];
            is_refused(&rt, file.data(2, 16, index, place, size, &mut buffer), 27)?;
            assert_eq!(rt; buffer, [b'.'; 16]);
        }
        Ok(())
    }

    // Nodes are alike that have the same ID and the same payload; where they stand and what they refer to is no part of it.
    #[test]
    fn likenesses(rt: HostRuntime) -> Result<(), Fail> {
        let file = opened(&rt, 2)?;
        for (k, list, index, other_list, other_index, yes) in [
            (1, 16, 0, 16, 2, true),
            (1, 16, 0, 16, 1, false),
            (1, 16, 1, 16, 1, true),
            (2, 16, 0, 16, 2, true),
            (2, 16, 0, 17, 0, true),
            (2, 17, 0, 16, 2, true),
            (2, 16, 0, 17, 1, false),
            (2, 17, 0, 17, 1, false),
            (2, 16, 1, 16, 3, false),
        ] {
            assert_eq!(rt;
                file.alike(k, list, index, other_list, other_index),
                Ok(yes),
                "node {index} of {list} and {other_index} of {other_list} at {k}"
            );
        }
        Ok(())
    }

    // A file that is not open is not looked at, whatever the look.
    #[test]
    fn shut(rt: HostRuntime) -> Result<(), Fail> {
        let file = example(&rt, 2)?;
        for (k, index) in [(1, 0), (2, 4), (0, 0), (3, MAX)] {
            is_refused(&rt, file.count_at(k, 16), 15)?;
            none_sees(&rt, &file, k, 16, index, 15)?;
        }
        Ok(())
    }
}
