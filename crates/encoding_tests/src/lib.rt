//! Examples of what is written, with bytes worked out by hand from the format's rules.
#![tactic(auto)]

#[cfg(test)]
mod tests {
    use encoding::buffer::{OutOfRange, WriteBuffer};
    use encoding::parts::NewNode;
    use format::nodes::Target;
    use model::types::{Entry, Span};
    use std::test::Fail;

    #[test]
    fn references(rt: HostRuntime) -> Result<(), Fail> {
        let mut buffer = WriteBuffer::new(rt.alloc())?;
        buffer.push_span(Span {
            start: 0x0102_0304_0506_0708,
            size: 0x090a_0b0c,
        });
        let bytes = [8, 7, 6, 5, 4, 3, 2, 1, 12, 11, 10, 9];
        assert_eq!(rt; buffer.as_slice(), bytes.as_slice());
        Ok(())
    }

    // The ID 8 and the size 7: 8 + 7 * 2^10 + 2^31 is 0x80001C08.
    #[test]
    fn plain_nodes(rt: HostRuntime) -> Result<(), Fail> {
        let mut buffer = WriteBuffer::new(rt.alloc())?;
        buffer.push_node(&NewNode {
            id: 8,
            refers: None,
            payload: &[0xaa, 0xbb, 0xcc],
        });
        let bytes = [0x08, 0x1c, 0x00, 0x80, 0xaa, 0xbb, 0xcc];
        assert_eq!(rt; buffer.as_slice(), bytes.as_slice());
        Ok(())
    }

    // To data: the ID 0x210, the size 16 and BaseType 1: 0x210 + 16 * 2^10 + 2^27 + 2^31 is 0x88004210.
    // To a list: the ID 0x90, the size 17 and BaseType 2: 0x90 + 17 * 2^10 + 2 * 2^27 + 2^31 is 0x90004490.
    #[test]
    fn referring_nodes(rt: HostRuntime) -> Result<(), Fail> {
        let mut buffer = WriteBuffer::new(rt.alloc())?;
        let data = Span {
            start: 0x2000,
            size: 5,
        };
        buffer.push_node(&NewNode {
            id: 0x210,
            refers: Some((Target::Data.base(), data)),
            payload: &[],
        });
        let bytes = [0x10, 0x42, 0, 0x88, 0, 0x20, 0, 0, 0, 0, 0, 0, 5, 0, 0, 0];
        assert_eq!(rt; buffer.as_slice(), bytes.as_slice());

        buffer.clear();
        let list = Span {
            start: 3072,
            size: 1024,
        };
        buffer.push_node(&NewNode {
            id: 0x90,
            refers: Some((Target::List.base(), list)),
            payload: &[0x11],
        });
        let bytes = [
            0x90, 0x44, 0, 0x90, 0, 0x0c, 0, 0, 0, 0, 0, 0, 0, 4, 0, 0, 0x11,
        ];
        assert_eq!(rt; buffer.as_slice(), bytes.as_slice());
        Ok(())
    }

    // The list 16 with 3 nodes, and a sentinel with a sum.
    #[test]
    fn entries(rt: HostRuntime) -> Result<(), Fail> {
        let mut buffer = WriteBuffer::new(rt.alloc())?;
        buffer.push_entries(&[
            Entry {
                source: 16,
                number: 3,
            },
            Entry {
                source: 1,
                number: 0xcbf4_3926,
            },
        ]);
        let bytes = [16, 0, 0, 0, 3, 0, 0, 0, 1, 0, 0, 0, 0x26, 0x39, 0xf4, 0xcb];
        assert_eq!(rt; buffer.as_slice(), bytes.as_slice());
        Ok(())
    }

    // The ID 0xFF and the size 4: 0xFF + 4 * 2^10 + 2^31 is 0x800010FF.
    #[test]
    fn terminators(rt: HostRuntime) -> Result<(), Fail> {
        let mut buffer = WriteBuffer::new(rt.alloc())?;
        buffer.push_terminator();
        assert_eq!(rt; buffer.as_slice(), [0xff, 0x10, 0, 0x80].as_slice());
        Ok(())
    }

    // A mark, the list, its second fragment and a node of 5 bytes; 983 zeros, the reference to nothing, a mark.
    #[test]
    fn fragments(rt: HostRuntime) -> Result<(), Fail> {
        let mut buffer = WriteBuffer::new(rt.alloc())?;
        let node = NewNode {
            id: 8,
            refers: None,
            payload: &[0xaa],
        };
        buffer.push_fragment(16, 1, &node);
        let first = [
            0xc4, 0xf4, 0xf7, 0xf5, 0xb1, 0x7a, 0x56, 0xa4, 16, 0, 0, 0, 1, 0, 0, 0, 0x08, 0x14, 0,
            0x80, 0xaa,
        ];
        let last = [
            0xff, 0xff, 0xff, 0xff, 0xff, 0xff, 0xff, 0xff, 0, 0, 0, 0, 0x4b, 0xba, 0x33, 0x82,
            0xc3, 0x15, 0xc2, 0x8b,
        ];
        let bytes = buffer.as_slice();
        assert_eq!(rt; bytes.len(), 1024);
        assert!(rt; bytes.starts_with(&first));
        assert!(rt; bytes[21..1004].iter().all(|byte| *byte == 0));
        assert!(rt; bytes.ends_with(&last));
        Ok(())
    }

    // Up to the last byte, and one past it.
    #[test]
    fn sets(rt: HostRuntime) -> Result<(), Fail> {
        let mut buffer = WriteBuffer::new(rt.alloc())?;
        buffer.push_number(4, 0x0403_0201);
        assert_eq!(rt; buffer.set_at(2, &[7, 8]), Ok(()));
        assert_eq!(rt; buffer.as_slice(), [1, 2, 7, 8].as_slice());
        assert_eq!(rt; buffer.set_at(3, &[9, 9]), Err(OutOfRange));
        assert_eq!(rt; buffer.as_slice(), [1, 2, 7, 8].as_slice());
        // three zeros lead from the place 8 + 5 to 16
        buffer.push_zeros(1);
        buffer.pad(8);
        assert_eq!(rt; buffer.as_slice(), [1, 2, 7, 8, 0, 0, 0, 0].as_slice());
        Ok(())
    }
}
