//! Examples of listings: a file with one list and one transaction, refusals, and a number of 13 digits.
#![tactic(auto)]

#[cfg(test)]
mod tests {
    use lines::{Listing, file_of, listed};
    use model::marks::{FILE_FORMAT, FILE_TYPE, FIRST_MARK, LAST_MARK, NIL};
    use model::types::{Fault, Span};
    use section::files::File;
    use std::test::Fail;
    use store::flat_store::Flat;

    // The root's fragment and the log's have 1,024 bytes each.
    const ROOT: u64 = 1024;

    const LOG: u64 = 2048;

    const END: u64 = 3072;

    // Puts bytes at a place, where they fit.
    fn put(bytes: &mut [u8], place: usize, new: &[u8]) -> Result<(), Fail> {
        let Some(room) = bytes.get_mut(place..place.saturating_add(new.len())) else {
            return Err(Fail::new("no room"));
        };
        room.copy_from_slice(new);
        Ok(())
    }

    fn put_span(bytes: &mut [u8], place: usize, span: Span) -> Result<(), Fail> {
        put(bytes, place, &span.start.to_le_bytes())?;
        put(
            bytes,
            place.saturating_add(8),
            &span.size.to_le_bytes()[..4],
        )
    }

    // The header, for one finished transaction.
    fn put_header(bytes: &mut [u8]) -> Result<(), Fail> {
        put(bytes, 0x00, &FILE_TYPE)?;
        put(bytes, 0x30, &FILE_FORMAT)?;
        put(bytes, 0x4C, &0x2A_u32.to_le_bytes())?;
        put(bytes, 0x60, &1u32.to_le_bytes())?;
        put_span(bytes, 0x94, NIL)?;
        put_span(
            bytes,
            0xA0,
            Span {
                start: LOG,
                size: 1024,
            },
        )?;
        put_span(
            bytes,
            0xAC,
            Span {
                start: ROOT,
                size: 1024,
            },
        )?;
        put(bytes, 0xC4, &END.to_le_bytes())
    }

    // List 16 with one node of five bytes' payload, and zeros behind it.
    fn put_root(bytes: &mut [u8]) -> Result<(), Fail> {
        put(bytes, 1024, &FIRST_MARK.to_le_bytes())?;
        put(bytes, 1032, &16u32.to_le_bytes())?;
        put(bytes, 1040, &0x8000_2401_u32.to_le_bytes())?;
        put(bytes, 1044, b"plain")?;
        put_span(bytes, 2028, NIL)?;
        put(bytes, 2040, &LAST_MARK.to_le_bytes())
    }

    // A count of 1 for list 16, and the sentinel with the sum of its eight bytes.
    fn put_log(bytes: &mut [u8]) -> Result<(), Fail> {
        put(bytes, 2048, &[16, 0, 0, 0, 1, 0, 0, 0])?;
        put(bytes, 2056, &1u32.to_le_bytes())?;
        put(bytes, 2060, &0xa125_8927_u32.to_le_bytes())?;
        put_span(bytes, 3056, NIL)
    }

    // The example, with a byte in place of the one at 1,024.
    fn example(rt: &HostRuntime, mark: u8) -> Result<File<Flat>, Fail> {
        let mut bytes = vec![in rt.alloc(); 0u8; 3072]?;
        put_header(&mut bytes)?;
        put_root(&mut bytes)?;
        put_log(&mut bytes)?;
        put(&mut bytes, 1024, &[mark])?;
        Ok(file_of(rt.alloc(), bytes)?)
    }

    #[test]
    fn opened(rt: HostRuntime) -> Result<(), Fail> {
        let mut file = example(&rt, FIRST_MARK.to_le_bytes()[0])?;
        let text = listed(&mut file, 1).to_string(rt.alloc())?;
        let lines =
            "           1        3072           1           2         100\n          16           1           1\n";
        assert_eq!(rt; text.as_str(), lines);
        Ok(())
    }

    // An open file is busy; and a first mark that is not there is refused at its fragment's place.
    #[test]
    fn refused(rt: HostRuntime) -> Result<(), Fail> {
        let mut file = example(&rt, FIRST_MARK.to_le_bytes()[0])?;
        let _first = listed(&mut file, 1);
        let text = listed(&mut file, 2).to_string(rt.alloc())?;
        assert_eq!(rt;
            text.as_str(),
            "          14           4           0           0\n"
        );
        let mut file = example(&rt, 0)?;
        let text = listed(&mut file, 1).to_string(rt.alloc())?;
        assert_eq!(rt;
            text.as_str(),
            "           8           3        1024           0\n"
        );
        Ok(())
    }

    // The widest number of 12 digits fills its column; one more stands behind a space.
    #[test]
    fn wide(rt: HostRuntime) -> Result<(), Fail> {
        for (place, lines) in [
            (
                999_999_999_999,
                "           9           3999999999999          17\n",
            ),
            (
                1_000_000_000_000,
                "           9           3 1000000000000          17\n",
            ),
        ] {
            let fault = Fault {
                number: 9,
                layer: 3,
                place,
                list: 17,
            };
            let text = Listing::Refused(fault).to_string(rt.alloc())?;
            assert_eq!(rt; text.as_str(), lines);
        }
        Ok(())
    }
}
