//! Examples of CRC-32.
#![tactic(auto)]

#[cfg(test)]
mod tests {
    use crc::{Crc, crc32};

    // Byte by byte.
    fn each(bytes: &[u8]) -> u32 {
        let mut crc = Crc::new();
        for byte in bytes {
            crc.update(*byte);
        }
        crc.finish()
    }

    #[test]
    fn known(rt: HostRuntime) {
        assert_eq!(rt; Crc::default(), Crc::new());
        assert_eq!(rt; crc32(b""), 0);
        assert_eq!(rt; crc32(b"123456789"), 0xcbf4_3926);
        // "Example.one" and a null character, in UTF-16LE
        assert_eq!(rt;
            crc32(b"E\0x\0a\0m\0p\0l\0e\0.\0o\0n\0e\0\0\0"),
            0xcebe_8422
        );
    }

    // At each length around a turn of eight bytes.
    #[test]
    fn either_way(rt: HostRuntime) {
        let bytes = b"123456789";
        for end in 0..10 {
            let part = &bytes[0..end];
            assert_eq!(rt; crc32(part), each(part));
        }
        assert_eq!(rt; each(bytes), 0xcbf4_3926);
    }

    // A slice in two parts.
    #[test]
    fn in_parts(rt: HostRuntime) {
        let bytes = b"12345678901234567890";
        for cut in 0..21 {
            let mut crc = Crc::new();
            crc.update_slice(&bytes[0..cut]);
            crc.update_slice(&bytes[cut..20]);
            assert_eq!(rt; crc.finish(), each(bytes));
        }
    }
}
