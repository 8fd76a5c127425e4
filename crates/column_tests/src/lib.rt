//! Examples of columns.
#![tactic(auto)]

#[cfg(test)]
mod tests {
    use column::column;

    #[test]
    fn below_the_bound(rt: HostRuntime) {
        assert_eq!(rt; column(0), Some(*b"           0"));
        assert_eq!(rt; column(9), Some(*b"           9"));
        assert_eq!(rt; column(10), Some(*b"          10"));
        assert_eq!(rt; column(4294967295), Some(*b"  4294967295"));
        assert_eq!(rt; column(999999999999), Some(*b"999999999999"));
    }

    #[test]
    fn too_wide(rt: HostRuntime) {
        assert_eq!(rt; column(1000000000000), None);
        assert_eq!(rt; column(1099511627776), None);
        assert_eq!(rt; column(u64::MAX), None);
    }
}
