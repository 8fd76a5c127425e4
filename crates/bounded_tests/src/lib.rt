//! Examples of lists with their room reserved.
#![tactic(auto)]

#[cfg(test)]
mod tests {
    use bounded::{Bounded, Full};
    use std::test::Fail;

    #[test]
    fn fills(rt: HostRuntime) -> Result<(), Fail> {
        let mut list = Bounded::<u32, 3>::new(rt.alloc())?;
        assert_eq!(rt; list.len(), 0);
        assert_eq!(rt; list.push(7), Ok(()));
        assert_eq!(rt; list.insert(0, 5), Ok(()));
        assert_eq!(rt; list.insert(1, 6), Ok(()));
        assert_eq!(rt; list.as_slice(), [5, 6, 7].as_slice());
        assert_eq!(rt; list.push(8), Err(Full));
        assert_eq!(rt; list.insert(0, 8), Err(Full));
        list.set(2, 9);
        assert_eq!(rt; list.as_slice(), [5, 6, 9].as_slice());
        Ok(())
    }

    #[test]
    fn empties(rt: HostRuntime) -> Result<(), Fail> {
        let mut list = Bounded::<u32, 1>::new(rt.alloc())?;
        assert_eq!(rt; list.push(7), Ok(()));
        assert_eq!(rt; list.push(8), Err(Full));
        list.clear();
        assert_eq!(rt; list.len(), 0);
        assert_eq!(rt; list.insert(4, 8), Ok(()));
        assert_eq!(rt; list.as_slice(), [8].as_slice());
        Ok(())
    }

    #[test]
    fn no_room(rt: HostRuntime) -> Result<(), Fail> {
        let mut list = Bounded::<u32, 0>::new(rt.alloc())?;
        assert_eq!(rt; list.push(7), Err(Full));
        assert_eq!(rt; list.insert(0, 7), Err(Full));
        Ok(())
    }
}
