//! Numbers that look random and are the same at each run.
ghost use Rattle.std.specs.Prelude.{◌<◌};

/// Where the row of numbers stands.
#[derive(Drop)]
pub(crate) struct Numbers {
    state: u64,
}

impl Numbers {
    pub(crate) fn new(seed: u64) -> Numbers {
        Numbers { state: seed }
    }

    fn next(&mut self) -> u64 {
        self.state = self
            .state
            .wrapping_mul(6_364_136_223_846_793_005)
            .wrapping_add(1_442_695_040_888_963_407);
        self.state >> 33
    }

    /// The next number below a bound; 0 where the bound is 0.
    pub(crate) fn below(&mut self, bound: u64) -> u64
        ensures { 0 < bound → result < bound }
    {
        let number = self.next();
        if bound == 0 { 0 } else { number % bound }
    }
}
