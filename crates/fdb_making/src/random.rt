// Numbers that look random and are the same at each run.
ghost use Rattle.std.specs.Prelude.{◌<◌};

/// Numbers that follow on a seed.
#[derive(Drop)]
pub struct Random {
    state: u64,
}

impl Random {
    /// The numbers that follow on the seed.
    pub fn new(seed: u64) -> Self {
        Random { state: seed }
    }

    /// A number below the count.
    pub fn below(&mut self, count: u8) -> u8
        requires { 0 < count }
        ensures { result < count }
    {
        self.state = self
            .state
            .wrapping_mul(6_364_136_223_846_793_005)
            .wrapping_add(1_442_695_040_888_963_407);
        ((self.state >> 33) % count as u64) as u8
    }

    /// One of the two.
    pub fn coin(&mut self) -> bool {
        self.below(2) == 0
    }
}
