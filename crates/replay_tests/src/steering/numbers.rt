//! Numbers that look random.

ghost use Rattle.std.specs.Prelude.{◌<◌};

/// A sequence of numbers that look random: the same seed returns the same ones.
#[derive(Clone, Debug, Drop)]
pub(super) struct Numbers {
    state: u64,
}

impl Numbers {
    pub(super) fn from(seed: u64) -> Numbers {
        Numbers { state: seed }
    }

    /// The next number, below the limit.
    pub(super) fn below(&mut self, limit: u32) -> u32
        requires { 0 < limit }
        ensures { result < limit }
    {
        self.state = self
            .state
            .wrapping_mul(6_364_136_223_846_793_005)
            .wrapping_add(1_442_695_040_888_963_407);
        ((self.state / 0x2_0000_0000) % u64::from(limit)) as u32
    }

    /// The next byte.
    pub(super) fn byte(&mut self) -> u8 {
        self.below(256) as u8
    }

    /// Four bytes.
    pub(super) fn four(&mut self) -> [u8; 4] {
        [self.byte(), self.byte(), self.byte(), self.byte()]
    }

    /// True once in this many times.
    pub(super) fn once_in(&mut self, times: u32) -> bool
        requires { 0 < times }
    {
        self.below(times) == 0
    }
}
