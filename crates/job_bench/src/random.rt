//! Numbers that follow from a seed.

/// The generator SplitMix64 of Steele, Lea and Flood.
#[derive(Clone, Copy)]
pub struct Numbers {
    state: u64,
}

impl Numbers {
    pub fn new(seed: u64) -> Numbers {
        Numbers { state: seed }
    }

    pub fn any(&mut self) -> u64 {
        self.state = self.state.wrapping_add(0x9e37_79b9_7f4a_7c15);
        let mixed = (self.state ^ (self.state >> 30)).wrapping_mul(0xbf58_476d_1ce4_e5b9);
        let mixed = (mixed ^ (mixed >> 27)).wrapping_mul(0x94d0_49bb_1331_11eb);
        mixed ^ (mixed >> 31)
    }

    /// A number below `end`, or 0.
    pub fn below(&mut self, end: u32) -> usize {
        let end = if end == 0 { 1 } else { end };
        (self.any() % u64::from(end)) as usize
    }

    /// One of `start` and the numbers above it, below `end`.
    pub fn between(&mut self, start: u32, end: u32) -> usize {
        (start as usize).saturating_add(self.below(end.saturating_sub(start)))
    }
}
