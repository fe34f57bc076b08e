ghost use Rattle.std.specs.Prelude.{◌≡◌, ◌<◌};
ghost use Rattle.station_gen.specs.Made.{next, drawn};

/// A generator of draws.
#[derive(Drop)]
pub(crate) struct Generator {
    pub(crate) state: u64,
}

impl Generator {
    /// The next draw, below `limit`.
    #[tactic(auto, unfolding(crate::specs::Made::next, crate::specs::Made::drawn))]
    pub(crate) fn draw(&mut self, limit: u64) -> u64
        requires { 0 < limit }
        ensures state { self.new.state ≡ next self.old.state }
        ensures value { result ≡ drawn self.new.state limit }
        ensures within { result < limit }
    {
        self.state = self
            .state
            .wrapping_mul(6_364_136_223_846_793_005)
            .wrapping_add(1_442_695_040_888_963_407);
        (self.state >> 33) % limit
    }
}
