ghost use Rattle.std.specs.Prelude.{◌≡◌};
ghost use Rattle.chart.specs.Limits.{spacing_sound};

// Stations in a row: how many, and the seconds of each leg down and of each leg up between one and the next.
#[derive(Clone, Copy, PartialEq, Eq, Debug)]
pub struct Spacing {
    pub stations: u32,
    pub down: u32,
    pub up: u32,
}

impl Spacing {
    // Whether there are 1 to 256 stations, and 1 to 1,000 seconds down and up.
    pub fn is_sound(self) -> bool
        ensures { result ≡ spacing_sound self.stations self.down self.up }
    {
        (1..=256).contains(&self.stations)
            && (1..=1000).contains(&self.down)
            && (1..=1000).contains(&self.up)
    }
}
