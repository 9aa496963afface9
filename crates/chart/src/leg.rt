ghost use Rattle.std.specs.Prelude.{◌≡◌};
ghost use Rattle.chart.specs.Bores.{in_zone};
ghost use Rattle.chart.specs.Limits.{leg_sound, zone_sound};

// A leg leads from one station to another and takes so many seconds.
#[derive(Clone, Copy, PartialEq, Eq, Debug)]
pub struct Leg {
    pub from: u32,
    pub to: u32,
    pub seconds: u32,
}

// The stations from first to last, both included, have the mark.
#[derive(Clone, Copy, PartialEq, Eq, Debug)]
pub struct Zone {
    pub first: u32,
    pub last: u32,
    pub mark: u32,
}

impl Leg {
    // Whether both ends are among so many stations, and the seconds from 1 to 1,000.
    pub fn is_sound(self, stations: usize) -> bool
        ensures { result ≡ leg_sound stations self }
    {
        (self.from as usize) < stations
            && (self.to as usize) < stations
            && (1..=1000).contains(&self.seconds)
    }
}

impl Zone {
    // Whether the first station is not past the last, the last is among so many stations, and the mark is one of six: a chart
    // knows of no fewer marks, so a job asks for its own by itself.
    pub(crate) fn is_sound(self, stations: u32) -> bool
        ensures { result ≡ zone_sound stations self }
    {
        self.first <= self.last && self.last < stations && self.mark < 6
    }

    pub(crate) fn holds(self, station: u32) -> bool
        ensures { result ≡ in_zone station self }
    {
        (self.first..=self.last).contains(&station)
    }
}
