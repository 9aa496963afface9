ghost use Rattle.std.specs.Prelude.{◌≡◌, length, slice_index};
ghost use Rattle.std.specs.List.{slice_get};
ghost use Rattle.chart.specs.Chart.{Plan, Within, Leaving};

use crate::leg::Leg;

// A chart of stations and legs, both numbered from 0. Every question has an answer, whatever it is asked of.
pub trait Chart {
    ghost meaning: { Self → Plan };

    // A proof and no law, since an impl with a lifetime gets no generated proof of a law.
    ghost limits: { (c : Self) → Within (meaning c) };

    fn stations(&self) -> u32
        ensures { result ≡ length (meaning self.now).letters };

    // A station's letter; 0 for what is no station, so that no caller has a case more.
    fn letter(&self, station: u32) -> u32
        ensures { result ≡ slice_index (meaning self.now).letters station };

    fn legs(&self) -> u32
        ensures { result ≡ length (meaning self.now).legs };

    // The leg with a number; none for what is no leg.
    fn leg(&self, number: u32) -> Option<Leg>
        ensures { result ≡ slice_get (meaning self.now).legs number };

    // The lowest number, from `least` on, of a leg that leaves the station.
    fn leaving(&self, station: u32, least: u32) -> Option<u32>
        ensures { Leaving (meaning self.now) station least result };
}
