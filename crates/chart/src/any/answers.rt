ghost use Rattle.std.specs.Prelude.{◌≡◌};
ghost use Rattle.chart.specs.Meanings.{table_meaning, bore_meaning, any_meaning, any_limits};

use super::AnyChart;
use crate::bore::Bore;
use crate::chart::Chart;
use crate::leg::Leg;
use crate::table::Table;

impl<'c> From<Table<'c>> for AnyChart<'c> {
    ghost from_gives = { λ t r. any_meaning r ≡ table_meaning t };

    fn from(chart: Table<'c>) -> AnyChart<'c> {
        AnyChart::Table(chart)
    }
}

impl<'c> From<Bore<'c>> for AnyChart<'c> {
    ghost from_gives = { λ b r. any_meaning r ≡ bore_meaning b };

    fn from(chart: Bore<'c>) -> AnyChart<'c> {
        AnyChart::Bore(chart)
    }
}

// Each question is asked of the one that is there: no function may hand out a `dyn Chart`, by which all could be one.
impl<'c> Chart for AnyChart<'c> {
    ghost meaning = { any_meaning };

    ghost limits = { any_limits };

    fn stations(&self) -> u32 {
        match self {
            AnyChart::Table(table) => table.stations(),
            AnyChart::Bore(bore) => bore.stations(),
        }
    }

    fn letter(&self, station: u32) -> u32 {
        match self {
            AnyChart::Table(table) => table.letter(station),
            AnyChart::Bore(bore) => bore.letter(station),
        }
    }

    fn legs(&self) -> u32 {
        match self {
            AnyChart::Table(table) => table.legs(),
            AnyChart::Bore(bore) => bore.legs(),
        }
    }

    fn leg(&self, number: u32) -> Option<Leg> {
        match self {
            AnyChart::Table(table) => table.leg(number),
            AnyChart::Bore(bore) => bore.leg(number),
        }
    }

    fn leaving(&self, station: u32, least: u32) -> Option<u32> {
        match self {
            AnyChart::Table(table) => table.leaving(station, least),
            AnyChart::Bore(bore) => bore.leaving(station, least),
        }
    }
}
