ghost use Rattle.std.specs.Prelude.{◌≡◌, vec_items, None};
ghost use Rattle.chart.specs.Bores.{bore_plan};
ghost use Rattle.chart.specs.Faults.{table_fault, bore_fault};
ghost use Rattle.chart.specs.Meanings.{table_meaning, bore_meaning, any_meaning};
ghost use Rattle.job.specs.Contents.{stations_in, legs_in, zones_in};
ghost use Rattle.job.specs.Plans.{layout_fault, layout_plan};
ghost use Rattle.job.specs.Records.{layout_of};

use super::Draft;
use crate::place::Kind;
use chart::{AnyChart, Bore, Spacing, Table};

impl Draft {
    // How many stations the chart has.
    pub(crate) fn station_count(&self) -> u32
        ensures { result ≡ stations_in (layout_of self.now) }
    {
        match self.kind {
            None => 0,
            Some(Kind::Table) => self.letters.len() as u32,
            Some(Kind::Bore(spacing)) => spacing.stations,
        }
    }

    // How many legs a table has. A bore has none that are listed, and a table no zones: the two counts ask for another kind each.
    pub(crate) fn leg_count(&self) -> usize
        ensures { result ≡ legs_in (layout_of self.now) }
    {
        match self.kind {
            Some(Kind::Table) => self.legs.len(),
            _ => 0,
        }
    }

    // How many zones a bore has.
    pub(crate) fn zone_count(&self) -> usize
        ensures { result ≡ zones_in (layout_of self.now) }
    {
        match self.kind {
            Some(Kind::Bore(_)) => self.zones.len(),
            _ => 0,
        }
    }

    // The letters and legs as a table, unless they are refused; a job's are not.
    fn table(&self) -> Table<'_>
        ensures { table_fault self.now.letters.items self.now.legs.items ≡ None
            → table_meaning result ≡ record { letters = self.now.letters.items; legs = self.now.legs.items } }
    {
        Table::new(&self.letters, &self.legs).unwrap_or(Table::single())
    }

    // A bore over the zones, unless it is refused; a job's is not.
    fn bore(&self, spacing: Spacing) -> Bore<'_>
        ensures { bore_fault spacing.stations spacing.down spacing.up self.now.zones.items ≡ None
            → bore_meaning result ≡ bore_plan spacing.stations spacing.down spacing.up self.now.zones.items }
    {
        Bore::new(spacing, &self.zones).unwrap_or(Bore::single())
    }

    // The chart, if it is within the limits of one.
    pub(crate) fn chart(&self) -> AnyChart<'_>
        ensures { layout_fault (layout_of self.now) ≡ None → any_meaning result ≡ layout_plan (layout_of self.now) }
    {
        match self.kind {
            None => AnyChart::from(Table::single()),
            Some(Kind::Table) => AnyChart::from(self.table()),
            Some(Kind::Bore(spacing)) => AnyChart::from(self.bore(spacing)),
        }
    }
}
