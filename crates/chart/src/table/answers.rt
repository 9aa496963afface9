ghost use Rattle.chart.specs.Meanings.{table_meaning, table_limits};

use super::Table;
use crate::chart::Chart;
use crate::leg::Leg;

impl<'c> Chart for Table<'c> {
    ghost meaning = { table_meaning };

    ghost limits = { table_limits };

    fn stations(&self) -> u32 {
        self.letters.len() as u32
    }

    fn letter(&self, station: u32) -> u32 {
        self.letters.get(station as usize).copied().unwrap_or(0)
    }

    fn legs(&self) -> u32 {
        self.legs.len() as u32
    }

    fn leg(&self, number: u32) -> Option<Leg> {
        self.legs.get(number as usize).copied()
    }

    fn leaving(&self, station: u32, least: u32) -> Option<u32> {
        (least..self.legs()).find(|number| self.legs[*number as usize].from == station)
    }
}
