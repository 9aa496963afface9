ghost use Rattle.std.specs.Prelude.{◌≡◌, ℕ, ◌^◌, ◌<◌, ◌≤◌, ◌&&◌, length, nat_le, nat_lt, slice_index};
ghost use Rattle.ltlf.specs.Distance.{within};
ghost use Rattle.ltlf.specs.Forecasts.{ending as end_forecast};
ghost use Rattle.task.specs.Tables.{Tabulates};
ghost use Rattle.task.specs.Written.{formula_of};

use crate::formula::Formula;
use crate::tables::Tables;

// A formula with its automaton, whose states are numbered.
#[derive(Clone, Copy)]
pub struct Task {
    formula: Formula,
    tables: Tables,
    ending: u8,
    // by state: the least number of letters to one that accepts; the largest number stands for none, as best values are
    // written in place
    distances: [u32; 64],
    ghost tabulated: { Tabulates (formula_of formula) (2 ^ formula.marks) tables },
    ghost ends: { ending ≡ end_forecast (formula_of formula) },
    ghost low: { ending < 64 },
    ghost many: { length distances ≡ 64 },
    ghost tests: { (q k : ℕ) → q < tables.numbered.count
        → within (formula_of formula) (2 ^ formula.marks) k q ≡ (nat_lt (slice_index distances q) 4294967295 && nat_le (slice_index distances q) k) },
}

pub mod calls;
