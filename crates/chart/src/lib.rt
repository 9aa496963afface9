// Charts: stations with letters, and the legs between them.
#![tactic(auto)]

pub mod any;
pub mod bore;
pub mod chart;
pub mod fault;
pub mod leg;
pub mod spacing;
pub mod table;

pub use any::AnyChart;
pub use bore::Bore;
pub use chart::Chart;
pub use fault::Fault;
pub use leg::{Leg, Zone};
pub use spacing::Spacing;
pub use table::Table;
