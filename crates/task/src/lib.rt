// A task: a formula over the letters of P marks, with its automaton in tables.
#![tactic(auto)]

mod bits;
pub mod compiled;
pub mod fault;
mod formula;
mod letter;
mod numbered;
mod state_net;
mod tables;
mod words;

pub use compiled::Task;
pub use fault::Fault;
