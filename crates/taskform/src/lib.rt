// Tasks as bracketed forms: from a form to a task, and back.
#![tactic(auto)]

pub mod compiler;
mod descent;
pub mod fault;
mod gathered;
mod sort;
pub mod writing;

pub use compiler::compile;
pub use fault::Fault;
pub use writing::{put_task, write_task};
