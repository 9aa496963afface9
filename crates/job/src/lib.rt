// Jobs: the record of one, its text, read and written, and the calls that may follow it.
#![tactic(auto)]

pub mod call;
mod draft;
pub mod fault;
mod line;
pub mod place;
pub mod record;
mod split;
pub mod write_fault;

pub use call::{Call, CallFault, next_call, put_call};
pub use fault::{Fault, Refused};
pub use record::Job;
pub use write_fault::WriteFault;
