// Best values over any net, of any kind of value.
#![tactic(auto)]

mod arcs;
pub mod calls;
pub mod fault;
pub mod kind;
pub mod net;
mod queue;
mod relaxation;

pub use calls::best;
pub use fault::Fault;
pub use kind::Kind;
pub use net::Net;
