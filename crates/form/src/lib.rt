// Bracketed forms, one to a line: checked, read, walked through and written.
#![tactic(auto)]

mod bytes;
pub mod cursor;
pub mod fault;
pub mod scan;
pub mod view;
pub mod writer;

pub use cursor::{number, skip, word};
pub use fault::Fault;
pub use scan::check;
pub use view::{Form, Part, Parts, read};
pub use writer::Writer;
