use std::fmt;
use task::Fault;

// A refusal of the task, as the program prints it.
#[derive(Clone, Copy, Debug)]
pub struct Refused {
    pub fault: Fault,
}

impl fmt::Display for Refused {
    fn fmt<W: fmt::Write>(&self, f: &mut fmt::Formatter<W>) -> fmt::Result {
        let number = self.fault.number();
        write!(f, "(refused {number})")
    }
}
