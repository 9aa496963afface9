ghost use Rattle.std.specs.Prelude.{◌≡◌};
ghost use Rattle.job.specs.Faults.{fault_number};
ghost use Rattle.job.specs.declared.fault.Fault.TheVariants.{Form as of_form, Task as of_task};

use std::fmt;

// Why a line of a job text is refused, or the whole text.
#[derive(Clone, Copy, PartialEq, Eq, Debug)]
pub enum Fault {
    // the text has more than 65,536 bytes
    TooLong,
    // the line is no form
    Form(form::Fault),
    // a head that no line has, or parts that are not of the right sort and count
    Unknown,
    // the line does not stand at its place
    OutOfPlace,
    // a number is out of range, or the stations of labels do not rise
    OutOfRange,
    // the task is none, or breaks a limit
    Task(taskform::Fault),
    // more than 1,024 legs, or more than 8 zones
    TooMany,
}

// The first no: why, and at which line, counted from 1; 0 for the text as a whole.
#[derive(Clone, Copy, PartialEq, Eq, Debug)]
pub struct Refused {
    pub fault: Fault,
    pub line: u32,
}

impl From<form::Fault> for Fault {
    ghost from_gives = { λ f r. r ≡ of_form f };

    fn from(fault: form::Fault) -> Fault {
        Fault::Form(fault)
    }
}

impl From<taskform::Fault> for Fault {
    ghost from_gives = { λ f r. r ≡ of_task f };

    fn from(fault: taskform::Fault) -> Fault {
        Fault::Task(fault)
    }
}

impl Fault {
    // The number that a refusal is reported by: a match, since a fault of a lower crate has its own.
    pub fn number(self) -> u8
        ensures { result ≡ fault_number self }
    {
        match self {
            Fault::TooLong => 1,
            Fault::Form(fault) => fault.number(),
            Fault::Unknown => 4,
            Fault::OutOfPlace => 5,
            Fault::OutOfRange => 6,
            Fault::Task(fault) => fault.number(),
            Fault::TooMany => 9,
        }
    }
}

impl fmt::Display for Refused {
    fn fmt<W: fmt::Write>(&self, f: &mut fmt::Formatter<W>) -> fmt::Result {
        let number = self.fault.number();
        write!(f, "(refused {number} {})", self.line)
    }
}
