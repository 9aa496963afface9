ghost use Rattle.std.specs.Prelude.{◌≡◌};
ghost use Rattle.task.specs.Faults.{fault_number};

// Why a list of operators is no task.
#[derive(Clone, Copy, PartialEq, Eq, Debug)]
pub enum Fault {
    // the operators are not exactly one formula
    NotAFormula = 4,
    // the number of marks is not from 1 to 6, or a mark is not below it
    OutOfRange = 6,
    // more than 64 operators
    TooManyOperators = 7,
    // more than 6 temporal operators
    TooManyTemporal = 8,
    // more than 64 states
    TooManyStates = 10,
}

impl Fault {
    // The number that a refusal is reported by. A `From` for `u8` would be this cast too, under a name that says less.
    pub fn number(self) -> u8
        ensures { result ≡ fault_number self }
    {
        self as u8
    }
}
