ghost use Rattle.std.specs.Prelude.{◌≡◌};
ghost use Rattle.best.specs.Faults.{fault_number};

// Why best values are refused.
#[derive(Clone, Copy, PartialEq, Eq, Debug)]
pub enum Fault {
    // the memory for the values has fewer places than the net has nodes
    TooShort = 13,
}

impl Fault {
    // The number that a refusal is reported by. A `From` for `u8` would be this cast too, under a name that says less.
    pub fn number(self) -> u8
        ensures { result ≡ fault_number self }
    {
        self as u8
    }
}
