ghost use Rattle.std.specs.Prelude.{◌≡◌};
ghost use Rattle.form.specs.Faults.{fault_number};

// Why a line is refused.
#[derive(Clone, Copy, PartialEq, Eq, Debug)]
pub enum Fault {
    // a byte is not printed
    Byte = 2,
    // the bytes are not one form, well spaced
    Shape = 3,
}

impl Fault {
    // The number that a refusal is reported by. A `From` for `u8` would be this cast too, under a name that says less.
    pub fn number(self) -> u8
        ensures { result ≡ fault_number self }
    {
        self as u8
    }
}
