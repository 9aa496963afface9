ghost use Rattle.std.specs.Prelude.{◌≡◌};
ghost use Rattle.job.specs.Write.{write_number};

// Why a job is not written.
#[derive(Clone, Copy, PartialEq, Eq, Debug)]
pub enum WriteFault {
    // the record holds no job
    Empty = 5,
    // the memory is shorter than the job's text
    TooShort = 13,
}

impl WriteFault {
    // The number that a refusal is reported by. A `From` for `u8` would be this cast too, under a name that says less.
    pub fn number(self) -> u8
        ensures { result ≡ write_number self }
    {
        self as u8
    }
}
