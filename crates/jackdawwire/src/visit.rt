use std::fmt;

// A station that was passed: the letter read there, the state after it, the least number of letters from there to the task's
// end, if there is an end, and whether the task is now fulfilled.
#[derive(Clone, Copy, Debug)]
pub struct Visit {
    pub station: u8,
    pub letter: u8,
    pub state: u8,
    pub distance: Option<u32>,
    pub fulfilled: bool,
}

impl fmt::Display for Visit {
    fn fmt<W: fmt::Write>(&self, f: &mut fmt::Formatter<W>) -> fmt::Result {
        let station = self.station;
        let letter = self.letter;
        let state = self.state;
        let fulfilled = u8::from(self.fulfilled);
        match self.distance {
            Some(distance) => write!(
                f,
                "(visit {station} {letter} {state} {distance} {fulfilled})"
            ),
            None => write!(f, "(visit {station} {letter} {state} none {fulfilled})"),
        }
    }
}
