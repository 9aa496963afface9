ghost use Rattle.std.specs.Prelude.{◌≡◌};
ghost use Rattle.job.specs.Reading.{Reads, ReadBack};
ghost use Rattle.job.specs.Texts.{unended};
ghost use Rattle.job.specs.Theorems.{JobRight};

use super::Job;
use crate::fault::{Fault, Refused};
use crate::split::split_line;

// Why the bytes after the last line feed are refused.
fn last_fault(bytes: &[u8]) -> Fault
    ensures { result ≡ unended bytes.now }
{
    if bytes.is_empty() {
        return Fault::OutOfPlace;
    }
    match form::check(bytes) {
        Err(form::Fault::Byte) => Fault::Form(form::Fault::Byte),
        _ => Fault::Form(form::Fault::Shape),
    }
}

impl Job {
    // Reads the job that the text begins with, and gives back the rest; the first no empties the record.
    pub fn read<'t>(&mut self, text: &'t [u8]) -> Result<&'t [u8], Refused>
        ensures answer { Reads text.now result self.new }
        ensures written { ReadBack text.now result self.new }
        ensures theorems { JobRight }
    {
        self.clear();
        if text.len() > 65536 {
            return Err(Refused {
                fault: Fault::TooLong,
                line: 0,
            });
        }
        // the line is counted as the text is cut, since a refusal tells it
        let mut left = text;
        let mut line = 1;
        while let Some((bytes, rest)) = split_line(left) {
            if let Err(fault) = self.draft.take_line(bytes) {
                self.clear();
                return Err(Refused { fault, line });
            }
            if self.draft.is_done() {
                self.held = true;
                return Ok(rest);
            }
            left = rest;
            line += 1;
        }
        self.clear();
        Err(Refused {
            fault: last_fault(left),
            line,
        })
    }
}
