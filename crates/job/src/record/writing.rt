ghost use Rattle.std.specs.Prelude.{◌≡◌, ℕ, ◌≤◌, List, ◌++◌, length, take, drop, Some, None, Ok, MatchResult};
ghost use Rattle.form.specs.Putting.{Puts};
ghost use Rattle.job.specs.Records.{contents_of};
ghost use Rattle.job.specs.Rows.{writing};
ghost use Rattle.job.specs.Texts.{reading};
ghost use Rattle.job.specs.Theorems.{JobRight};
ghost use Rattle.job.specs.Write.{write_fault};

use super::Job;
use crate::write_fault::WriteFault;
use form::Writer;

impl Job {
    // Writes the job's text into memory from a place on, as much as fits, and gives the place after all of it: so the same
    // call measures, on empty memory, and writes. It makes the writer that the draft writes to.
    fn put(&self, memory: &mut [u8], at: usize) -> usize
        ensures { Puts at (writing (contents_of self.now)) memory.old result memory.new }
    {
        let mut writer = Writer::new(memory, at);
        self.draft.put(&mut writer);
        writer.place()
    }

    // The length of the job's text, or why it is not written into memory of so many bytes.
    fn length_in(&self, room: usize) -> Result<usize, WriteFault>
        ensures { MatchResult result
            (λ _. write_fault self.now.held (length (writing (contents_of self.now))) room ≡ None)
            (λ e. write_fault self.now.held (length (writing (contents_of self.now))) room ≡ Some e) }
    {
        if !self.held {
            return Err(WriteFault::Empty);
        }
        let length = self.put(&mut [], 0);
        if room < length {
            return Err(WriteFault::TooShort);
        }
        Ok(length)
    }

    // Writes the job's text at the beginning of the memory and gives its length; the bytes after it are kept. Nothing is
    // written where no job is held or its text does not fit.
    pub fn write(&self, memory: &mut [u8]) -> Result<usize, WriteFault>
        ensures answer { MatchResult result
            (λ n. (write_fault self.now.held (length (writing (contents_of self.now))) (length memory.old) ≡ None)
            × (n ≡ length (writing (contents_of self.now)))
            × (memory.new ≡ writing (contents_of self.now) ++ drop n memory.old))
            (λ e. (write_fault self.now.held (length (writing (contents_of self.now))) (length memory.old) ≡ Some e)
            × (memory.new ≡ memory.old)) }
        ensures readable { MatchResult result
            (λ n. (rest : List ℕ) → length (writing (contents_of self.now) ++ rest) ≤ 65536
            → reading (take n memory.new ++ rest) ≡ Ok (contents_of self.now, rest))
            (λ _. Unit) }
        ensures theorems { JobRight }
    {
        self.length_in(memory.len())?;
        Ok(self.put(memory, 0))
    }
}
