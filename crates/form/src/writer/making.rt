ghost use Rattle.std.specs.Prelude.{◌≡◌};

use super::Writer;

impl<'m> Writer<'m> {
    pub fn new(memory: &'m mut [u8], place: usize) -> Writer<'m>
        ensures same { result.memory.ghost_name ≡ memory.entry.ghost_name }
        ensures memory { result.memory.now ≡ memory.old }
        ensures place { result.place ≡ place }
    {
        Writer { memory, place }
    }

    // The place after all that was written, also of what did not fit.
    pub fn place(&self) -> usize
        ensures { result ≡ self.now.place }
    {
        self.place
    }
}
