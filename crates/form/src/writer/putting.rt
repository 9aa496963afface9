ghost use Rattle.std.specs.Prelude.{◌≡◌, [], ◌∷◌, decimal};
ghost use Rattle.form.specs.Forms.{line_of, written};
ghost use Rattle.form.specs.Putting.{Wrote, numbers_of};

use super::Writer;

impl<'m> Writer<'m> {
    pub fn put_byte(&mut self, byte: u8)
        ensures { Wrote (byte ∷ []) self.old self.new }
    {
        if self.place < self.memory.len() {
            self.memory[self.place] = byte;
        }
        self.place = self.place.saturating_add(1);
    }

    pub fn put_bytes(&mut self, bytes: &[u8])
        ensures { Wrote bytes.now self.old self.new }
    {
        for b in bytes {
            self.put_byte(*b);
        }
    }

    // A number in decimal digits. Not by `write!`, which may fail: nothing can here.
    pub fn put_number(&mut self, n: u32)
        ensures { Wrote (decimal n) self.old self.new }
    {
        if n < 10 {
            self.put_byte(b'0' + n as u8);
            return;
        }
        self.put_number(n / 10);
        self.put_byte(b'0' + (n % 10) as u8);
    }

    // Numbers, each after a space.
    fn put_numbers(&mut self, numbers: &[u32])
        ensures { Wrote (written (numbers_of numbers.now)) self.old self.new }
    {
        for n in numbers {
            self.put_byte(b' ');
            self.put_number(*n);
        }
    }

    // A form of a head and numbers.
    pub fn put_form(&mut self, head: &[u8], numbers: &[u32])
        ensures { Wrote (line_of head.now (numbers_of numbers.now)) self.old self.new }
    {
        self.put_byte(b'(');
        self.put_bytes(head);
        self.put_numbers(numbers);
        self.put_byte(b')');
    }
}
