ghost use Rattle.std.specs.Prelude.{◌≡◌};
ghost use Rattle.form.specs.Forms.{bytes_of};
ghost use Rattle.form.specs.Putting.{Puts, Wrote};
ghost use Rattle.job.specs.Calls.{call_number, call_tree, call_bytes, call_in, Calls, CallsOnce};

use crate::split::split_line;
use form::{Form, Part, Parts, Writer};

// What a run is asked for by a line after the job's text.
#[derive(Clone, Copy, PartialEq, Eq, Debug)]
pub enum Call {
    Decide,
    Move,
    // a leg by its number, and the seconds that it takes from now on
    Drag(u32, u32),
}

// Why no call is read.
#[derive(Clone, Copy, PartialEq, Eq, Debug)]
pub enum CallFault {
    // the text does not begin with a call and a line feed
    NotACall = 4,
}

impl CallFault {
    // The number that a refusal is reported by. A `From` for `u8` would be this cast too, under a name that says less.
    pub fn number(self) -> u8
        ensures { result ≡ call_number self }
    {
        self as u8
    }
}

// The call that a form's head and parts are.
fn call_of(form: Form) -> Option<Call>
    ensures { result ≡ call_in form.entry.head.now form.entry.parts }
{
    match (form.head, form.parts) {
        (b"decide", Parts::Zero) => Some(Call::Decide),
        (b"move", Parts::Zero) => Some(Call::Move),
        (b"drag", Parts::Two(Part::Number(leg), Part::Number(seconds))) => {
            Some(Call::Drag(leg, seconds))
        }
        _ => None,
    }
}

// The call that the text begins with, and the text after its line feed; none at the end of the text.
pub fn next_call<'t>(text: &'t [u8]) -> Result<Option<(Call, &'t [u8])>, CallFault>
    ensures answer { Calls text.now result }
    ensures theorem { CallsOnce }
{
    if text.is_empty() {
        return Ok(None);
    }
    let Some((line, rest)) = split_line(text) else {
        return Err(CallFault::NotACall);
    };
    let Ok(form) = form::read(line) else {
        return Err(CallFault::NotACall);
    };
    let Some(call) = call_of(form) else {
        return Err(CallFault::NotACall);
    };
    Ok(Some((call, rest)))
}

// Writes a call without its line feed.
fn put_call_form(writer: &mut Writer, call: Call)
    ensures { Wrote (bytes_of (call_tree call)) writer.old writer.new }
{
    match call {
        Call::Decide => writer.put_form(b"decide", &[]),
        Call::Move => writer.put_form(b"move", &[]),
        Call::Drag(leg, seconds) => writer.put_form(b"drag", &[leg, seconds]),
    }
}

// Writes a call and its line feed, for a caller without a writer: into memory from a place on, as much as fits; gives the
// place after all of it.
pub fn put_call(memory: &mut [u8], at: usize, call: Call) -> usize
    ensures { Puts at (call_bytes call) memory.old result memory.new }
{
    let mut writer = Writer::new(memory, at);
    put_call_form(&mut writer, call);
    writer.put_byte(b'\n');
    writer.place()
}
