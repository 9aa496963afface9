ghost use Rattle.std.specs.Prelude.{◌≡◌};
ghost use Rattle.job.specs.Rows.{head_of};
ghost use Rattle.job.specs.Lining.{seen, line_of, Asks};

use crate::fault::Fault;
use chart::{Leg, Spacing, Zone};
use form::{Part, Parts};

// A line of a job; the task's with the bytes of its form.
#[derive(Clone, Copy)]
pub enum Line<'t> {
    Version(u32),
    Marks(u32),
    Stations(u32),
    Label(u32, u32),
    Leg(Leg),
    Bore(Spacing),
    Zone(Zone),
    Task(&'t [u8]),
    Start(u32),
    Lookahead(u32),
}

// What the head of a line stands for. Head and parts are read apart, as the definition of a line asks them.
#[derive(Clone, Copy)]
pub enum Head {
    Version,
    Marks,
    Stations,
    Label,
    Leg,
    Bore,
    Zone,
    Task,
    Start,
    Lookahead,
}

// The parts of a line: one to three numbers, or one form.
#[derive(Clone, Copy)]
pub enum Values<'t> {
    One(u32),
    Two(u32, u32),
    Three(u32, u32, u32),
    Form(&'t [u8]),
}

fn head_of(word: &[u8]) -> Option<Head>
    ensures { result ≡ head_of word.now }
{
    match word {
        b"leg" => Some(Head::Leg),
        b"label" => Some(Head::Label),
        b"zone" => Some(Head::Zone),
        b"job" => Some(Head::Version),
        b"marks" => Some(Head::Marks),
        b"stations" => Some(Head::Stations),
        b"bore" => Some(Head::Bore),
        b"task" => Some(Head::Task),
        b"start" => Some(Head::Start),
        b"lookahead" => Some(Head::Lookahead),
        _ => None,
    }
}

fn values_in<'t>(parts: Parts<'t>) -> Option<Values<'t>>
    ensures { result ≡ seen parts.entry }
{
    match parts {
        Parts::One(Part::Number(a)) => Some(Values::One(a)),
        Parts::Two(Part::Number(a), Part::Number(b)) => Some(Values::Two(a, b)),
        Parts::Three(Part::Number(a), Part::Number(b), Part::Number(c)) => {
            Some(Values::Three(a, b, c))
        }
        Parts::One(Part::Form(text)) => Some(Values::Form(text)),
        _ => None,
    }
}

// The line that a head and its parts make, if they are of the right sort and count.
fn line_of<'t>(head: Head, values: Values<'t>) -> Option<Line<'t>>
    ensures { result ≡ line_of head values.entry }
{
    match (head, values) {
        (Head::Version, Values::One(n)) => Some(Line::Version(n)),
        (Head::Marks, Values::One(n)) => Some(Line::Marks(n)),
        (Head::Stations, Values::One(n)) => Some(Line::Stations(n)),
        (Head::Label, Values::Two(station, letter)) => Some(Line::Label(station, letter)),
        (Head::Leg, Values::Three(from, to, seconds)) => Some(Line::Leg(Leg { from, to, seconds })),
        (Head::Bore, Values::Three(stations, down, up)) => Some(Line::Bore(Spacing {
            stations,
            down,
            up,
        })),
        (Head::Zone, Values::Three(first, last, mark)) => {
            Some(Line::Zone(Zone { first, last, mark }))
        }
        (Head::Task, Values::Form(text)) => Some(Line::Task(text)),
        (Head::Start, Values::One(n)) => Some(Line::Start(n)),
        (Head::Lookahead, Values::One(n)) => Some(Line::Lookahead(n)),
        _ => None,
    }
}

// The line that bytes are, or the first no of its bytes, its form, and its head and parts.
pub(crate) fn read_line<'t>(bytes: &'t [u8]) -> Result<Line<'t>, Fault>
    ensures { Asks bytes.now result }
{
    let form = form::read(bytes)?;
    let Some(head) = head_of(form.head) else {
        return Err(Fault::Unknown);
    };
    let Some(values) = values_in(form.parts) else {
        return Err(Fault::Unknown);
    };
    let Some(line) = line_of(head, values) else {
        return Err(Fault::Unknown);
    };
    Ok(line)
}
