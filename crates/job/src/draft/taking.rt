ghost use Rattle.std.specs.Prelude.{◌≡◌, ◌-◌, ◌^◌, ◌≤◌, ◌&&◌, replicate, vec_len, vec_capacity, ◌==◌, nat_le, nat_lt};
ghost use Rattle.chart.specs.Limits.{among};
ghost use Rattle.form.specs.Forms.{Tree, Good, bytes_of};
ghost use Rattle.job.specs.Compiling.{is_task};
ghost use Rattle.job.specs.Contents.{zone_fits};
ghost use Rattle.job.specs.Records.{Takes, TakesBytes};
ghost use Rattle.job.specs.Lining.{Is};
ghost use Rattle.job.specs.Rows.{Row, version, marks, stations, label, leg, boring, zone, task, start, lookahead};
ghost use Rattle.job.specs.Taking.{rank};

use super::Draft;
use crate::fault::Fault;
use crate::line::{Line, read_line};
use crate::place::{Kind, Place};
use chart::{Leg, Spacing, Zone};
use task::Task;

// Whether a label's station is one of so many, not below the least, and its letter is one of the marks', but not 0.
fn label_fits(marks: u32, least: u32, stations: u32, station: u32, letter: u32) -> bool
    requires { marks ≤ 6 }
    ensures { result ≡ ((nat_le least station && nat_lt station stations) && among 1 (2 ^ marks - 1) letter) }
{
    least <= station && station < stations && (1..=(1 << marks) - 1).contains(&letter)
}

// Whether a zone's stations are among so many, and its mark one of the job's marks, which a chart knows nothing of.
fn zone_fits(marks: u32, stations: u32, zone: Zone) -> bool
    ensures { result ≡ zone_fits marks stations zone }
{
    zone.first <= zone.last && zone.last < stations && zone.mark < marks
}

// Whether the form of a task line is a task form at all: its place is asked before its limits.
fn is_task(made: &Result<Task, taskform::Fault>) -> bool
    ensures { result ≡ is_task made.now }
{
    !matches!(made, Err(taskform::Fault::NotATask))
}

// So many noughts in place of what the list held. It has the room, so nothing can fail here, as in `resize` it could.
fn fill_with_noughts(letters: &mut Vec<u32>, n: u32)
    requires { n ≤ vec_capacity letters.old }
    ensures items { letters.new.items ≡ replicate n 0 }
    ensures len { vec_len letters.new ≡ n }
    ensures capacity { vec_capacity letters.new ≡ vec_capacity letters.old }
{
    letters.clear();
    for _ in 0..n {
        letters.push_reserved(0);
    }
}

impl Draft {
    // Whether the last line was taken.
    pub(crate) fn is_done(&self) -> bool
        ensures { result ≡ (rank self.now.place == 8) }
    {
        matches!(self.place, Place::Done)
    }

    // Whether the task may come next.
    fn takes_task(&self) -> bool
        ensures { result ≡ among 3 5 (rank self.now.place) }
    {
        matches!(self.place, Place::Labels(_) | Place::Legs | Place::Zones)
    }

    // Each line asks and changes other things, so they are functions of their own.

    fn version_line(&mut self, n: u32) -> Result<(), Fault>
        ensures { Takes self.old (version n) result self.new }
    {
        let Place::Version = self.place else {
            return Err(Fault::OutOfPlace);
        };
        if n != 1 {
            return Err(Fault::OutOfRange);
        }
        self.place = Place::Marks;
        Ok(())
    }

    fn marks_line(&mut self, n: u32) -> Result<(), Fault>
        ensures { Takes self.old (marks n) result self.new }
    {
        let Place::Marks = self.place else {
            return Err(Fault::OutOfPlace);
        };
        if !(1..=6).contains(&n) {
            return Err(Fault::OutOfRange);
        }
        self.marks = n;
        self.place = Place::Chart;
        Ok(())
    }

    fn stations_line(&mut self, n: u32) -> Result<(), Fault>
        ensures { Takes self.old (stations n) result self.new }
    {
        let Place::Chart = self.place else {
            return Err(Fault::OutOfPlace);
        };
        if !(1..=256).contains(&n) {
            return Err(Fault::OutOfRange);
        }
        self.kind = Some(Kind::Table);
        self.legs.clear();
        fill_with_noughts(&mut self.letters, n);
        self.place = Place::Labels(0);
        Ok(())
    }

    fn label_line(&mut self, station: u32, letter: u32) -> Result<(), Fault>
        ensures { Takes self.old (label station letter) result self.new }
    {
        let Place::Labels(least) = self.place else {
            return Err(Fault::OutOfPlace);
        };
        if !label_fits(self.marks, least, self.station_count(), station, letter) {
            return Err(Fault::OutOfRange);
        }
        if let Some(Kind::Table) = self.kind {
            self.letters[station as usize] = letter;
        }
        self.place = Place::Labels(station + 1);
        Ok(())
    }

    fn leg_line(&mut self, next: Leg) -> Result<(), Fault>
        ensures { Takes self.old (leg next) result self.new }
    {
        let (Place::Labels(_) | Place::Legs) = self.place else {
            return Err(Fault::OutOfPlace);
        };
        if !next.is_sound(self.station_count() as usize) {
            return Err(Fault::OutOfRange);
        }
        if self.leg_count() >= 1024 {
            return Err(Fault::TooMany);
        }
        if let Some(Kind::Table) = self.kind {
            self.legs.push_reserved(next);
        }
        self.place = Place::Legs;
        Ok(())
    }

    fn bore_line(&mut self, spacing: Spacing) -> Result<(), Fault>
        ensures { Takes self.old (boring spacing.stations spacing.down spacing.up) result self.new }
    {
        let Place::Chart = self.place else {
            return Err(Fault::OutOfPlace);
        };
        if !spacing.is_sound() {
            return Err(Fault::OutOfRange);
        }
        self.kind = Some(Kind::Bore(spacing));
        self.zones.clear();
        self.place = Place::Zones;
        Ok(())
    }

    fn zone_line(&mut self, next: Zone) -> Result<(), Fault>
        ensures { Takes self.old (zone next) result self.new }
    {
        let Place::Zones = self.place else {
            return Err(Fault::OutOfPlace);
        };
        if !zone_fits(self.marks, self.station_count(), next) {
            return Err(Fault::OutOfRange);
        }
        if self.zone_count() >= 8 {
            return Err(Fault::TooMany);
        }
        if let Some(Kind::Bore(_)) = self.kind {
            self.zones.push_reserved(next);
        }
        Ok(())
    }

    fn start_line(&mut self, n: u32) -> Result<(), Fault>
        ensures { Takes self.old (start n) result self.new }
    {
        let Place::Start = self.place else {
            return Err(Fault::OutOfPlace);
        };
        if n >= self.station_count() {
            return Err(Fault::OutOfRange);
        }
        self.start = n;
        self.place = Place::Lookahead;
        Ok(())
    }

    fn lookahead_line(&mut self, n: u32) -> Result<(), Fault>
        ensures { Takes self.old (lookahead n) result self.new }
    {
        let Place::Lookahead = self.place else {
            return Err(Fault::OutOfPlace);
        };
        if !(1..=1024).contains(&n) {
            return Err(Fault::OutOfRange);
        }
        self.lookahead = n;
        self.place = Place::Done;
        Ok(())
    }

    fn task_line(&mut self, text: &[u8]) -> Result<(), Fault>
        ensures { (f : Tree) → Good f → text.now ≡ bytes_of f
            → Takes self.old (task f) result self.new }
    {
        let made = taskform::compile(self.marks as u8, text);
        if is_task(&made) && !self.takes_task() {
            return Err(Fault::OutOfPlace);
        }
        self.task = Some(made?);
        self.place = Place::Start;
        Ok(())
    }

    // Takes a line, if it may come here and its numbers are in range.
    fn take(&mut self, line: Line) -> Result<(), Fault>
        ensures { (row : Row) → Is line.entry row → Takes self.old row result self.new }
    {
        match line {
            Line::Version(n) => self.version_line(n),
            Line::Marks(n) => self.marks_line(n),
            Line::Stations(n) => self.stations_line(n),
            Line::Label(station, letter) => self.label_line(station, letter),
            Line::Leg(leg) => self.leg_line(leg),
            Line::Bore(spacing) => self.bore_line(spacing),
            Line::Zone(zone) => self.zone_line(zone),
            Line::Task(text) => self.task_line(text),
            Line::Start(n) => self.start_line(n),
            Line::Lookahead(n) => self.lookahead_line(n),
        }
    }

    // The same of a line's bytes.
    pub(crate) fn take_line(&mut self, bytes: &[u8]) -> Result<(), Fault>
        ensures { TakesBytes self.old bytes.now result self.new }
    {
        let line = read_line(bytes)?;
        self.take(line)
    }
}
