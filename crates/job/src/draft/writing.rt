ghost use Rattle.std.specs.Prelude.{[], ◌∷◌, ◌++◌, map, vec_items};
ghost use Rattle.std.specs.List.{flat_map};
ghost use Rattle.form.specs.Forms.{bytes_of};
ghost use Rattle.form.specs.Putting.{Wrote};
ghost use Rattle.taskform.specs.Spelling.{task_tree};
ghost use Rattle.job.specs.Holding.{contents, operators_held};
ghost use Rattle.job.specs.Records.{layout_of};
ghost use Rattle.job.specs.Rows.{Row, label as label_row, leg as leg_row, zone as zone_row, task as task_row, of_numbers, row_bytes, label_rows, layout_rows, writing};

use super::Draft;
use crate::place::Kind;
use chart::{Leg, Zone};
use form::Writer;
use taskform::write_task;

// A line of a head and numbers.
fn put_line(writer: &mut Writer, head: &[u8], numbers: &[u32])
    ensures { Wrote (bytes_of (of_numbers head.now numbers.now) ++ 10 ∷ []) writer.old writer.new }
{
    writer.put_form(head, numbers);
    writer.put_byte(b'\n');
}

// What has a line of its own.
trait HasLine {
    ghost as_row: { Self → Row };

    fn put(&self, writer: &mut Writer)
        ensures { Wrote (row_bytes (as_row self.now)) writer.old writer.new };
}

impl HasLine for Leg {
    ghost as_row = { leg_row };

    fn put(&self, writer: &mut Writer) {
        put_line(writer, b"leg", &[self.from, self.to, self.seconds]);
    }
}

impl HasLine for Zone {
    ghost as_row = { zone_row };

    fn put(&self, writer: &mut Writer) {
        put_line(writer, b"zone", &[self.first, self.last, self.mark]);
    }
}

// The lines of each, in their order.
fn put_each<T: HasLine>(writer: &mut Writer, items: &[T])
    ensures { Wrote (flat_map row_bytes (map T.as_row items.now)) writer.old writer.new }
{
    for item in items {
        item.put(writer);
    }
}

impl Draft {
    // A label line for each station whose letter is not 0.
    fn put_labels(&self, writer: &mut Writer)
        ensures { Wrote (flat_map row_bytes (label_rows 0 (vec_items self.now.letters))) writer.old writer.new }
    {
        for (station, letter) in self.letters.iter().enumerate() {
            if *letter != 0 {
                put_line(writer, b"label", &[station as u32, *letter]);
            }
        }
    }

    fn put_chart(&self, writer: &mut Writer)
        ensures { Wrote (flat_map row_bytes (layout_rows (layout_of self.now))) writer.old writer.new }
    {
        let Some(kind) = self.kind else {
            return;
        };
        match kind {
            Kind::Table => {
                put_line(writer, b"stations", &[self.letters.len() as u32]);
                self.put_labels(writer);
                put_each(writer, &self.legs);
            }
            Kind::Bore(spacing) => {
                put_line(
                    writer,
                    b"bore",
                    &[spacing.stations, spacing.down, spacing.up],
                );
                put_each(writer, &self.zones);
            }
        }
    }

    // The form of the task; `(true)` where there is none.
    fn put_task(&self, writer: &mut Writer)
        ensures { Wrote (bytes_of (task_tree (operators_held self.now.task))) writer.old writer.new }
    {
        match &self.task {
            Some(task) => write_task(writer, task),
            None => writer.put_bytes(b"(true)"),
        }
    }

    fn put_task_line(&self, writer: &mut Writer)
        ensures { Wrote (row_bytes (task_row (task_tree (operators_held self.now.task)))) writer.old writer.new }
    {
        writer.put_bytes(b"(task ");
        self.put_task(writer);
        writer.put_bytes(b")\n");
    }

    // All lines, in their order.
    pub(crate) fn put(&self, writer: &mut Writer)
        ensures { Wrote (writing (contents self.now)) writer.old writer.new }
    {
        put_line(writer, b"job", &[1]);
        put_line(writer, b"marks", &[self.marks]);
        self.put_chart(writer);
        self.put_task_line(writer);
        put_line(writer, b"start", &[self.start]);
        put_line(writer, b"lookahead", &[self.lookahead]);
    }
}
