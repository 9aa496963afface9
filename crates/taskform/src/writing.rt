ghost use Rattle.std.specs.Prelude.{◌≡◌, ◌≤◌, List, ◌∷◌, ◌++◌, length};
ghost use Rattle.form.specs.Forms.{Tree, bytes_of, written};
ghost use Rattle.form.specs.Putting.{Puts, Wrote};
ghost use Rattle.task.specs.Compiled.{operators_of};
ghost use Rattle.taskform.specs.Spelling.{forms, leaf_parts, task_tree};
ghost use Rattle.taskform.specs.Words.{word_of};

use form::Writer;
use ltlf::operator::Operator;
use task::Task;

fn word_of(operator: Operator) -> &'static [u8]
    ensures { result.now ≡ word_of operator }
{
    match operator {
        Operator::True => b"true",
        Operator::Mark(_) => b"mark",
        Operator::Not => b"not",
        Operator::And => b"and",
        Operator::Or => b"or",
        Operator::Next => b"next",
        Operator::Weak => b"weak",
        Operator::Until => b"until",
        Operator::Eventually => b"eventually",
        Operator::Always => b"always",
    }
}

// A mark's number after a space; nothing for the other operators.
fn put_mark(writer: &mut Writer, operator: Operator)
    ensures { Wrote (written (leaf_parts operator)) writer.old writer.new }
{
    if let Operator::Mark(mark) = operator {
        writer.put_byte(b' ');
        writer.put_number(u32::from(mark));
    }
}

// Writes the form that the operators begin with, and gives the operators after it.
fn put_first<'o>(writer: &mut Writer, operators: &'o [Operator]) -> &'o [Operator]
    ensures answer { (f : Tree) (fs : List Tree) → forms operators.now ≡ f ∷ fs
        → Wrote (bytes_of f) writer.old writer.new × (forms result.now ≡ fs) }
    ensures fewer { length result.now ≤ length operators.now }
{
    let Some((operator, rest)) = operators.split_first() else {
        return operators;
    };
    writer.put_byte(b'(');
    writer.put_bytes(word_of(*operator));
    put_mark(writer, *operator);
    // one operand at a time, as the definition of a form takes them
    let operands = operator.operands();
    if operands == 0 {
        writer.put_byte(b')');
        return rest;
    }
    writer.put_byte(b' ');
    let rest = put_first(writer, rest);
    if operands == 1 {
        writer.put_byte(b')');
        return rest;
    }
    writer.put_byte(b' ');
    let rest = put_first(writer, rest);
    writer.put_byte(b')');
    rest
}

// Writes the form of a task.
pub fn write_task(writer: &mut Writer, task: &Task)
    ensures { Wrote (bytes_of (task_tree (operators_of task.now))) writer.old writer.new }
{
    put_first(writer, task.operators());
}

// The same for a caller without a writer: into memory from a place on, as much of it as fits; gives the place after all
// of it.
pub fn put_task(memory: &mut [u8], at: usize, task: &Task) -> usize
    ensures { Puts at (bytes_of (task_tree (operators_of task.now))) memory.old result memory.new }
{
    let mut writer = Writer::new(memory, at);
    write_task(&mut writer, task);
    writer.place()
}
