// Reads a table of job texts, each with the number and the line that it is to be refused with, and says where they differ.
#![tactic(auto)]

mod table;

use job::Job;
use std::io;
use table::{Answer, expand, row_of};

// Whether a text that was accepted is the job's text, as the writer writes it, and then the rest.
fn is_written_back(job: &Job, text: &[u8], rest: &[u8], memory: &mut [u8]) -> bool {
    let Ok(length) = job.write(memory) else {
        return false;
    };
    memory.get(..length) == text.get(..length) && rest.len() == text.len() - length
}

// What a text is answered.
fn answer(job: &mut Job, text: &[u8], memory: &mut [u8]) -> Answer {
    match job.read(text) {
        Err(refused) => Answer::from(refused),
        Ok(rest) if is_written_back(job, text, rest, memory) => Answer::Accepted,
        Ok(_) => Answer::WrittenOtherwise,
    }
}

fn main(rt: HostRuntime) -> io::Result<()> {
    let mut job = Job::new(rt.alloc())?;
    let mut memory = vec![in rt.alloc(); 0u8; 65536]?;
    let mut cases = 0u32;
    let mut agree = 0u32;
    for line in rt.lines(rt.alloc()) {
        let line = line?;
        let Some(row) = row_of(line.as_bytes()) else {
            continue;
        };
        let text = expand(rt.alloc(), row.text)?;
        let answer = answer(&mut job, &text, &mut memory);
        cases = cases.saturating_add(1);
        if answer == row.answer {
            agree = agree.saturating_add(1);
        } else {
            println!(rt; "(differs {cases} {answer})")?;
        }
    }
    println!(rt; "({agree} of {cases} agree)")
}
