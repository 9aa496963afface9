// Reads a job from standard input; prints the refusal, or the job as it is written and what its task is up to.
#![tactic(auto)]

mod outlook;

use chart::Chart;
use job::Job;
use outlook::look_ahead;
use std::io;
use std::io::{Read, Write};

// Prints the job as it is written, and what its task is up to at the start.
fn show(rt: &HostRuntime, job: &Job, memory: &mut [u8]) -> io::Result<()> {
    let length = match job.write(memory) {
        Ok(length) => length,
        Err(fault) => {
            // a fault of writing has no line, so 0 stands there
            let number = fault.number();
            return println!(rt; "(refused {number} 0)");
        }
    };
    if let Some(text) = memory.get(0..length) {
        rt.stdout().write_all(text)?;
    }
    if let Some(task) = job.task() {
        let letter = job.chart().letter(job.start());
        if let Some(outlook) = look_ahead(task, letter) {
            println!(rt; "{outlook}")?;
        }
    }
    Ok(())
}

fn main(rt: HostRuntime) -> io::Result<()> {
    let mut job = Job::new(rt.alloc())?;
    let mut memory = vec![in rt.alloc(); 0u8; 65536]?;
    // one byte more than a text may have, so that a longer one is refused
    let mut text = Vec::new(rt.alloc());
    rt.stdin().take(65537).read_to_end(&mut text)?;
    match job.read(&text) {
        Ok(_) => show(&rt, &job, &mut memory),
        Err(refused) => println!(rt; "{refused}"),
    }
}
