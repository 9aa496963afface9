ghost use Rattle.std.specs.Prelude.{◌≡◌, ◌⊎◌};
ghost use Rattle.job.specs.Texts.{reading};
ghost use Rattle.speed.specs.Reading.{number_of};

use job::Job;
use std::alloc::Global;

// The number that a job's text is refused with, or 0; 255 for want of memory. One byte, for C.
pub fn jackdawwire_read(heap: Global, text: &[u8]) -> u8
    ensures { (result ≡ number_of (reading text.now)) ⊎ (result ≡ 255) }
{
    let Ok(mut job) = Job::new(heap) else {
        return 255;
    };
    match job.read(text) {
        Ok(_) => 0,
        Err(refused) => refused.fault.number(),
    }
}
