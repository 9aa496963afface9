// What the benchmark calls, which is written in Rust: the calls of `speed`, exported.
#![tactic(auto)]

ghost use Rattle.std.specs.Prelude.{◌≡◌, ◌⊎◌, Bool, true, false, List, ◌∷◌, replicate, count_by};
ghost use Rattle.best.specs.Kinds.{answers};
ghost use Rattle.best.specs.Paths.{IsBest};
ghost use Rattle.job.specs.Texts.{reading};
ghost use Rattle.speed.specs.Codes.{told_for};
ghost use Rattle.speed.specs.Reading.{number_of};
ghost use Rattle.speed.specs.Shuffled.{shuffled};

use std::alloc::Global;

// The number of states of the task of these codes, or 128 and the number of its refusal; 255 for more than 80 codes.
#[unsafe(no_mangle)]
pub extern "C" fn jackdawwire_compile(marks: u8, codes: &[u8]) -> u8
    ensures { result ≡ told_for marks codes.now }
{
    speed::jackdawwire_compile(marks, codes)
}

// How many nodes reach node 0, found with a queue or by sweeps alone.
#[unsafe(no_mangle)]
pub extern "C" fn jackdawwire_reach(queued: u8) -> u32
    ensures { (live : List Bool) × IsBest answers shuffled (true ∷ replicate 16383 false) live × (result ≡ count_by (λ b. b) live) }
{
    speed::jackdawwire_reach(queued)
}

// The number that a job's text is refused with, or 0; 255 for want of memory.
#[unsafe(no_mangle)]
pub extern "C" fn jackdawwire_read(heap: Global, text: &[u8]) -> u8
    ensures { (result ≡ number_of (reading text.now)) ⊎ (result ≡ 255) }
{
    speed::jackdawwire_read(heap, text)
}
