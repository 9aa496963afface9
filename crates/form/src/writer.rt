ghost use Rattle.std.specs.Prelude.{◌≤◌, length};

// Writes bytes into lent memory from a place on, as many as fit, and keeps the place after all of them: so the same calls
// measure, on empty memory, and write.
#[derive(Drop)]
pub struct Writer<'m> {
    memory: &'m mut [u8],
    place: usize,
    // both are words
    ghost long: { length memory.now ≤ 18446744073709551615 },
    ghost low: { place ≤ 18446744073709551615 },
}

pub mod making;
pub mod putting;
