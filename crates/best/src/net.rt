ghost use Rattle.std.specs.Prelude.{◌≡◌};
ghost use Rattle.best.specs.Paths.{Meaning, Closed, Reverses, Next};

// A net of numbered nodes with weighted arcs. Every question has an answer, whatever it is asked of.
pub trait Net {
    type Weight: Copy;

    ghost meaning: { Self → Meaning Self.Weight };

    // The arcs the other way round, in numbers of their own. They are for speed alone.
    ghost reverse: { Self → Meaning Self.Weight };

    // No arc leads out of the net, and each arc of the reverse net is one of the net the other way round.
    ghost closed: { (n : Self) → Closed (meaning n) };

    ghost reverses: { (n : Self) → Reverses (meaning n) (reverse n) };

    fn nodes(&self) -> usize
        ensures { result ≡ (meaning self.now).nodes };

    // The arc that leaves a node with the lowest number from a given one on: its number, where it leads, its weight.
    fn leaving(&self, node: usize, from: usize) -> Option<(usize, usize, Self::Weight)>
        ensures { Next (meaning self.now) node from result };

    // The same of the arcs into a node: the number, where the arc comes from, its weight.
    fn entering(&self, node: usize, from: usize) -> Option<(usize, usize, Self::Weight)>
        ensures { Next (reverse self.now) node from result };
}
