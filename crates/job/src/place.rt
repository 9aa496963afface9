use chart::Spacing;

// Which line may come next in a job text.
#[derive(Clone, Copy, PartialEq, Eq, Debug)]
pub enum Place {
    Version,
    Marks,
    Chart,
    // labels of stations from this one on, legs, or the task
    Labels(u32),
    // legs, or the task
    Legs,
    // zones, or the task
    Zones,
    Start,
    Lookahead,
    Done,
}

// Which chart a record holds, but for the letters, legs and zones, which have their rooms there.
#[derive(Clone, Copy, PartialEq, Eq, Debug)]
pub enum Kind {
    Table,
    Bore(Spacing),
}
