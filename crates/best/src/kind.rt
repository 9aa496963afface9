ghost use Rattle.std.specs.Prelude.{◌≡◌, nat_lt};
ghost use Rattle.best.specs.Kinds.{Order, Lawful, answers, counts};
ghost use Rattle.std.proofs.Common.{rules};

// A kind of value: a total order with a worst value, none, and the extension of a value by an arc's weight, which never
// improves it and keeps the order.
pub trait Kind {
    type Value: Copy;

    type Weight: Copy;

    ghost order: { Order Self.Value Self.Weight };

    fn none() -> Self::Value
        ensures { result ≡ order.none };

    fn better(a: Self::Value, b: Self::Value) -> bool
        ensures { result ≡ nat_lt (order.rank a) (order.rank b) };

    fn extend(weight: Self::Weight, value: Self::Value) -> Self::Value
        ensures { result ≡ order.extended weight value };

    ghost lawful: { Lawful order };
}

// Yes or no: whether a seed can be reached.
#[derive(Clone, Copy)]
pub struct YesNo;

impl Kind for YesNo {
    type Value = bool;

    type Weight = ();

    ghost order = { answers };

    ghost lawful = { Prim.search rules };

    fn none() -> bool {
        false
    }

    fn better(a: bool, b: bool) -> bool {
        a && !b
    }

    fn extend(_weight: (), value: bool) -> bool {
        value
    }
}

// Letter counts: how many letters lead to a seed; the largest number stands for none, since the caller's memory is of numbers
// and stays so. `Seconds` differs in its width alone,
// but a trait over both widths would ask each for what `Kind` asks: its largest number, its sums and their order.
#[derive(Clone, Copy)]
pub struct Letters;

impl Kind for Letters {
    type Value = u32;

    type Weight = u32;

    ghost order = { counts 4294967295 };

    ghost lawful = { Prim.search rules };

    fn none() -> u32 {
        u32::MAX
    }

    fn better(a: u32, b: u32) -> bool {
        a < b
    }

    fn extend(weight: u32, value: u32) -> u32 {
        value.saturating_add(weight)
    }
}

// Seconds; the largest number stands for none, as for letters.
#[derive(Clone, Copy)]
pub struct Seconds;

impl Kind for Seconds {
    type Value = u64;

    type Weight = u32;

    ghost order = { counts 18446744073709551615 };

    ghost lawful = { Prim.search rules };

    fn none() -> u64 {
        u64::MAX
    }

    fn better(a: u64, b: u64) -> bool {
        a < b
    }

    fn extend(weight: u32, value: u64) -> u64 {
        value.saturating_add(u64::from(weight))
    }
}
