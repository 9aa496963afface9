use crate::bore::Bore;
use crate::table::Table;

// A table or a bore.
#[derive(Clone, Copy)]
pub enum AnyChart<'c> {
    Table(Table<'c>),
    Bore(Bore<'c>),
}

pub mod answers;
