ghost use Rattle.std.specs.Prelude.{◌≤◌};

use sheet::row::Row;

/// A row above the one that is judged, and the price of each of its jobs: run time and charge, in ticks.
#[derive(Clone, Copy)]
pub struct Source {
    pub row: Row,
    pub price: u32,
    ghost price_top: { price ≤ 17825790 },
}

/// The rows above, without gaps, the most urgent first: an iteration meets no place without a row.
#[derive(Drop)]
pub struct Above {
    pub sources: [Source; 32],
    /// How many of them can pre-empt the judged row once it has started.
    pub preempting: usize,
    /// How many they are.
    pub len: usize,
}
