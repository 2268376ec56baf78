// An enum and no trait: the kinds are four for good, a program goes through them, and one proof of the laws serves all.
/// How the blocks are counted that one job of row j makes the affected rows load again.
#[derive(Clone, Copy, PartialEq, Eq, Debug)]
pub enum Reckoning {
    /// E: the evicting blocks of j.
    EvictingOnly,
    /// U: the most useful blocks of one affected row.
    UsefulOnly,
    /// V: the useful blocks of all affected rows together, as far as j evicts them.
    UsefulUnion,
    /// X: the most useful blocks of one affected row, as far as j or a row above j evicts them.
    EvictingUnion,
}
