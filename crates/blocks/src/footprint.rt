use super::sets::CacheSets;

/// The cache sets that a row loads blocks into, and those whose blocks it uses again.
#[derive(Clone, Copy, PartialEq, Eq, Debug, Default)]
pub struct Footprint {
    pub evicting: CacheSets,
    pub useful: CacheSets,
}
