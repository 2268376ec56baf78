ghost use Rattle.std.specs.Prelude.{◌≡◌, ℕ, ◌<◌, ◌&&◌, not, slice_index};
ghost use Rattle.theory.specs.Sets.{FirstOutside, SameSets, count_below, intersection, size, union};
ghost use Rattle.blocks.specs.Members.{all_sets, bit, has, listed, no_sets, plus};

use std::array;

/// Some of the 256 sets of the cache.
// Set s is bit s mod 64 of word s div 64.
#[derive(Clone, Copy, PartialEq, Eq, Debug, Default)]
pub struct CacheSets {
    words: [u64; 4],
}

impl CacheSets {
    /// None of the sets.
    pub fn empty() -> CacheSets
        ensures { SameSets (has result) no_sets }
    {
        CacheSets::default()
    }

    /// All of the sets.
    pub fn full() -> CacheSets
        ensures { SameSets (has result) all_sets }
    {
        CacheSets {
            words: [u64::MAX; 4],
        }
    }

    /// Whether set s is among these.
    pub fn contains(&self, s: u8) -> bool
        ensures { result ≡ has self.now s }
    {
        self.words[s as usize / 64] >> (s % 64) & 1 == 1
    }

    /// These and set s.
    pub fn with(self, s: u8) -> CacheSets
        ensures { SameSets (has result) (plus (has self) s) }
    {
        let mut words = self.words;
        words[s as usize / 64] |= 1 << (s % 64);
        CacheSets { words }
    }

    /// The sets whose numbers are listed.
    pub fn of(list: &[u8]) -> CacheSets
        ensures { SameSets (has result) (listed list.now) }
    {
        list.iter()
            .fold(CacheSets::empty(), |sets, s| sets.with(*s))
    }

    // Each word by one of these and one of the others.
    fn by_words<F: Fn(u64, u64) -> u64>(&self, other: &CacheSets, word: F) -> CacheSets
        requires { F.IsAlwaysCallable word }
        ensures { (q : ℕ) → q < 4 → F.post word (slice_index self.now.words q) (slice_index other.now.words q) (slice_index result.words q) }
    {
        CacheSets {
            words: array::from_fn(|q| word(self.words[q], other.words[q])),
        }
    }

    /// The sets that are among these or the others.
    pub fn union(&self, other: &CacheSets) -> CacheSets
        ensures { SameSets (has result) (union (has self.now) (has other.now)) }
    {
        self.by_words(other, |a, b| a | b)
    }

    /// The sets that are among these and the others.
    pub fn intersection(&self, other: &CacheSets) -> CacheSets
        ensures { SameSets (has result) (intersection (has self.now) (has other.now)) }
    {
        self.by_words(other, |a, b| a & b)
    }

    /// How many sets these are.
    pub fn size(&self) -> u32
        ensures { result ≡ size (has self.now) }
    {
        self.words.iter().map(|word| bits_of(*word)).sum()
    }

    /// The first of these that is not among the others.
    pub fn first_outside(&self, other: &CacheSets) -> Option<u8>
        ensures { FirstOutside (has self.now) (has other.now) result }
    {
        self.by_words(other, left_of).first()
    }

    fn first(&self) -> Option<u8>
        ensures { FirstOutside (has self.now) no_sets result }
    {
        for (q, word) in self.words.iter().enumerate() {
            if *word != 0 {
                return Some(q as u8 * 64 + word.trailing_zeros() as u8);
            }
        }
        None
    }
}

// How many bits of a word are set.
fn bits_of(word: u64) -> u32
    ensures { result ≡ count_below (bit word) 64 }
{
    word.count_ones()
}

// The bits of a word that another leaves out.
fn left_of(word: u64, other: u64) -> u64
    ensures { (t : ℕ) → t < 64 → bit result t ≡ (bit word t && not (bit other t)) }
{
    word & !other
}
