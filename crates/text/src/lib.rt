// Lines, words and numbers in a text of bytes.
#![tactic(auto)]

ghost use Rattle.std.specs.Prelude.{◌≡◌, ℕ, ◌<◌, ◌≤◌, true, [], ◌∷◌, Bool, length, Some, IfSome, MatchOption};
ghost use Rattle.std.specs.Iterator.{YieldsFirstRef, item_count};
ghost use Rattle.std.specs.List.{prefix_len};
ghost use Rattle.text.specs.Numbers.{number_in, fault_text};
ghost use Rattle.text.specs.Text.{lines, blank, words, all_digits, spelled};

use std::error::Error;
use std::fmt;

/// Why a word is not read as a number.
#[derive(Clone, Copy, PartialEq, Eq, Debug)]
pub enum NumberFault {
    NotDigits,
    AboveTop,
}

impl fmt::Display for NumberFault {
    ghost output = { λ e. Some (fault_text e) };

    fn fmt<W: fmt::Write>(&self, f: &mut fmt::Formatter<W>) -> fmt::Result {
        f.write_str(match self {
            NumberFault::NotDigits => "not a whole number",
            NumberFault::AboveTop => "too large",
        })
    }
}

impl Error for NumberFault {}

fn is_blank(b: u8) -> bool
    ensures { result ≡ blank b }
{
    matches!(b, b' ' | b'\t' | b'\r')
}

// How many bytes a text begins with that pass a test.
fn run_len<F: Fn(u8) -> bool>(text: &[u8], passes: F) -> usize
    ghost test: { ℕ → Bool }
    requires callable { F.IsAlwaysCallable passes }
    requires tests { (b : ℕ) (r : Bool) → F.post passes b r → r ≡ test b }
    ensures run { result ≡ prefix_len test text.now }
    ensures within { result ≤ length text.now }
{
    text.iter().take_while(|b| passes(**b)).count()
}

/// The first word of a line and the text after it; none where only blanks and a comment are left.
pub fn split_word(text: &[u8]) -> Option<(&[u8], &[u8])>
    ensures { MatchOption result (words text.now ≡ []) (λ x. words text.now ≡ x.0.now ∷ words x.1.now) }
{
    let (_, start) = text.split_at(run_len(text, is_blank));
    let len = run_len(start, |b| !is_blank(b) && b != b'#');
    if len == 0 {
        return None;
    }
    Some(start.split_at(len))
}

/// The first line of a text, without its end, and the text after it; none where the text is empty.
pub fn split_line(text: &[u8]) -> Option<(&[u8], &[u8])>
    ensures cuts { MatchOption result (lines text.now ≡ []) (λ x. lines text.now ≡ x.0.now ∷ lines x.1.now) }
    ensures shorter { IfSome result (λ x. length x.1.now < length text.now) }
{
    if text.is_empty() {
        return None;
    }
    let (line, end) = text.split_at(run_len(text, |b| b != b'\n'));
    let (_, rest) = end.split_at(end.len().min(1));
    Some((line, rest))
}

/// The lines of a text, one after the other.
#[derive(Drop)]
pub struct Lines<'a>(pub &'a [u8]);

impl<'a> Iterator for Lines<'a> {
    type Item = &'a [u8];

    ghost next_gives = { YieldsFirstRef (λ s. lines s.0.now) };

    ghost remaining = { item_count (λ s. lines s.0.now) };

    fn next(&mut self) -> Option<&'a [u8]> {
        let (line, rest) = split_line(self.0)?;
        self.0 = rest;
        Some(line)
    }
}

fn is_number(word: &[u8]) -> bool
    ensures { result ≡ all_digits word.now }
{
    word.iter().all(u8::is_ascii_digit)
}

// The number that digits spell, unless it is above the top.
fn number_within(word: &[u8], top: u32) -> Option<u32>
    requires { all_digits word.now ≡ true }
    ensures { MatchOption result (top < spelled 0 word.now) (λ n. (n ≡ spelled 0 word.now) × (n ≤ top)) }
{
    word.iter().try_fold(0, |n: u32, b| {
        let n = u64::from(n) * 10 + u64::from(b.wrapping_sub(b'0'));
        u32::try_from(n).ok().filter(|n| *n <= top)
    })
}

/// Reads a word as a decimal number that is not above the top.
pub fn read_number(word: &[u8], top: u32) -> Result<u32, NumberFault>
    ensures { result ≡ number_in top word.now }
{
    if !is_number(word) {
        return Err(NumberFault::NotDigits);
    }
    number_within(word, top).ok_or(NumberFault::AboveTop)
}
