// The totals of a morning sheet, 60 words that are lent: word 0 counts the accepted scripts, word r those refused under r, word 44 + k the
// node records of kind k, word 59 the keyframe entries. And the two means over them.
#![tactic(auto)]

ghost use Rattle.std.specs.Prelude.{◌+◌, ◌-◌, ◌≤◌, ◌<◌, ◌≡◌, length, get_or, take, drop};
ghost use Rattle.error.specs.Answer.{mean_values};
ghost use Rattle.totals.specs.Totals.{sum_of, itself, over, added, in_word};
ghost use Rattle.totals.specs.Mean.{gcd, fraction, mean as Mean·mean};

use error::{MeanAnswer, Refusal};

pub const WORDS: usize = 60;

pub const ACCEPTED_WORD: usize = 0;

pub const FIRST_KIND_WORD: usize = 44;

pub const TRACKS_WORD: usize = 46;

pub const ENTRIES_WORD: usize = 59;

pub const FIGURE_LIMIT: u32 = 268431360;

// Whether a figure is above the limit.
pub fn over_limit(words: &[u32]) -> bool
    ensures { result ≡ over words.now }
{
    words.iter().any(|&w| FIGURE_LIMIT < w)
}

// The sum of the words from one to another. For our own crates: both are words that are lent, of the 60.
pub fn sum(words: &[u32], from: usize, to: usize) -> u64
    requires to_in_bounds { to ≤ length words.now }
    requires to_bound { to ≤ 60 }
    ensures { result ≡ sum_of itself (take (to - from) (drop from words.now)) }
{
    let first = from.min(to);
    words[first..to].iter().map(|&w| u64::from(w)).sum()
}

// Adds a number to a word. For our own crates: it is one that is lent, and the sum is below 2^32.
pub fn add(words: &mut [u32], i: usize, n: u32)
    requires i_in_bounds { i < length words.old }
    requires n_bound { get_or words.old i 0 + n < 4294967296 }
    ensures { words.new ≡ added (in_word i n) words.old }
{
    words[i] += n;
}

// The greatest common divisor.
fn divisor(mut a: u32, mut b: u32) -> u32
    ensures { result ≡ gcd a b }
{
    while b != 0 {
        (a, b) = (b, a % b);
    }
    a
}

// A quotient in lowest terms.
fn quotient(a: u32, b: u32) -> MeanAnswer
    ensures { result ≡ fraction a b }
{
    if b == 0 {
        return MeanAnswer::Nothing;
    }
    let d = divisor(a, b);
    MeanAnswer::Fraction {
        numerator: a / d,
        denominator: b / d,
    }
}

// The mean of the node records of an accepted script, for 0; or of the entries of a track, for another number.
pub fn mean(totals: &[u32; 60], which: u32) -> MeanAnswer
    ensures value { result ≡ Mean·mean totals.now which }
    ensures values { mean_values result ≡ mean_values (Mean·mean totals.now which) }
{
    if over_limit(totals) {
        return MeanAnswer::Refused {
            refusal: Refusal::TooManyScripts,
            place: 0,
        };
    }
    if which == 0 {
        let records = sum(totals, FIRST_KIND_WORD, ENTRIES_WORD);
        return quotient(records as u32, totals[ACCEPTED_WORD]);
    }
    quotient(totals[ENTRIES_WORD], totals[TRACKS_WORD])
}
