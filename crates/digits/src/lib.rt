// How a number is written: with the fewest digits that read to it, and of these the smallest.
#![tactic(auto)]

ghost use Rattle.std.specs.Prelude.{◌≡◌, ℕ, ◌+◌, ◌*◌, ◌/◌, ◌^◌, ◌<◌, ◌≤◌, length, Some, IfSome};
ghost use Rattle.limbs.specs.LimbMeans.{up_to};
ghost use Rattle.std.proofs.Math.Option.{some};
ghost use Rattle.digits.specs.Fewest.{fewest, least_percent};
ghost use Rattle.digits.specs.AnswerMeans.{number_of, Neat, decimal_of, whole_of};
ghost use Rattle.digits.specs.Means.{highest, least, infinity, doublings, first_past, Fixed, Long, Lengthy, Doubled, LeastWhole, percent_bits, whole24, float_whole, FirstFloat, Fair, Halfway, Placed, Spaced, FirstAt, Wide, Ready, Searched};

use number::Stored;

// A number without sign, (n + middle * 10^18 + high * 10^36) / 10^places.
#[derive(Clone, Copy)]
pub struct Decimal {
    pub n: u64,
    pub middle: u64,
    pub high: u64,
    pub places: usize,
}

// The middle between an f32 and the next smaller one, num / 2^shift. `tie` is 1 where it rounds up, else 0.
#[derive(Clone, Copy)]
struct Middle {
    num: u64,
    shift: u32,
    tie: u64,
}

// The best number so far, if there is one, how many digits it may have, and 10 to that power.
#[derive(Clone, Copy)]
struct Best {
    number: Option<Decimal>,
    digits: usize,
    limit: u64,
}

// How many digits a number has, and 10 to that power.
#[derive(Clone, Copy)]
struct Width {
    digits: usize,
    limit: u64,
}

// The f32 next to 10^-9 and the f32 10^10: between them 64 bits do.
const LOWEST: u32 = 814313567;

const HIGHEST: u32 = 1343554297;

// The f32 next to 10^-40, the smallest that a number above 0 reads to, and infinity, the largest.
const LEAST: u32 = 71362;

const INFINITY: u32 = 2139095040;

// How many doublings the digits of the f32 with these bits have had.
fn doublings(bits: u32) -> u32
    ensures { result ≡ doublings bits }
{
    (bits / 8388608).saturating_sub(1)
}

// The middle below the f32 with these bits.
fn middle_below(bits: u32) -> Middle
    requires { (0 < bits) × (bits ≤ highest + 1) }
    ensures { Halfway bits result × Placed bits result }
{
    let b = bits - 1;
    let k = doublings(b);
    let w = b - k * 8388608;
    let half = u64::from(w * 2 + 1);
    let tie = u64::from(w % 2);
    if k < 150 {
        Middle {
            num: half,
            shift: 150 - k,
            tie,
        }
    } else {
        Middle {
            num: half << (k - 150),
            shift: 0,
            tie,
        }
    }
}

// The least n with n / scale past a middle.
fn past(m: Middle, scale: u64) -> u64
    requires { Fair m × (0 < scale) × (scale ≤ 10 ^ 9) }
    ensures { (b : ℕ) → Halfway b m → FirstAt b scale result }
{
    (m.num * scale + (1u64 << m.shift) - m.tie) >> m.shift
}

// The digits of n / 10^places, one before the point at least; `scale` is 10^places.
fn width_of(n: u64, places: usize, scale: u64) -> Width
    requires { (n < 10 ^ 19) × (places ≤ 9) × (scale ≡ 10 ^ places) }
    ensures { Wide n places result.digits result.limit }
{
    let mut digits = places + 1;
    let mut limit = scale * 10;
    while limit <= n {
        limit *= 10;
        digits += 1;
    }
    Width { digits, limit }
}

// One more place: the least number with it that reads to the f32, taken if it has as few digits as the best, since it is smaller.
fn step(s: Best, low: Middle, high: Middle, places: usize, scale: u64) -> Best
    requires { Ready s low high places scale }
    ensures { (b : ℕ) → b ≤ highest → Halfway b low → Halfway (b + 1) high → Spaced low high → Searched b low.shift places s → Searched b low.shift (places + 1) result }
{
    let n = past(low, scale);
    if s.limit <= n {
        return s;
    }
    let end = past(high, scale);
    if end <= n {
        return s;
    }
    let w = width_of(n, places, scale);
    Best {
        number: Some(Decimal {
            n,
            middle: 0,
            high: 0,
            places,
        }),
        digits: w.digits,
        limit: w.limit,
    }
}

// ---- more than 9 places: a whole number, and behind it a fraction of 160 binary digits in 5 limbs

// f doubled n times in place, where it fits.
fn shift_up(f: &mut [u32], n: u32)
    requires { (length f.old ≡ 5) × (up_to 5 f.old * 2 ^ n < 4294967296 ^ 5) }
    ensures { up_to 5 f.new ≡ up_to 5 f.old * 2 ^ n }
{
    for _i in 0..n {
        limbs::muladd(f, 2, 0);
    }
}

// m times as much: the fraction in place, and the whole number.
fn lift(f: &mut [u32], whole: u64, m: u32) -> u64
    requires { (length f.old ≡ 5) × (whole ≤ 2 ^ 30) × (m ≤ 100000) }
    ensures f_after { result * 4294967296 ^ 5 + up_to 5 f.new ≡ (whole * 4294967296 ^ 5 + up_to 5 f.old) * m }
    ensures below { up_to 5 f.new < 4294967296 ^ 5 }
{
    let over = limbs::muladd(f, m, 0);
    whole * u64::from(m) + over
}

// A middle times 10^10, in limbs that hold 0.
fn prepare(f: &mut [u32], m: Middle) -> u64
    requires { (length f.old ≡ 5) × (up_to 5 f.old ≡ 0) × Long m }
    ensures { Fixed m 10 result f.new }
{
    let num = m.num as u32;
    limbs::muladd(f, num, num);
    shift_up(f, 160 - m.shift);
    let a = lift(f, 0, 100000);
    lift(f, a, 100000)
}

// The least whole number past a middle.
fn first_past(whole: u64, f: &[u32], tie: u64) -> u64
    requires { (length f.now ≡ 5) × (whole ≤ 2 ^ 30) }
    ensures { result ≡ first_past tie (up_to 5 f.now) whole }
{
    if tie != 0 && limbs::is_zero(f) {
        whole
    } else {
        whole + 1
    }
}

// The first number of 10 to 40 places that reads to the f32 with these bits, which no number of fewer places does.
fn fewest_long(bits: u32, low: Middle, high: Middle) -> Option<Decimal>
    requires { Lengthy bits low high }
    ensures result_value { number_of result ≡ decimal_of (fewest bits) }
    ensures neat { IfSome result Neat }
{
    let mut f = [0u32; 5];
    let mut g = [0u32; 5];
    let mut i = prepare(&mut f, low);
    let mut j = prepare(&mut g, high);
    for places in 10..41 {
        let n = first_past(i, &f, low.tie);
        if n < first_past(j, &g, high.tie) {
            return Some(Decimal {
                n,
                middle: 0,
                high: 0,
                places,
            });
        }
        i = lift(&mut f, i, 10);
        j = lift(&mut g, j, 10);
    }
    None
}

// A whole number.
fn whole(n: u64) -> Decimal
    ensures result_value { number_of (Some result) ≡ some (n, 0) }
    ensures neat { Neat result }
{
    Decimal {
        n,
        middle: 0,
        high: 0,
        places: 0,
    }
}

// The number with the fewest digits that reads to the f32 with these bits, from the one next to 10^-40 to 10^10.
fn fewest_small(bits: u32) -> Option<Decimal>
    requires { (least ≤ bits) × (bits ≤ highest) }
    ensures result_value { number_of result ≡ decimal_of (fewest bits) }
    ensures neat { IfSome result Neat }
{
    let low = middle_below(bits);
    let high = middle_below(bits + 1);
    if bits < LOWEST {
        return fewest_long(bits, low, high);
    }
    let mut s = Best {
        number: None,
        digits: 19,
        limit: 10000000000000000000,
    };
    for places in 0..10 {
        if s.digits <= places {
            break;
        }
        s = step(s, low, high, places, number::ten_to(places));
    }
    match s.number {
        None => fewest_long(bits, low, high),
        found => found,
    }
}

// ---- above 10^10: whole numbers of up to 39 digits

// n + middle * 10^18 + high * 10^36.
#[derive(Clone, Copy)]
struct Parts {
    n: u64,
    middle: u64,
    high: u64,
}

fn doubled(p: Parts) -> Parts
    requires { (p.n < 10 ^ 18) × (p.middle < 10 ^ 18) × (p.high ≤ 2 ^ 32) }
    ensures { Doubled p result }
{
    let n = p.n * 2;
    let m = p.middle * 2 + n / 1000000000000000000;
    Parts {
        n: n % 1000000000000000000,
        middle: m % 1000000000000000000,
        high: p.high * 2 + m / 1000000000000000000,
    }
}

// The least whole number that reads to the f32 with these bits.
fn least_whole(bits: u32) -> Decimal
    requires { (highest < bits) × (bits ≤ infinity) }
    ensures least_whole { LeastWhole bits result }
    ensures neat { Neat result }
{
    let b = bits - 1;
    let k = doublings(b);
    let w = b - k * 8388608;
    let mut p = Parts {
        n: u64::from(w * 2 + 1),
        middle: 0,
        high: 0,
    };
    for _i in 150..k {
        p = doubled(p);
    }
    Decimal {
        n: p.n + 1 - u64::from(w % 2),
        middle: p.middle,
        high: p.high,
        places: 0,
    }
}

// The number with the fewest digits that reads to the f32 with these bits, and of these the smallest.
pub fn fewest(bits: u32) -> Option<Decimal>
    ensures result_value { number_of result ≡ decimal_of (fewest bits) }
    ensures neat { IfSome result Neat }
{
    if bits == 0 {
        return Some(whole(0));
    }
    if bits < LEAST {
        return None;
    }
    if bits > INFINITY {
        return None;
    }
    if bits <= HIGHEST {
        return fewest_small(bits);
    }
    Some(least_whole(bits))
}

// ---- percents

// The bits of the f32 with these bits, from 2^24 on, divided by 100.0.
fn hundredth(y: u32) -> u32
    requires { (whole24 ≤ y) × (y ≤ infinity) }
    ensures { result ≡ percent_bits (float_whole y) }
{
    let x = Stored {
        value: number::f32_of_bits(y),
        rounded: false,
    };
    let p = number::percent_from(x, x);
    number::bits_of(p.value)
}

// The least f32 from 2^24 on whose hundredth is at least the f32 with these bits.
fn least_float(bits: u32) -> u32
    requires { bits ≤ infinity }
    ensures { FirstFloat bits result }
{
    let mut lo: u32 = 1266679808;
    let mut hi: u32 = INFINITY;
    while lo < hi {
        let mid = lo + (hi - lo) / 2;
        if hundredth(mid) < bits {
            lo = mid + 1;
        } else {
            hi = mid;
        }
    }
    lo
}

// The least whole number whose percent is the f32 with these bits, above 2^24.
fn large_percent(bits: u32) -> Option<Decimal>
    requires { (bits ≤ infinity) × (percent_bits 16777216 < bits) }
    ensures result_value { number_of result ≡ whole_of (least_percent bits) }
    ensures neat { IfSome result Neat }
{
    let y = least_float(bits);
    if hundredth(y) != bits {
        return None;
    }
    if y <= HIGHEST {
        return Some(whole(past(middle_below(y), 1)));
    }
    Some(least_whole(y))
}

// The least whole number whose percent is the f32 with these bits. Up to 2^24 a percent is rounded once, so the first n / 100
// past the middle is it.
pub fn percent_of(bits: u32) -> Option<Decimal>
    ensures result_value { number_of result ≡ whole_of (least_percent bits) }
    ensures neat { IfSome result Neat }
{
    if bits == 0 {
        return Some(whole(0));
    }
    if bits < LOWEST {
        return None;
    }
    if bits > INFINITY {
        return None;
    }
    if bits > HIGHEST {
        return large_percent(bits);
    }
    let n = past(middle_below(bits), 100);
    if n <= 16777216 {
        let end = past(middle_below(bits + 1), 100);
        return (n < end).then_some(whole(n));
    }
    large_percent(bits)
}
