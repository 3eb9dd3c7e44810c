// Numbers: the nearest f32 to a written decimal, whole percents, bit patterns, and times that are duplicates.
#![tactic(auto)]

ghost use Rattle.std.specs.Prelude.{◌≡◌, ℕ, ◌+◌, ◌*◌, ◌/◌, ◌%◌, ◌^◌, ◌<◌, ◌≤◌, Bool, false, not, T, eqb};
ghost use Rattle.std.specs.Float.Ieee as Ieee;
ghost use Rattle.std.specs.Float.{binary32};
ghost use Rattle.std.specs.Float.Ieee.Exact.{HasValue};
ghost use Rattle.std.specs.Float.Ieee.Nearest.{closest};
ghost use Rattle.number.specs.Number as Number;
ghost use Rattle.number.specs.Number.{Written, bits, f32};
ghost use Rattle.number.specs.Time.{near};
ghost use Rattle.number.specs.Rounded.{fraction, rounded};
ghost use Rattle.number.specs.Means.{value_of, Capped};

// The powers of 10 that fit 30 binary digits.
const POWERS: [u64; 10] = [
    1, 10, 100, 1000, 10000, 100000, 1000000, 10000000, 100000000, 1000000000,
];

// The same as f32, and the powers of 5.
const FLOATS: [f32; 10] = [
    1.0,
    10.0,
    100.0,
    1000.0,
    10000.0,
    100000.0,
    1000000.0,
    10000000.0,
    100000000.0,
    1000000000.0,
];

const FIVES: [u32; 10] = [1, 5, 25, 125, 625, 3125, 15625, 78125, 390625, 1953125];

// 10 to the power of `places`. For our own crates: at most 9.
pub fn ten_to(places: usize) -> u64
    requires { places ≤ 9 }
    ensures { result ≡ 10 ^ places }
{
    POWERS[places]
}

// The nearest whole number to a fraction, and whether it is another number than that.
#[derive(Clone, Copy)]
struct Divided {
    whole: u64,
    rounded: bool,
}

// The bits of the nearest f32 to a fraction, and whether it is another number than that.
#[derive(Clone, Copy)]
pub struct Bits {
    pub bits: u32,
    pub rounded: bool,
}

// The f32 that a written number is stored as, and whether it is another number than that.
#[derive(Clone, Copy)]
pub struct Stored {
    pub value: f32,
    pub rounded: bool,
}

// The nearest whole number to a / b, a tie to the even one.
fn quotient(a: u64, b: u64) -> Divided
    requires { (0 < b) × (b ≤ 2 ^ 62) × (a / b < 2 ^ 24) }
    ensures whole { result.whole ≡ closest a b }
    ensures rounded { result.rounded ≡ not (eqb (a % b) 0) }
{
    let q = a / b;
    let rest = a % b;
    let t = rest * 2;
    let rounded = rest != 0;
    let whole = if t < b {
        q
    } else if t == b {
        q + q % 2
    } else {
        q + 1
    };
    Divided { whole, rounded }
}

// The bits of the nearest whole number to a / b, which has 24 binary digits, times 2^(k - 149). Its highest digit adds
// one to the exponent's field, and where it is 2^24 one more.
fn packed(a: u64, b: u64, k: u32) -> Bits
    requires { (0 < b) × (b ≤ 2 ^ 62) × (a / b < 2 ^ 24) × (k ≤ 253) }
    ensures bits { result.bits ≡ k * 2 ^ 23 + closest a b }
    ensures rounded { result.rounded ≡ not (eqb (a % b) 0) }
{
    let q = quotient(a, b);
    Bits {
        bits: k * 8388608 + q.whole as u32,
        rounded: q.rounded,
    }
}

// The bits of the f32 that is nearest to n / d, a tie to the even one. Both are moved up by their leading zeros, n to 64
// binary digits and d to 40, so that the quotient has 24 digits, or 25: then d is doubled.
fn nearest_bits(n: u64, d: u64) -> Bits
    requires { (0 < d) × (d ≤ 10 ^ 9) }
    ensures bits { result.bits ≡ bits (Ieee.round binary32 false n d) }
    ensures rounded { (s : Bool) → result.rounded ≡ rounded (Ieee.round binary32 s n d) (fraction s n d) }
{
    if n == 0 {
        return Bits {
            bits: 0,
            rounded: false,
        };
    }
    let z = n.leading_zeros();
    let y = d.leading_zeros() - 24;
    let a = n << z;
    let b = d << y;
    let k = 149 + y - z;
    if a / 16777216 < b {
        packed(a, b, k)
    } else {
        packed(a, b * 2, k + 1)
    }
}

// 10^places as an f32, which it is exactly.
fn ten(places: usize) -> f32
    requires { places ≤ 9 }
    ensures { HasValue result false (10 ^ places) 1 }
{
    FLOATS[places]
}

// 5^places.
fn five(places: usize) -> u32
    requires { places ≤ 9 }
    ensures { result ≡ 5 ^ places }
{
    FIVES[places]
}

// The bits of the f32 that is nearest to digits / 10^places. Both are f32 exactly, so that one rounded division gives it; it is the
// number exactly if 5^places divides the digits.
fn small_bits(digits: u32, places: usize) -> Bits
    requires { (digits < 2 ^ 24) × (places ≤ 9) }
    ensures bits { result.bits ≡ bits (Ieee.round binary32 false digits (10 ^ places)) }
    ensures rounded { (s : Bool) → result.rounded ≡ rounded (Ieee.round binary32 s digits (10 ^ places)) (fraction s digits (10 ^ places)) }
{
    let x = digits as f32;
    if places == 0 {
        return Bits {
            bits: x.to_bits(),
            rounded: false,
        };
    }
    let value = x / ten(places);
    Bits {
        bits: value.to_bits(),
        rounded: digits % five(places) != 0,
    }
}

// The bits of the f32 that is nearest to digits / 10^places.
fn unsigned_bits(digits: u64, places: usize) -> Bits
    requires { places ≤ 9 }
    ensures bits { result.bits ≡ bits (Ieee.round binary32 false digits (10 ^ places)) }
    ensures rounded { (s : Bool) → result.rounded ≡ rounded (Ieee.round binary32 s digits (10 ^ places)) (fraction s digits (10 ^ places)) }
{
    if digits < 16777216 {
        return small_bits(digits as u32, places);
    }
    nearest_bits(digits, ten_to(places))
}

// The bits of what `decimal` gives. For our own crates: the reader hands over at most 9 places.
pub fn decimal_bits(negative: bool, digits: u64, places: usize) -> Bits
    requires { places ≤ 9 }
    ensures bits { result.bits ≡ bits (Ieee.round binary32 negative digits (10 ^ places)) }
    ensures rounded { result.rounded ≡ rounded (Ieee.round binary32 negative digits (10 ^ places)) (fraction negative digits (10 ^ places)) }
{
    let b = unsigned_bits(digits, places);
    if negative {
        return Bits {
            bits: b.bits + 2147483648,
            ..b
        };
    }
    b
}

// The f32 that is nearest to digits / 10^places, a tie to the even one, negative where `negative` says so; -0 has its
// sign. For our own crates: the reader hands over at most 9 places.
pub fn decimal(negative: bool, digits: u64, places: usize) -> Stored
    requires { places ≤ 9 }
    ensures value { result.value ≡ Ieee.round binary32 negative digits (10 ^ places) }
    ensures rounded { result.rounded ≡ rounded (Ieee.round binary32 negative digits (10 ^ places)) (fraction negative digits (10 ^ places)) }
{
    let b = decimal_bits(negative, digits, places);
    Stored {
        value: f32_of_bits(b.bits),
        rounded: b.rounded,
    }
}

// The f32 of any bit pattern. Every NaN's pattern gives a NaN.
pub fn f32_of_bits(b: u32) -> f32
    ensures { result ≡ f32 b }
{
    if b % 2147483648 > 2139095040 {
        0.0 / 0.0
    } else {
        f32::from_bits(b)
    }
}

// The bit pattern of an f32 that is no NaN. For our own crates: no number is stored as one (proofs/Floats.antt).
pub fn bits_of(x: f32) -> u32
    requires { T (not (Ieee.is_nan x)) }
    ensures { result ≡ bits x }
{
    x.to_bits()
}

// The f32 whose bits without sign are these, negative where `negative` says so. For our own crates: the bits are those of a number.
pub fn signed(negative: bool, b: Bits) -> Stored
    requires { b.bits < 2147483648 }
    ensures value { (n d : ℕ) → b.bits ≡ bits (Ieee.round binary32 false n d) → result.value ≡ Ieee.round binary32 negative n d }
    ensures rounded { result.rounded ≡ b.rounded }
{
    let sign = if negative { 2147483648 } else { 0 };
    Stored {
        value: f32_of_bits(b.bits + sign),
        rounded: b.rounded,
    }
}

// A whole percent, of n as an f32 with its sign and of the f32 nearest to n / 100: the first, divided by 100.0. It is n / 100 exactly if
// the second is, and is the same.
pub fn percent_from(x: Stored, once: Stored) -> Stored
    ensures value { (s : Bool) (n : ℕ) → x.value ≡ Ieee.round binary32 s n 1 → result.value ≡ Number.percent s n }
    ensures rounded { (s : Bool) (n : ℕ) → x.value ≡ Ieee.round binary32 s n 1 → once.value ≡ Ieee.round binary32 s n 100 → once.rounded ≡ rounded (Ieee.round binary32 s n 100) (fraction s n 100) → result.rounded ≡ rounded (Number.percent s n) (fraction s n 100) }
{
    let value = x.value / 100.0;
    if once.rounded {
        return Stored {
            value,
            rounded: true,
        };
    }
    Stored {
        value,
        rounded: value != once.value,
    }
}

// A whole percent. Up to 2^24 n is an f32 exactly, and n / 100 is rounded once.
pub fn percent(negative: bool, n: u64) -> Stored
    ensures value { result.value ≡ Number.percent negative n }
    ensures rounded { result.rounded ≡ rounded (Number.percent negative n) (fraction negative n 100) }
{
    if n <= 16777216 {
        return decimal(negative, n, 2);
    }
    let x = decimal(negative, n, 0);
    let once = decimal(negative, n, 2);
    percent_from(x, once)
}

// Whether two times are duplicates: the size of their difference is below 2^-23. NaN, the difference of equal infinities,
// is not below it.
pub fn duplicate(a: f32, b: f32) -> bool
    ensures { result ≡ near a b }
{
    let d = a - b;
    let s = if d < 0.0 { -d } else { d };
    s < 0.00000011920929
}

// The digits as a whole number; of one above 4,294,967,295 another such number may stand for it. Every negative is refused, -0 too,
// and all above 4,294,967,295.
pub fn whole(negative: bool, digits: u64) -> Option<u32>
    ensures { (w : Written) → Capped digits w.digits → value_of result ≡ Number.whole negative w }
{
    if negative {
        return None;
    }
    u32::try_from(digits).ok()
}
