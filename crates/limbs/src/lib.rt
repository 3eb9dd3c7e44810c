// Numbers of up to 80 digits, times or over a power of ten: the nearest f32, by long division.
// A whole number is some limbs of 32 bits, the lowest first: as many as its digits want, of 20.
// The functions are for our own crates: `muladd` requires a carry of at most its factor, `decimal` digits of a text and a power that
// 02 (n) allows.
#![tactic(auto)]

ghost use Rattle.std.specs.Prelude.{◌≡◌, true, false, ℕ, ◌+◌, ◌-◌, ◌*◌, ◌^◌, ◌<◌, ◌≤◌, length, drop, ltb, eqb};
ghost use Rattle.std.specs.Float.Ieee.Nearest.{closest};
ghost use Rattle.text.specs.Bytes.{decimal, part, run, is_digit};
ghost use Rattle.text.specs.Limits.{whole_limit, places_limit};
ghost use Rattle.number.specs.Number.{bits};
ghost use Rattle.number.specs.Rounded.{rounded};
ghost use Rattle.limbs.specs.LimbMeans.{up_to, val};
ghost use Rattle.limbs.specs.Means.{Raised, Nearest};

use number::Bits;

// Infinity, which no fraction is.
const INFINITY: Bits = Bits {
    bits: 2139095040,
    rounded: true,
};

// a * m + c in place; what does not fit is returned.
pub fn muladd(a: &mut [u32], m: u32, c: u32) -> u64
    requires { c ≤ m }
    ensures by_index { (n : ℕ) → length a.old ≡ n → up_to n a.new + result * 4294967296 ^ n ≡ up_to n a.old * m + c }
    ensures carry { result ≤ m }
{
    let mut carry = u64::from(c);
    for limb in a.iter_mut() {
        let t = u64::from(*limb) * u64::from(m) + carry;
        *limb = (t % 4294967296) as u32;
        carry = t / 4294967296;
    }
    carry
}

// Whether a is below b, which has as many limbs.
fn less(a: &[u32], b: &[u32]) -> bool
    requires { length b.now ≡ length a.now }
    ensures { result ≡ ltb (val a.now) (val b.now) }
{
    for i in (0..a.len()).rev() {
        if a[i] != b[i] {
            return a[i] < b[i];
        }
    }
    false
}

// Whether a is 0.
pub fn is_zero(a: &[u32]) -> bool
    ensures { (n : ℕ) → length a.now ≡ n → result ≡ eqb (up_to n a.now) 0 }
{
    a.iter().all(|&limb| limb == 0)
}

// What a limb borrows from the next so that y can be taken from x: 1 or 0.
fn borrow_of(x: u64, y: u64) -> u64
    requires { (x < 4294967296) × (y ≤ 4294967296) }
    ensures { (result ≤ 1) × (y ≤ x + result * 4294967296) × (x + result * 4294967296 < y + 4294967296) }
{
    u64::from(x < y)
}

// a - b in place, for b up to a.
fn take(a: &mut [u32], b: &[u32])
    requires { (length b.now ≡ length a.old) × (val b.now ≤ val a.old) }
    ensures { val a.new + val b.now ≡ val a.old }
{
    let mut borrow = 0;
    for i in 0..a.len() {
        let x = u64::from(a[i]);
        let y = u64::from(b[i]) + borrow;
        borrow = borrow_of(x, y);
        a[i] = (x + borrow * 4294967296 - y) as u32;
    }
}

// a * 2 in place, where it fits.
fn double(a: &mut [u32])
    requires { val a.old * 2 < 4294967296 ^ length a.old }
    ensures { val a.new ≡ val a.old * 2 }
{
    muladd(a, 2, 0);
}

// One binary digit of a / b, and the remainder doubled in the place of a.
fn digit(a: &mut [u32], b: &[u32]) -> u32
    requires { (length b.now ≡ length a.old) × (val a.old < val b.now * 2) × (val b.now * 2 < 4294967296 ^ length a.old) }
    ensures { (result ≤ 1) × (val a.new + result * (val b.now * 2) ≡ val a.old * 2) × (val a.new < val b.now * 2) }
{
    if less(a, b) {
        double(a);
        0
    } else {
        take(a, b);
        double(a);
        1
    }
}

// How many binary digits a has; none for 0.
fn size(a: &[u32]) -> usize
    requires { length a.now ≤ 20 }
    ensures { (val a.now < 2 ^ result) × (0 < result → 2 ^ result ≤ val a.now * 2) }
{
    for i in (0..a.len()).rev() {
        if a[i] != 0 {
            return i * 32 + 32 - a[i].leading_zeros() as usize;
        }
    }
    0
}

// a * base^n in place, where it fits, up to `most` factors at a time, whose product a limb holds.
fn scale(a: &mut [u32], base: u32, most: u32, n: usize)
    requires { (0 < base) × (0 < most) × (base ^ most < 4294967296) × (val a.old * base ^ n < 4294967296 ^ length a.old) }
    ensures { val a.new ≡ val a.old * base ^ n }
{
    let most = most as usize;
    for _round in 0..n / most {
        muladd(a, base.pow(most as u32), 0);
    }
    muladd(a, base.pow((n % most) as u32), 0);
}

// b doubled in place until it is above a, or 150 times. 150 and the count of doublings are returned.
fn raise(a: &[u32], b: &mut [u32]) -> u32
    requires { (length b.old ≡ length a.now) × (val a.now * 4 < 4294967296 ^ length a.now) × (val b.old * 2 < 4294967296 ^ length a.now) × (length a.now ≤ 20) }
    ensures { Raised (4294967296 ^ length a.now) (val a.now) (val b.old) (val b.new) result }
{
    let n = size(a).saturating_sub(size(b)).min(150);
    scale(b, 2, 31, n);
    let mut k: u32 = 150 + n as u32;
    while k < 300 && !less(a, b) {
        double(b);
        k += 1;
    }
    k
}

// a doubled in place as often as its binary digits are fewer than those of b, up to k times. So many of k are left.
fn lower(a: &mut [u32], b: &[u32], k: u32) -> u32
    requires { (length b.now ≡ length a.old) × (val a.old < val b.now) × (val b.now * 2 < 4294967296 ^ length a.old) × (length a.old ≤ 20) }
    ensures { (result ≤ k) × (val a.new * 2 ^ result ≡ val a.old * 2 ^ k) × (val a.new < val b.now * 2) }
{
    let n = size(b).saturating_sub(size(a)).min(k as usize);
    scale(a, 2, 31, n);
    k - n as u32
}

// The nearest whole number to q + a / (2 * b).
fn whole(a: &[u32], b: &[u32], q: u32) -> u32
    requires { (length b.now ≡ length a.now) × (val a.now < val b.now * 2) × (q < 16777216) }
    ensures { result ≡ closest (q * (val b.now * 2) + val a.now) (val b.now * 2) }
{
    if less(a, b) {
        q
    } else if less(b, a) {
        q + 1
    } else {
        q + q % 2
    }
}

// The bits of the f32 that is nearest to a / b, and whether it is another number. Both are used up.
fn nearest(a: &mut [u32], b: &mut [u32]) -> Bits
    requires { (length b.old ≡ length a.old) × (val a.old * 4 < 4294967296 ^ length a.old) × (val b.old * 2 < 4294967296 ^ length a.old) × (0 < val b.old) × (length a.old ≤ 20) }
    ensures { Nearest (val a.old) (val b.old) result }
{
    let top = raise(a, b);
    if top >= 300 {
        return INFINITY;
    }
    let mut k = lower(a, b, top);
    let mut q: u32 = 0;
    while k > 0 && q < 8388608 {
        let bit = digit(a, b);
        q = q * 2 + bit;
        k -= 1;
    }
    if k >= 254 {
        return INFINITY;
    }
    Bits {
        bits: k * 8388608 + whole(a, b, q),
        rounded: !is_zero(a),
    }
}

// The number of some digits, at most nine.
fn few(digits: &[u8]) -> u32
    requires { (length digits.now ≤ run is_digit digits.now) × (length digits.now ≤ 9) }
    ensures { (result ≡ decimal 0 digits.now) × (result < 10 ^ length digits.now) }
{
    let mut v = 0;
    for b in digits {
        v = v * 10 + u32::from(b - b'0');
    }
    v
}

// Digits behind the number that a has, nine at a time.
fn read(a: &mut [u32], digits: &[u8])
    requires { (length digits.now ≤ run is_digit digits.now) × ((val a.old + 1) * 10 ^ length digits.now ≤ 4294967296 ^ length a.old) }
    ensures { val a.new ≡ decimal (val a.old) digits.now }
{
    let mut rest = digits;
    while !rest.is_empty() {
        let (first, after) = rest.split_at(rest.len().min(9));
        muladd(a, number::ten_to(first.len()) as u32, few(first));
        rest = after;
    }
}

// How many limbs hold four times 10^x, and 10^y: 4 * 10^9 is a limb.
fn wanted(x: usize, y: usize) -> usize
    requires { (x ≤ 179) × (y ≤ 179) }
    ensures { (x < result * 9) × (y < result * 9) × (result ≤ 20) }
{
    x.max(y) / 9 + 1
}

// What `decimal` gives, a and b being the limbs that it works with: 0 and 1.
fn divided(
    a: &mut [u32],
    b: &mut [u32],
    whole: &[u8],
    fraction: &[u8],
    up: usize,
    down: usize,
) -> Bits
    requires { (length b.old ≡ length a.old) × (val a.old ≡ 0) × (val b.old ≡ 1) × (length a.old ≤ 20) × (length whole.now ≤ run is_digit whole.now) × (length fraction.now ≤ run is_digit fraction.now) × (10 ^ (length whole.now + length fraction.now + up) * 4 ≤ 4294967296 ^ length a.old) × (10 ^ down * 4 ≤ 4294967296 ^ length a.old) }
    ensures { Nearest (decimal (decimal 0 whole.now) fraction.now * 10 ^ up) (10 ^ down) result }
{
    read(a, whole);
    read(a, fraction);
    scale(a, 10, 9, up);
    scale(b, 10, 9, down);
    nearest(a, b)
}

// The bits of the f32 that is nearest to a number that t begins with: w digits, and q more from `from` on, times 10^up, over 10^down;
// and whether it is another number.
pub fn decimal(t: &[u8], w: usize, from: usize, q: usize, up: usize, down: usize) -> Bits
    requires { (w ≤ run is_digit t.now) × (q ≤ run is_digit (drop from t.now)) × (w ≤ whole_limit) × (q ≤ places_limit) × (up ≤ 99) × (down ≤ 141) }
    ensures { Nearest (decimal (decimal 0 (part t.now 0 w)) (part t.now from q) * 10 ^ up) (10 ^ down) result }
{
    let mut a = [0u32; 20];
    let mut b = [0u32; 20];
    b[0] = 1;
    let n = wanted(w + q + up, down);
    let whole = text::part(t, 0, w);
    let fraction = text::part(t, from, q);
    divided(&mut a[..n], &mut b[..n], whole, fraction, up, down)
}
