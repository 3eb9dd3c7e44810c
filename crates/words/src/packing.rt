// Bytes of a text as numbers, the first the least, and a row where numbers are those asked for.
ghost use Rattle.std.specs.Prelude.{◌≡◌, cond, ◌&&◌, eqb, ◌+◌, ◌-◌, ◌%◌, ◌^◌, ◌≤◌, ◌<◌, length};
ghost use Rattle.text.specs.Bytes.{part};
ghost use Rattle.words.specs.KeyMeans.{onto, pack};

// ---- bytes as a number

// The n bytes at a place, below a number.
fn onto(text: &[u8], at: usize, n: usize, top: u64) -> u64
    requires { (at + n ≤ length text.now) × (n ≤ 8) × (top < 256 ^ (8 - n)) }
    ensures { result ≡ onto top (part text.now at n) }
{
    let mut v = top;
    for k in (0..n).rev() {
        v = v * 256 + u64::from(text[at + k]);
    }
    v
}

// The 8 bytes at a place.
pub fn eight(text: &[u8], at: usize) -> u64
    requires { at + 8 ≤ length text.now }
    ensures { result ≡ onto 0 (part text.now at 8) }
{
    onto(text, at, 8, 0)
}

// The n least bytes of a number under a 1.
fn least(v: u64, n: usize) -> u64
    requires { n ≤ 7 }
    ensures { result ≡ v % 256 ^ n + 256 ^ n }
{
    let one: u64 = 1 << (n * 8);
    v % one + one
}

// The n bytes at a place under a 1: 8 bytes are read at once where they stand there.
pub fn packed(text: &[u8], at: usize, n: usize) -> u64
    requires { (at + n ≤ length text.now) × (n ≤ 7) }
    ensures { result ≡ pack (part text.now at n) }
{
    if text.len() - at < 8 {
        return onto(text, at, n, 1);
    }
    least(eight(text, at), n)
}

// ---- one word

// A row, if two numbers are equal.
pub fn if_equal(v: u64, key: u64, row: u8) -> Option<u8>
    ensures { result ≡ cond (eqb v key) (Some row) None }
{
    if v == key { Some(row) } else { None }
}

// A row, if two pairs of numbers are equal.
pub fn if_long(v: u64, rest: u64, key: u64, other: u64, row: u8) -> Option<u8>
    ensures { result ≡ cond (eqb v key && eqb rest other) (Some row) None }
{
    if v == key && rest == other {
        Some(row)
    } else {
        None
    }
}
