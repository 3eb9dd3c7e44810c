// An answer as one u64, for C and Rust.
#![tactic(auto)]

ghost use Rattle.std.specs.Prelude.{[], ◌∷◌, ◌≡◌, ◌%◌, ◌^◌, length};
ghost use Rattle.packed.specs.Packed.{packed_refusal, packed_sheet, packed_read, packed_check, packed_line, packed_fed, packed_bytes, packed_color, packed_body, packed_lookup, packed_order, mean_outcome};

use error::{
    CheckAnswer, FeedAnswer, LineAnswer, LookupAnswer, MeanAnswer, OrderAnswer, ReadAnswer, Refusal,
};

// The lowest 32 bits of a place or a length.
fn low(n: usize) -> u64
    ensures { result ≡ n % 2 ^ 32 }
{
    (n % 4294967296) as u64
}

// A refusal's number in the highest byte, its place in the lowest four.
fn pack_refusal(refusal: Refusal, place: usize) -> u64
    ensures { result ≡ packed_refusal refusal place }
{
    (error::number_of(refusal) as u64) * 72057594037927936 + low(place)
}

// A sheet's length in the lowest three bytes, its count of node records in the next two, and in the next two how many
// numbers were rounded.
fn pack_sheet(length: usize, records: usize, rounded: usize) -> u64
    ensures { result ≡ packed_sheet length records rounded }
{
    (rounded % 65536 * 1099511627776 + records % 65536 * 16777216 + length % 16777216) as u64
}

// A sheet's length and counts, or a refusal.
pub fn pack_read(answer: ReadAnswer) -> u64
    ensures { result ≡ packed_read answer }
{
    match answer {
        ReadAnswer::Accepted {
            length,
            records,
            rounded,
        } => pack_sheet(length, records, rounded),
        ReadAnswer::Refused { refusal, place } => pack_refusal(refusal, place),
    }
}

// 0 for what is accepted, or a refusal.
pub fn pack_check(answer: CheckAnswer) -> u64
    ensures { result ≡ packed_check answer }
{
    match answer {
        CheckAnswer::Accepted => 0,
        CheckAnswer::Refused { refusal, place } => pack_refusal(refusal, place),
    }
}

// The length of a line, a page, a script or a sheet, or a refusal.
pub fn pack_line(answer: LineAnswer) -> u64
    ensures { result ≡ packed_line answer }
{
    match answer {
        LineAnswer::Accepted { length } => low(length),
        LineAnswer::Refused { refusal, place } => pack_refusal(refusal, place),
    }
}

// 0 for an accepted script; a refused one's number behind the lowest four bytes, which have its place; or a refusal of feeding.
pub fn pack_fed(answer: FeedAnswer) -> u64
    ensures { result ≡ packed_fed answer }
{
    match answer {
        FeedAnswer::Counted { answer } => match answer {
            CheckAnswer::Accepted => 0,
            CheckAnswer::Refused { refusal, place } => {
                (error::number_of(refusal) as u64) * 4294967296 + low(place)
            }
        },
        FeedAnswer::Refused { refusal, place } => pack_refusal(refusal, place),
    }
}

// 1, with numerator and denominator in the two words; or 0 for nothing, or a refusal, and the words as they were.
pub fn pack_mean(answer: MeanAnswer, out: &mut [u32; 2]) -> u64
    ensures { (result, out.new) ≡ mean_outcome answer out.old }
{
    match answer {
        MeanAnswer::Fraction {
            numerator,
            denominator,
        } => {
            put_pair(out, numerator, denominator);
            1
        }
        MeanAnswer::Nothing => 0,
        MeanAnswer::Refused { refusal, place } => pack_refusal(refusal, place),
    }
}

// Writes two words.
fn put_pair(out: &mut [u32], a: u32, b: u32)
    requires { length out.old ≡ 2 }
    ensures { out.new ≡ a ∷ b ∷ [] }
{
    out[0] = a;
    out[1] = b;
}

// Red, green, blue and alpha as one number, alpha the lowest byte; or a refusal.
pub fn pack_color(answer: CheckAnswer, bytes: &[u8; 4]) -> u64
    ensures { result ≡ packed_color answer bytes.now }
{
    if let CheckAnswer::Refused { refusal, place } = answer {
        return pack_refusal(refusal, place);
    }
    pack_bytes(bytes[0], bytes[1], bytes[2], bytes[3])
}

fn pack_bytes(red: u8, green: u8, blue: u8, alpha: u8) -> u64
    ensures { result ≡ packed_bytes (red ∷ green ∷ blue ∷ alpha ∷ []) }
{
    (red as u64) * 16777216 + (green as u64) * 65536 + (blue as u64) * 256 + (alpha as u64)
}

// A body's length in the lowest three bytes, its start in the next three.
fn pack_body(start: usize, length: usize) -> u64
    ensures { result ≡ packed_body start length }
{
    (start % 16777216 * 16777216 + length % 16777216) as u64
}

// A body, behind it 0 for the store's book and 1 for the chain's; or a refusal.
pub fn pack_lookup(answer: LookupAnswer) -> u64
    ensures { result ≡ packed_lookup answer }
{
    match answer {
        LookupAnswer::InStore { start, size } => pack_body(start, size),
        LookupAnswer::InChain { start, size } => 281474976710656 + pack_body(start, size),
        LookupAnswer::Refused { refusal, place } => pack_refusal(refusal, place),
    }
}

// How many items are listed, or a refusal.
pub fn pack_order(answer: OrderAnswer) -> u64
    ensures { result ≡ packed_order answer }
{
    match answer {
        OrderAnswer::Listed { items } => low(items),
        OrderAnswer::Refused { refusal, place } => pack_refusal(refusal, place),
    }
}
