// number's conversion for C and Rust to link: what bench/number measures.
#![tactic(auto)]

ghost use Rattle.std.specs.Prelude.{cond, ◌≡◌, ◌^◌, ltb};
ghost use Rattle.std.specs.Float.Ieee as Ieee;
ghost use Rattle.std.specs.Float.{binary32};

// number::decimal. More than 9 places count as 9.
#[unsafe(no_mangle)]
pub extern "C" fn number_decimal(negative: bool, digits: u64, places: usize) -> f32
    ensures { result ≡ Ieee.round binary32 negative digits (10 ^ cond (ltb 9 places) 9 places) }
{
    if 9 < places {
        let x = number::decimal(negative, digits, 9);
        return x.value;
    }
    let x = number::decimal(negative, digits, places);
    x.value
}
