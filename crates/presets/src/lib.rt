// presets.rs: the presets and the named colours; validate.rs's is_valid_color.
#![tactic(auto)]

ghost use Rattle.std.specs.Prelude.{◌≡◌};
ghost use Rattle.text.specs.Bytes.{part};
ghost use Rattle.words.specs.ListMeans.{list_of};
ghost use Rattle.presets.specs.Presets.{is_preset};
ghost use Rattle.presets.specs.Colors.{colors, hex_size, is_hex_color, is_color_of, is_color};

use words::List;

// ---- presets

// Whether a part of a text names a preset.
pub fn is_known_preset(text: &[u8], start: usize, size: usize) -> bool
    ensures { result ≡ is_preset (part text.now start size) }
{
    words::holds(List::Presets, text, start, size)
}

// ---- colours

fn is_hex_size(n: usize) -> bool
    ensures { result ≡ hex_size n }
{
    matches!(n, 3 | 4 | 6 | 8)
}

// Whether what stands behind a `#` is a colour.
pub fn is_hex_color(digits: &[u8]) -> bool
    ensures { result ≡ is_hex_color digits.now }
{
    is_hex_size(digits.len()) && text::run_end(digits, 0, text::Class::Hex) == digits.len()
}

// Whether a string is a colour by one of `words`' lists of names in small letters.
pub fn is_color(s: &[u8], list: List) -> bool
    ensures { result ≡ is_color_of (list_of list) s.now }
{
    if text::byte_at(s, 0) == b'#' {
        return is_hex_color(text::part(s, 1, s.len()));
    }
    // Longer than each of the names.
    let mut name = [0u8; 24];
    let n = text::lower_into(s, &mut name);
    words::holds(list, &name, 0, n)
}

// Whether a part of a text is a colour by the Rust's list of names.
pub fn is_valid_color(text: &[u8], start: usize, size: usize) -> bool
    ensures { result ≡ is_color colors (part text.now start size) }
{
    is_color(text::part(text, start, size), List::Colors)
}
