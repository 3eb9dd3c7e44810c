// Made by tools/words.py. The words of the grammar and the names that checking knows, in lists: the place of a word in a list, told by
// its bytes as numbers. For our own crates.
#![tactic(auto)]

ghost use Rattle.std.specs.Prelude.{◌≡◌, ◌+◌, ◌*◌, ◌≤◌, length, slice_index_or};
ghost use Rattle.text.specs.Bytes.{part};
ghost use Rattle.text.specs.Words.{is_some, find};
ghost use Rattle.words.specs.ListMeans.{list_of, numbered};
ghost use Rattle.words.specs.KeyMeans.{keys_of, seek, place_is};

use packing::{eight, if_equal, if_long, packed};

mod packing;

// The lists.
#[derive(Clone, Copy, Debug, PartialEq, Eq)]
pub enum List {
    Nodes,
    TweenRows,
    SpringRows,
    WaveformRows,
    DrawRows,
    MorphRows,
    ColorRows,
    PathRows,
    RoughFields,
    SlowMoFields,
    GridFields,
    RandomFields,
    OpeningFields,
    Curves,
    LoopModes,
    GroupModes,
    GridOrigins,
    Patterns,
    Spaces,
    Waveforms,
    Along,
    SpringPresets,
    Integrators,
    Easings,
    Presets,
    Colors,
    CssColors,
    Empty,
}

// Each by its number.
const LISTS: [List; 28] = [
    List::Nodes,
    List::TweenRows,
    List::SpringRows,
    List::WaveformRows,
    List::DrawRows,
    List::MorphRows,
    List::ColorRows,
    List::PathRows,
    List::RoughFields,
    List::SlowMoFields,
    List::GridFields,
    List::RandomFields,
    List::OpeningFields,
    List::Curves,
    List::LoopModes,
    List::GroupModes,
    List::GridOrigins,
    List::Patterns,
    List::Spaces,
    List::Waveforms,
    List::Along,
    List::SpringPresets,
    List::Integrators,
    List::Easings,
    List::Presets,
    List::Colors,
    List::CssColors,
    List::Empty,
];

// A list by its number, counted from 0 in the order above; each number above theirs is that of `Empty`.
impl From<u8> for List {
    ghost from_gives = { λ number list. list ≡ numbered number };

    fn from(number: u8) -> List {
        list_at(&LISTS, usize::from(number))
    }
}

fn list_at(lists: &[List], number: usize) -> List
    ensures { result ≡ slice_index_or lists.now number List.Empty }
{
    lists.get(number).copied().unwrap_or(List::Empty)
}

// ---- the words of a list of at most 7 bytes, of 8 to 15, and of 16 to 23

fn short_nodes(v: u64) -> Option<u8>
    ensures { result ≡ seek (keys_of List.Nodes) 0 v }
{
    match v {
        0x16e65657774 => Some(0), // tween
        0x1676e69727073 => Some(1), // spring
        0x168746170 => Some(3), // path
        0x16870726f6d => Some(4), // morph
        0x177617264 => Some(5), // draw
        0x1726f6c6f63 => Some(6), // color
        0x1746573657270 => Some(8), // preset
        0x16c6562616c => Some(9), // label
        0x17461 => Some(10), // at
        0x170756f7267 => Some(13), // group
        0x172656767617473 => Some(14), // stagger
        _ => None,
    }
}

fn short_tween_rows(v: u64) -> Option<u8>
    ensures { result ≡ seek (keys_of List.TweenRows) 0 v }
{
    match v {
        0x1676e69736165 => Some(1), // easing
        0x179616c6564 => Some(2), // delay
        0x1706f6f6c => Some(4), // loop
        0x170616e73 => Some(5), // snap
        0x1646e756f72 => Some(6), // round
        0x165737265766572 => Some(7), // reverse
        _ => None,
    }
}

fn short_spring_rows(v: u64) -> Option<u8>
    ensures { result ≡ seek (keys_of List.SpringRows) 0 v }
{
    match v {
        0x1746573657270 => Some(0), // preset
        0x1676e69706d6164 => Some(2), // damping
        0x17373616d => Some(3), // mass
        0x16e6f6c69737065 => Some(5), // epsilon
        _ => None,
    }
}

fn short_waveform_rows(v: u64) -> Option<u8>
    ensures { result ≡ seek (keys_of List.WaveformRows) 0 v }
{
    match v {
        0x16573616870 => Some(2), // phase
        0x164656573 => Some(4), // seed
        _ => None,
    }
}

fn short_morph_rows(v: u64) -> Option<u8>
    ensures { result ≡ seek (keys_of List.MorphRows) 0 v }
{
    match v {
        0x173656c706d6173 => Some(0), // samples
        0x1676e69736165 => Some(2), // easing
        _ => None,
    }
}

fn short_color_rows(v: u64) -> Option<u8>
    ensures { result ≡ seek (keys_of List.ColorRows) 0 v }
{
    match v {
        0x16563617073 => Some(1), // space
        0x1676e69736165 => Some(2), // easing
        _ => None,
    }
}

fn short_path_rows(v: u64) -> Option<u8>
    ensures { result ≡ seek (keys_of List.PathRows) 0 v }
{
    match v {
        0x1676e69736165 => Some(1), // easing
        0x174657366666f => Some(3), // offset
        0x1706f6f6c => Some(4), // loop
        _ => None,
    }
}

fn short_grid_fields(v: u64) -> Option<u8>
    ensures { result ≡ seek (keys_of List.GridFields) 0 v }
{
    match v {
        0x1736c6f63 => Some(0), // cols
        0x173776f72 => Some(1), // rows
        0x16e696769726f => Some(2), // origin
        _ => None,
    }
}

fn short_random_fields(v: u64) -> Option<u8>
    ensures { result ≡ seek (keys_of List.RandomFields) 0 v }
{
    match v {
        0x164656573 => Some(0), // seed
        0x16e696d => Some(1), // min
        0x178616d => Some(2), // max
        _ => None,
    }
}

fn short_opening_fields(v: u64) -> Option<u8>
    ensures { result ≡ seek (keys_of List.OpeningFields) 0 v }
{
    match v {
        0x16e726574746170 => Some(0), // pattern
        0x179616c6564 => Some(1), // delay
        _ => None,
    }
}

fn short_curves(v: u64) -> Option<u8>
    ensures { result ≡ seek (keys_of List.Curves) 0 v }
{
    match v {
        0x17370657473 => Some(1), // steps
        0x1656c67676977 => Some(2), // wiggle
        0x16867756f72 => Some(3), // rough
        0x16f6d776f6c73 => Some(4), // slowmo
        _ => None,
    }
}

fn short_loop_modes(v: u64) -> Option<u8>
    ensures { result ≡ seek (keys_of List.LoopModes) 0 v }
{
    match v {
        0x165636e6f => Some(0), // once
        0x172657665726f66 => Some(1), // forever
        0x173656d6974 => Some(3), // times
        _ => None,
    }
}

fn short_grid_origins(v: u64) -> Option<u8>
    ensures { result ≡ seek (keys_of List.GridOrigins) 0 v }
{
    match v {
        0x17265746e6563 => Some(4), // center
        0x1706f74 => Some(5), // top
        0x16d6f74746f62 => Some(6), // bottom
        0x17466656c => Some(7), // left
        0x17468676972 => Some(8), // right
        _ => None,
    }
}

fn short_patterns(v: u64) -> Option<u8>
    ensures { result ≡ seek (keys_of List.Patterns) 0 v }
{
    match v {
        0x164697267 => Some(0), // grid
        0x16d6f646e6172 => Some(1), // random
        _ => None,
    }
}

fn short_spaces(v: u64) -> Option<u8>
    ensures { result ≡ seek (keys_of List.Spaces) 0 v }
{
    match v {
        0x17261656e696c => Some(0), // linear
        0x162616c => Some(1), // lab
        0x168636c6b6f => Some(2), // oklch
        _ => None,
    }
}

fn short_waveforms(v: u64) -> Option<u8>
    ensures { result ≡ seek (keys_of List.Waveforms) 0 v }
{
    match v {
        0x1656e6973 => Some(0), // sine
        0x1657261757173 => Some(2), // square
        0x16573696f6e => Some(4), // noise
        _ => None,
    }
}

fn short_spring_presets(v: u64) -> Option<u8>
    ensures { result ≡ seek (keys_of List.SpringPresets) 0 v }
{
    match v {
        0x1656c746e6567 => Some(0), // gentle
        0x1796c62626f77 => Some(1), // wobbly
        0x16666697473 => Some(2), // stiff
        0x1776f6c73 => Some(3), // slow
        0x1797070616e73 => Some(4), // snappy
        _ => None,
    }
}

fn short_presets(v: u64) -> Option<u8>
    ensures { result ≡ seek (keys_of List.Presets) 0 v }
{
    match v {
        0x16e695f65646166 => Some(0), // fade_in
        0x1656b616873 => Some(19), // shake
        0x1656c67676977 => Some(20), // wiggle
        0x174616f6c66 => Some(22), // float
        0x172656d6d696873 => Some(23), // shimmer
        _ => None,
    }
}

fn short_colors(v: u64) -> Option<u8>
    ensures { result ≡ seek (keys_of List.Colors) 0 v }
{
    match v {
        0x16b63616c62 => Some(0), // black
        0x16574696877 => Some(1), // white
        0x1646572 => Some(2), // red
        0x16e65657267 => Some(3), // green
        0x165756c62 => Some(4), // blue
        0x1776f6c6c6579 => Some(5), // yellow
        0x16e617963 => Some(6), // cyan
        0x161746e6567616d => Some(7), // magenta
        0x179617267 => Some(8), // gray
        0x179657267 => Some(9), // grey
        0x165676e61726f => Some(10), // orange
        0x1656c70727570 => Some(11), // purple
        0x16b6e6970 => Some(12), // pink
        0x16e776f7262 => Some(13), // brown
        0x1656d696c => Some(14), // lime
        0x16c616574 => Some(15), // teal
        0x17976616e => Some(16), // navy
        0x16e6f6f72616d => Some(17), // maroon
        0x16576696c6f => Some(18), // olive
        0x17265766c6973 => Some(19), // silver
        0x161757161 => Some(20), // aqua
        0x161697368637566 => Some(21), // fuchsia
        _ => None,
    }
}

fn short_css_colors(v: u64) -> Option<u8>
    ensures { result ≡ seek (keys_of List.CssColors) 0 v }
{
    match v {
        0x161757161 => Some(2), // aqua
        0x16572757a61 => Some(4), // azure
        0x16567696562 => Some(5), // beige
        0x1657571736962 => Some(6), // bisque
        0x16b63616c62 => Some(7), // black
        0x165756c62 => Some(9), // blue
        0x16e776f7262 => Some(11), // brown
        0x16c61726f63 => Some(16), // coral
        0x16e6f736d697263 => Some(19), // crimson
        0x16e617963 => Some(20), // cyan
        0x16465726b726164 => Some(32), // darkred
        0x1796172676d6964 => Some(42), // dimgray
        0x1796572676d6964 => Some(43), // dimgrey
        0x161697368637566 => Some(48), // fuchsia
        0x1646c6f67 => Some(51), // gold
        0x179617267 => Some(53), // gray
        0x16e65657267 => Some(54), // green
        0x179657267 => Some(56), // grey
        0x16b6e6970746f68 => Some(58), // hotpink
        0x16f6769646e69 => Some(60), // indigo
        0x179726f7669 => Some(61), // ivory
        0x1696b61686b => Some(62), // khaki
        0x1656d696c => Some(82), // lime
        0x16e656e696c => Some(84), // linen
        0x161746e6567616d => Some(85), // magenta
        0x16e6f6f72616d => Some(86), // maroon
        0x17976616e => Some(101), // navy
        0x16563616c646c6f => Some(102), // oldlace
        0x16576696c6f => Some(103), // olive
        0x165676e61726f => Some(105), // orange
        0x164696863726f => Some(107), // orchid
        0x175726570 => Some(114), // peru
        0x16b6e6970 => Some(115), // pink
        0x16d756c70 => Some(116), // plum
        0x1656c70727570 => Some(118), // purple
        0x1646572 => Some(120), // red
        0x16e6f6d6c6173 => Some(124), // salmon
        0x1616e6e656973 => Some(128), // sienna
        0x17265766c6973 => Some(129), // silver
        0x165756c62796b73 => Some(130), // skyblue
        0x1776f6e73 => Some(134), // snow
        0x16e6174 => Some(137), // tan
        0x16c616574 => Some(138), // teal
        0x1656c7473696874 => Some(139), // thistle
        0x16f74616d6f74 => Some(140), // tomato
        0x174656c6f6976 => Some(142), // violet
        0x17461656877 => Some(143), // wheat
        0x16574696877 => Some(144), // white
        0x1776f6c6c6579 => Some(146), // yellow
        _ => None,
    }
}

fn long_nodes(v: u64, rest: u64) -> Option<u8>
    requires { 1 ≤ rest }
    ensures { result ≡ seek (keys_of List.Nodes) 0 (rest * 18446744073709551616 + v) }
{
    match v {
        0x656d61726679656b => if_equal(rest, 0x173, 2), // keyframes
        0x6d726f6665766177 => if_equal(rest, 0x1, 7), // waveform
        0x65636e6575716573 => if_equal(rest, 0x1, 11), // sequence
        0x6c656c6c61726170 => if_equal(rest, 0x1, 12), // parallel
        _ => None,
    }
}

fn long_tween_rows(v: u64, rest: u64) -> Option<u8>
    requires { 1 ≤ rest }
    ensures { result ≡ seek (keys_of List.TweenRows) 0 (rest * 18446744073709551616 + v) }
{
    match v {
        0x6e6f697461727564 => if_equal(rest, 0x1, 0), // duration
        0x6163735f656d6974 => if_equal(rest, 0x1656c, 3), // time_scale
        _ => None,
    }
}

fn long_spring_rows(v: u64, rest: u64) -> Option<u8>
    requires { 1 ≤ rest }
    ensures { result ≡ seek (keys_of List.SpringRows) 0 (rest * 18446744073709551616 + v) }
{
    match v {
        0x73656e6666697473 => if_equal(rest, 0x173, 1), // stiffness
        0x797469636f6c6576 => if_equal(rest, 0x1, 4), // velocity
        0x7461726765746e69 => if_equal(rest, 0x1726f, 6), // integrator
        0x706d61647265766f => if_equal(rest, 0x16465, 8), // overdamped
        0x6d61647265646e75 => if_equal(rest, 0x1646570, 9), // underdamped
        _ => None,
    }
}

fn long_waveform_rows(v: u64, rest: u64) -> Option<u8>
    requires { 1 ≤ rest }
    ensures { result ≡ seek (keys_of List.WaveformRows) 0 (rest * 18446744073709551616 + v) }
{
    match v {
        0x636e657571657266 => if_equal(rest, 0x179, 0), // frequency
        0x647574696c706d61 => if_equal(rest, 0x165, 1), // amplitude
        0x6379635f79747564 => if_equal(rest, 0x1656c, 3), // duty_cycle
        0x656e68746f6f6d73 => if_equal(rest, 0x17373, 5), // smoothness
        0x6e6f697461727564 => if_equal(rest, 0x1, 6), // duration
        _ => None,
    }
}

fn long_path_rows(v: u64, rest: u64) -> Option<u8>
    requires { 1 ≤ rest }
    ensures { result ≡ seek (keys_of List.PathRows) 0 (rest * 18446744073709551616 + v) }
{
    match v {
        0x6e6f697461727564 => if_equal(rest, 0x1, 0), // duration
        0x746f725f6f747561 => if_equal(rest, 0x1657461, 2), // auto_rotate
        _ => None,
    }
}

fn long_group_modes(v: u64, rest: u64) -> Option<u8>
    requires { 1 ≤ rest }
    ensures { result ≡ seek (keys_of List.GroupModes) 0 (rest * 18446744073709551616 + v) }
{
    match v {
        0x65636e6575716573 => if_equal(rest, 0x1, 0), // sequence
        0x6c656c6c61726170 => if_equal(rest, 0x1, 1), // parallel
        _ => None,
    }
}

fn long_grid_origins(v: u64, rest: u64) -> Option<u8>
    requires { 1 ≤ rest }
    ensures { result ≡ seek (keys_of List.GridOrigins) 0 (rest * 18446744073709551616 + v) }
{
    match v {
        0x7466656c5f706f74 => if_equal(rest, 0x1, 0), // top_left
        0x686769725f706f74 => if_equal(rest, 0x174, 1), // top_right
        0x6c5f6d6f74746f62 => if_equal(rest, 0x1746665, 2), // bottom_left
        0x725f6d6f74746f62 => if_equal(rest, 0x174686769, 3), // bottom_right
        _ => None,
    }
}

fn long_patterns(v: u64, rest: u64) -> Option<u8>
    requires { 1 ≤ rest }
    ensures { result ≡ seek (keys_of List.Patterns) 0 (rest * 18446744073709551616 + v) }
{
    match v {
        0x6f5f7265746e6563 => if_equal(rest, 0x17475, 2), // center_out
        0x6e695f7365676465 => if_equal(rest, 0x1, 3), // edges_in
        _ => None,
    }
}

fn long_waveforms(v: u64, rest: u64) -> Option<u8>
    requires { 1 ≤ rest }
    ensures { result ≡ seek (keys_of List.Waveforms) 0 (rest * 18446744073709551616 + v) }
{
    match v {
        0x68746f6f74776173 => if_equal(rest, 0x1, 1), // sawtooth
        0x656c676e61697274 => if_equal(rest, 0x1, 3), // triangle
        _ => None,
    }
}

// Behind `ease_in_`.
fn long_easings_ease_in(rest: u64) -> Option<u8>
    requires { 1 ≤ rest }
    ensures { result ≡ seek (keys_of List.Easings) 0 (rest * 18446744073709551616 + 6876549539486196069) }
{
    match rest {
        0x164617571 => Some(1), // ease_in_quad
        0x16369627563 => Some(4), // ease_in_cubic
        0x17472617571 => Some(7), // ease_in_quart
        0x1746e697571 => Some(10), // ease_in_quint
        0x1656e6973 => Some(13), // ease_in_sine
        0x16f707865 => Some(16), // ease_in_expo
        0x163726963 => Some(19), // ease_in_circ
        0x16b636162 => Some(22), // ease_in_back
        0x163697473616c65 => Some(25), // ease_in_elastic
        0x165636e756f62 => Some(28), // ease_in_bounce
        _ => None,
    }
}

// Behind `ease_out`.
fn long_easings_ease_out(rest: u64) -> Option<u8>
    requires { 1 ≤ rest }
    ensures { result ≡ seek (keys_of List.Easings) 0 (rest * 18446744073709551616 + 8391735936189423973) }
{
    match rest {
        0x1646175715f => Some(2), // ease_out_quad
        0x163696275635f => Some(5), // ease_out_cubic
        0x174726175715f => Some(8), // ease_out_quart
        0x1746e6975715f => Some(11), // ease_out_quint
        0x1656e69735f => Some(14), // ease_out_sine
        0x16f7078655f => Some(17), // ease_out_expo
        0x1637269635f => Some(20), // ease_out_circ
        0x16b6361625f => Some(23), // ease_out_back
        0x165636e756f625f => Some(29), // ease_out_bounce
        _ => None,
    }
}

fn long_easings(v: u64, rest: u64) -> Option<u8>
    requires { 1 ≤ rest }
    ensures { result ≡ seek (keys_of List.Easings) 0 (rest * 18446744073709551616 + v) }
{
    match v {
        0x5f6e695f65736165 => long_easings_ease_in(rest), // ease_in_
        0x74756f5f65736165 => long_easings_ease_out(rest), // ease_out
        _ => None,
    }
}

// Behind `loading_`.
fn long_presets_loading(rest: u64) -> Option<u8>
    requires { 1 ≤ rest }
    ensures { result ≡ seek (keys_of List.Presets) 0 (rest * 18446744073709551616 + 6874584755139080044) }
{
    match rest {
        0x165736c7570 => Some(17), // loading_pulse
        0x165766177 => Some(18), // loading_wave
        _ => None,
    }
}

fn long_presets(v: u64, rest: u64) -> Option<u8>
    requires { 1 ≤ rest }
    ensures { result ≡ seek (keys_of List.Presets) 0 (rest * 18446744073709551616 + v) }
{
    match v {
        0x74756f5f65646166 => if_equal(rest, 0x1, 1), // fade_out
        0x6e695f6564696c73 => if_equal(rest, 0x1, 2), // slide_in
        0x756f5f6564696c73 => if_equal(rest, 0x174, 3), // slide_out
        0x6e695f656c616373 => if_equal(rest, 0x1, 4), // scale_in
        0x756f5f656c616373 => if_equal(rest, 0x174, 5), // scale_out
        0x695f65636e756f62 => if_equal(rest, 0x16e, 6), // bounce_in
        0x6f5f65636e756f62 => if_equal(rest, 0x17475, 7), // bounce_out
        0x6e655f6c61646f6d => if_equal(rest, 0x1726574, 8), // modal_enter
        0x78655f6c61646f6d => if_equal(rest, 0x17469, 9), // modal_exit
        0x6f5f726577617264 => if_equal(rest, 0x16e6570, 10), // drawer_open
        0x635f726577617264 => if_equal(rest, 0x165736f6c, 11), // drawer_close
        0x6e655f7473616f74 => if_equal(rest, 0x1726574, 12), // toast_enter
        0x78655f7473616f74 => if_equal(rest, 0x17469, 13), // toast_exit
        0x746e655f65676170 => if_equal(rest, 0x17265, 14), // page_enter
        0x6978655f65676170 => if_equal(rest, 0x174, 15), // page_exit
        0x5f676e6964616f6c => long_presets_loading(rest), // loading_
        0x6165627472616568 => if_equal(rest, 0x174, 21), // heartbeat
        _ => None,
    }
}

// Behind `darkslat`.
fn long_css_colors_darkslat(rest: u64) -> Option<u8>
    requires { 1 ≤ rest }
    ensures { result ≡ seek (keys_of List.CssColors) 0 (rest * 18446744073709551616 + 8386103224120271204) }
{
    match rest {
        0x165756c6265 => Some(35), // darkslateblue
        0x17961726765 => Some(36), // darkslategray
        0x17965726765 => Some(37), // darkslategrey
        _ => None,
    }
}

// Behind `lavender`.
fn long_css_colors_lavender(rest: u64) -> Option<u8>
    requires { 1 ≤ rest }
    ensures { result ≡ seek (keys_of List.CssColors) 0 (rest * 18446744073709551616 + 8243105118282998124) }
{
    match rest {
        0x1 => Some(63), // lavender
        0x16873756c62 => Some(64), // lavenderblush
        _ => None,
    }
}

// Behind `lightgre`.
fn long_css_colors_lightgre(rest: u64) -> Option<u8>
    requires { 1 ≤ rest }
    ensures { result ≡ seek (keys_of List.CssColors) 0 (rest * 18446744073709551616 + 7310018894841211244) }
{
    match rest {
        0x16e65 => Some(72), // lightgreen
        0x179 => Some(73), // lightgrey
        _ => None,
    }
}

// Behind `lightsla`.
fn long_css_colors_lightsla(rest: u64) -> Option<u8>
    requires { 1 ≤ rest }
    ensures { result ≡ seek (keys_of List.CssColors) 0 (rest * 18446744073709551616 + 7020112862968768876) }
{
    match rest {
        0x1796172676574 => Some(78), // lightslategray
        0x1796572676574 => Some(79), // lightslategrey
        _ => None,
    }
}

fn long_css_colors(v: u64, rest: u64) -> Option<u8>
    requires { 1 ≤ rest }
    ensures { result ≡ seek (keys_of List.CssColors) 0 (rest * 18446744073709551616 + v) }
{
    match v {
        0x756c626563696c61 => if_equal(rest, 0x165, 0), // aliceblue
        0x7765757169746e61 => if_equal(rest, 0x165746968, 1), // antiquewhite
        0x6972616d61757161 => if_equal(rest, 0x1656e, 3), // aquamarine
        0x646568636e616c62 => if_equal(rest, 0x1646e6f6d6c61, 8), // blanchedalmond
        0x6c6f697665756c62 => if_equal(rest, 0x17465, 10), // blueviolet
        0x6f6f77796c727562 => if_equal(rest, 0x164, 12), // burlywood
        0x756c627465646163 => if_equal(rest, 0x165, 13), // cadetblue
        0x7565727472616863 => if_equal(rest, 0x16573, 14), // chartreuse
        0x74616c6f636f6863 => if_equal(rest, 0x165, 15), // chocolate
        0x776f6c666e726f63 => if_equal(rest, 0x165756c627265, 17), // cornflowerblue
        0x6b6c69736e726f63 => if_equal(rest, 0x1, 18), // cornsilk
        0x65756c626b726164 => if_equal(rest, 0x1, 21), // darkblue
        0x6e6179636b726164 => if_equal(rest, 0x1, 22), // darkcyan
        0x646c6f676b726164 => if_equal(rest, 0x1646f726e65, 23), // darkgoldenrod
        0x796172676b726164 => if_equal(rest, 0x1, 24), // darkgray
        0x656572676b726164 => if_equal(rest, 0x16e, 25), // darkgreen
        0x796572676b726164 => if_equal(rest, 0x1, 26), // darkgrey
        0x6b61686b6b726164 => if_equal(rest, 0x169, 27), // darkkhaki
        0x6567616d6b726164 => if_equal(rest, 0x161746e, 28), // darkmagenta
        0x76696c6f6b726164 => if_equal(rest, 0x16e6565726765, 29), // darkolivegreen
        0x6e61726f6b726164 => if_equal(rest, 0x16567, 30), // darkorange
        0x6863726f6b726164 => if_equal(rest, 0x16469, 31), // darkorchid
        0x6d6c61736b726164 => if_equal(rest, 0x16e6f, 33), // darksalmon
        0x676165736b726164 => if_equal(rest, 0x16e656572, 34), // darkseagreen
        0x74616c736b726164 => long_css_colors_darkslat(rest), // darkslat
        0x717275746b726164 => if_equal(rest, 0x16573696f75, 38), // darkturquoise
        0x6c6f69766b726164 => if_equal(rest, 0x17465, 39), // darkviolet
        0x6b6e697070656564 => if_equal(rest, 0x1, 40), // deeppink
        0x62796b7370656564 => if_equal(rest, 0x165756c, 41), // deepskyblue
        0x6c62726567646f64 => if_equal(rest, 0x16575, 44), // dodgerblue
        0x6369726265726966 => if_equal(rest, 0x16b, 45), // firebrick
        0x68776c61726f6c66 => if_equal(rest, 0x1657469, 46), // floralwhite
        0x7267747365726f66 => if_equal(rest, 0x16e6565, 47), // forestgreen
        0x726f62736e696167 => if_equal(rest, 0x16f, 49), // gainsboro
        0x69687774736f6867 => if_equal(rest, 0x16574, 50), // ghostwhite
        0x6f726e65646c6f67 => if_equal(rest, 0x164, 52), // goldenrod
        0x6c65796e65657267 => if_equal(rest, 0x1776f6c, 55), // greenyellow
        0x77656479656e6f68 => if_equal(rest, 0x1, 57), // honeydew
        0x65726e6169646e69 => if_equal(rest, 0x164, 59), // indianred
        0x7265646e6576616c => long_css_colors_lavender(rest), // lavender
        0x656572676e77616c => if_equal(rest, 0x16e, 65), // lawngreen
        0x6968636e6f6d656c => if_equal(rest, 0x16e6f6666, 66), // lemonchiffon
        0x756c62746867696c => if_equal(rest, 0x165, 67), // lightblue
        0x726f63746867696c => if_equal(rest, 0x16c61, 68), // lightcoral
        0x617963746867696c => if_equal(rest, 0x16e, 69), // lightcyan
        0x617267746867696c => if_equal(rest, 0x179, 71), // lightgray
        0x657267746867696c => long_css_colors_lightgre(rest), // lightgre
        0x6e6970746867696c => if_equal(rest, 0x16b, 74), // lightpink
        0x6c6173746867696c => if_equal(rest, 0x16e6f6d, 75), // lightsalmon
        0x616573746867696c => if_equal(rest, 0x16e65657267, 76), // lightseagreen
        0x796b73746867696c => if_equal(rest, 0x165756c62, 77), // lightskyblue
        0x616c73746867696c => long_css_colors_lightsla(rest), // lightsla
        0x657473746867696c => if_equal(rest, 0x165756c626c65, 80), // lightsteelblue
        0x6c6579746867696c => if_equal(rest, 0x1776f6c, 81), // lightyellow
        0x65657267656d696c => if_equal(rest, 0x16e, 83), // limegreen
        0x6c626d756964656d => if_equal(rest, 0x16575, 88), // mediumblue
        0x726f6d756964656d => if_equal(rest, 0x164696863, 89), // mediumorchid
        0x75706d756964656d => if_equal(rest, 0x1656c7072, 90), // mediumpurple
        0x65736d756964656d => if_equal(rest, 0x16e6565726761, 91), // mediumseagreen
        0x6c736d756964656d => if_equal(rest, 0x165756c62657461, 92), // mediumslateblue
        0x75746d756964656d => if_equal(rest, 0x16573696f757172, 94), // mediumturquoise
        0x69766d756964656d => if_equal(rest, 0x164657274656c6f, 95), // mediumvioletred
        0x746867696e64696d => if_equal(rest, 0x165756c62, 96), // midnightblue
        0x61657263746e696d => if_equal(rest, 0x16d, 97), // mintcream
        0x736f72797473696d => if_equal(rest, 0x165, 98), // mistyrose
        0x6e69736163636f6d => if_equal(rest, 0x1, 99), // moccasin
        0x68776f6a6176616e => if_equal(rest, 0x1657469, 100), // navajowhite
        0x6172646576696c6f => if_equal(rest, 0x162, 104), // olivedrab
        0x657265676e61726f => if_equal(rest, 0x164, 106), // orangered
        0x646c6f67656c6170 => if_equal(rest, 0x1646f726e65, 108), // palegoldenrod
        0x65657267656c6170 => if_equal(rest, 0x16e, 109), // palegreen
        0x71727574656c6170 => if_equal(rest, 0x16573696f75, 110), // paleturquoise
        0x6c6f6976656c6170 => if_equal(rest, 0x16465727465, 111), // palevioletred
        0x6877617961706170 => if_equal(rest, 0x17069, 112), // papayawhip
        0x6675706863616570 => if_equal(rest, 0x166, 113), // peachpuff
        0x6c62726564776f70 => if_equal(rest, 0x16575, 117), // powderblue
        0x7061636365626572 => if_equal(rest, 0x1656c707275, 119), // rebeccapurple
        0x776f726279736f72 => if_equal(rest, 0x16e, 121), // rosybrown
        0x756c626c61796f72 => if_equal(rest, 0x165, 122), // royalblue
        0x7262656c64646173 => if_equal(rest, 0x16e776f, 123), // saddlebrown
        0x6f726279646e6173 => if_equal(rest, 0x16e77, 125), // sandybrown
        0x6e65657267616573 => if_equal(rest, 0x1, 126), // seagreen
        0x6c6c656873616573 => if_equal(rest, 0x1, 127), // seashell
        0x756c626574616c73 => if_equal(rest, 0x165, 131), // slateblue
        0x6172676574616c73 => if_equal(rest, 0x179, 132), // slategray
        0x6572676574616c73 => if_equal(rest, 0x179, 133), // slategrey
        0x7267676e69727073 => if_equal(rest, 0x16e6565, 135), // springgreen
        0x756c626c65657473 => if_equal(rest, 0x165, 136), // steelblue
        0x73696f7571727574 => if_equal(rest, 0x165, 141), // turquoise
        0x6f6d736574696877 => if_equal(rest, 0x1656b, 145), // whitesmoke
        0x7267776f6c6c6579 => if_equal(rest, 0x16e6565, 147), // yellowgreen
        _ => None,
    }
}

fn longest_spring_rows(v: u64, rest: u64, last: u64) -> Option<u8>
    requires { 1 ≤ last }
    ensures { result ≡ seek (keys_of List.SpringRows) 0 ((last * 18446744073709551616 + rest) * 18446744073709551616 + v) }
{
    match v {
        0x6c61636974697263 => if_long(rest, last, 0x65706d61645f796c, 0x164, 7), // critically_damped
        _ => None,
    }
}

fn longest_integrators(v: u64, rest: u64, last: u64) -> Option<u8>
    requires { 1 ≤ last }
    ensures { result ≡ seek (keys_of List.Integrators) 0 ((last * 18446744073709551616 + rest) * 18446744073709551616 + v) }
{
    match v {
        0x706d695f696d6573 => if_long(rest, last, 0x75655f746963696c, 0x172656c, 0), // semi_implicit_euler
        _ => None,
    }
}

// Behind `ease_in_`.
fn longest_easings_ease_in(rest: u64, last: u64) -> Option<u8>
    requires { 1 ≤ last }
    ensures { result ≡ seek (keys_of List.Easings) 0 ((last * 18446744073709551616 + rest) * 18446744073709551616 + 6876549539486196069) }
{
    match rest {
        0x646175715f74756f => if_equal(last, 0x1, 3), // ease_in_out_quad
        0x696275635f74756f => if_equal(last, 0x163, 6), // ease_in_out_cubic
        0x726175715f74756f => if_equal(last, 0x174, 9), // ease_in_out_quart
        0x6e6975715f74756f => if_equal(last, 0x174, 12), // ease_in_out_quint
        0x656e69735f74756f => if_equal(last, 0x1, 15), // ease_in_out_sine
        0x6f7078655f74756f => if_equal(last, 0x1, 18), // ease_in_out_expo
        0x637269635f74756f => if_equal(last, 0x1, 21), // ease_in_out_circ
        0x6b6361625f74756f => if_equal(last, 0x1, 24), // ease_in_out_back
        0x73616c655f74756f => if_equal(last, 0x1636974, 27), // ease_in_out_elastic
        0x6e756f625f74756f => if_equal(last, 0x16563, 30), // ease_in_out_bounce
        _ => None,
    }
}

fn longest_easings(v: u64, rest: u64, last: u64) -> Option<u8>
    requires { 1 ≤ last }
    ensures { result ≡ seek (keys_of List.Easings) 0 ((last * 18446744073709551616 + rest) * 18446744073709551616 + v) }
{
    match v {
        0x5f6e695f65736165 => longest_easings_ease_in(rest, last), // ease_in_
        0x74756f5f65736165 => if_long(rest, last, 0x63697473616c655f, 0x1, 26), // ease_out_elastic
        _ => None,
    }
}

fn longest_presets(v: u64, rest: u64, last: u64) -> Option<u8>
    requires { 1 ≤ last }
    ensures { result ≡ seek (keys_of List.Presets) 0 ((last * 18446744073709551616 + rest) * 18446744073709551616 + v) }
{
    match v {
        0x5f72656767617473 => if_long(rest, last, 0x6e6572646c696863, 0x1, 16), // stagger_children
        _ => None,
    }
}

fn longest_css_colors(v: u64, rest: u64, last: u64) -> Option<u8>
    requires { 1 ≤ last }
    ensures { result ≡ seek (keys_of List.CssColors) 0 ((last * 18446744073709551616 + rest) * 18446744073709551616 + v) }
{
    match v {
        0x6c6f67746867696c => if_long(rest, last, 0x6579646f726e6564, 0x1776f6c6c, 70), // lightgoldenrodyellow
        0x71616d756964656d => if_long(rest, last, 0x656e6972616d6175, 0x1, 87), // mediumaquamarine
        0x70736d756964656d => if_long(rest, last, 0x65657267676e6972, 0x16e, 93), // mediumspringgreen
        _ => None,
    }
}

// ---- the words of any list

// A word of at most 7 bytes.
fn short(list: List, v: u64) -> Option<u8>
    ensures { result ≡ seek (keys_of list) 0 v }
{
    match list {
        List::Nodes => short_nodes(v),
        List::TweenRows => short_tween_rows(v),
        List::SpringRows => short_spring_rows(v),
        List::WaveformRows => short_waveform_rows(v),
        List::DrawRows => if_equal(v, 0x1676e69736165, 1), // easing
        List::MorphRows => short_morph_rows(v),
        List::ColorRows => short_color_rows(v),
        List::PathRows => short_path_rows(v),
        List::RoughFields => if_equal(v, 0x173746e696f70, 1), // points
        List::SlowMoFields => if_equal(v, 0x17265776f70, 1), // power
        List::GridFields => short_grid_fields(v),
        List::RandomFields => short_random_fields(v),
        List::OpeningFields => short_opening_fields(v),
        List::Curves => short_curves(v),
        List::LoopModes => short_loop_modes(v),
        List::GridOrigins => short_grid_origins(v),
        List::Patterns => short_patterns(v),
        List::Spaces => short_spaces(v),
        List::Waveforms => short_waveforms(v),
        List::Along => if_equal(v, 0x1676e6f6c61, 0), // along
        List::SpringPresets => short_spring_presets(v),
        List::Integrators => if_equal(v, 0x1346b72, 1), // rk4
        List::Easings => if_equal(v, 0x17261656e696c, 0), // linear
        List::Presets => short_presets(v),
        List::Colors => short_colors(v),
        List::CssColors => short_css_colors(v),
        _ => None,
    }
}

// A word of 8 to 15 bytes: its first 8, and the others under a 1.
fn long(list: List, v: u64, rest: u64) -> Option<u8>
    requires { 1 ≤ rest }
    ensures { result ≡ seek (keys_of list) 0 (rest * 18446744073709551616 + v) }
{
    match list {
        List::Nodes => long_nodes(v, rest),
        List::TweenRows => long_tween_rows(v, rest),
        List::SpringRows => long_spring_rows(v, rest),
        List::WaveformRows => long_waveform_rows(v, rest),
        List::DrawRows => if_long(v, rest, 0x6e6f697461727564, 0x1, 0), // duration
        List::MorphRows => if_long(v, rest, 0x6e6f697461727564, 0x1, 1), // duration
        List::ColorRows => if_long(v, rest, 0x6e6f697461727564, 0x1, 0), // duration
        List::PathRows => long_path_rows(v, rest),
        List::RoughFields => if_long(v, rest, 0x6874676e65727473, 0x1, 0), // strength
        List::SlowMoFields => if_long(v, rest, 0x725f7261656e696c, 0x16f697461, 0), // linear_ratio
        List::Curves => if_long(v, rest, 0x65625f6369627563, 0x17265697a, 0), // cubic_bezier
        List::LoopModes => if_long(v, rest, 0x6e6f705f676e6970, 0x167, 2), // ping_pong
        List::GroupModes => long_group_modes(v, rest),
        List::GridOrigins => long_grid_origins(v, rest),
        List::Patterns => long_patterns(v, rest),
        List::Waveforms => long_waveforms(v, rest),
        List::Easings => long_easings(v, rest),
        List::Presets => long_presets(v, rest),
        List::CssColors => long_css_colors(v, rest),
        _ => None,
    }
}

// A word of 16 to 23 bytes: twice 8, and the others under a 1.
fn longest(list: List, v: u64, rest: u64, last: u64) -> Option<u8>
    requires { 1 ≤ last }
    ensures { result ≡ seek (keys_of list) 0 ((last * 18446744073709551616 + rest) * 18446744073709551616 + v) }
{
    match list {
        List::SpringRows => longest_spring_rows(v, rest, last),
        List::Integrators => longest_integrators(v, rest, last),
        List::Easings => longest_easings(v, rest, last),
        List::Presets => longest_presets(v, rest, last),
        List::CssColors => longest_css_colors(v, rest, last),
        _ => None,
    }
}

// The place in a list of the word of n bytes at a place of a text.
pub fn find(list: List, text: &[u8], at: usize, n: usize) -> Option<u8>
    requires { at + n ≤ length text.now }
    ensures { place_is result ≡ find (list_of list) 0 (part text.now at n) }
{
    match n {
        0..=7 => short(list, packed(text, at, n)),
        8..=15 => long(list, eight(text, at), packed(text, at + 8, n - 8)),
        16..=23 => longest(
            list,
            eight(text, at),
            eight(text, at + 8),
            packed(text, at + 16, n - 16),
        ),
        _ => None,
    }
}

// Whether the bytes of a text from a place, at most n, are a word of a list.
pub fn holds(list: List, text: &[u8], at: usize, n: usize) -> bool
    ensures { result ≡ is_some (find (list_of list) 0 (part text.now at n)) }
{
    let size = text::part(text, at, n).len();
    size != 0 && find(list, text, at, size).is_some()
}
