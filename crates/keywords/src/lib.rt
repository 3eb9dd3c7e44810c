// The words that are no names. For our own crates.
#![tactic(auto)]

ghost use Rattle.std.specs.Prelude.{◌≡◌, ◌≤◌, length};
ghost use Rattle.text.specs.Bytes.{one_of};
ghost use Rattle.text.specs.Words.{is_one_of};
ghost use Rattle.token.specs.Names.{is_keyword};
ghost use Rattle.keywords.specs.Means.{pack, up_to4, up_to7, packed_keywords, long_keywords};

// The bytes of a word as one number, the first the least, under a 1.
fn packed(word: &[u8]) -> u64
    requires { length word.now ≤ 7 }
    ensures { result ≡ pack word.now }
{
    let mut v: u64 = 1;
    for &b in word.iter().rev() {
        v = v * 256 + u64::from(b);
    }
    v
}

// The keywords of at most 4 bytes, packed.
fn is_keyword_upto_4(v: u64) -> bool
    ensures { result ≡ one_of (packed_keywords up_to4) v }
{
    matches!(
        v,
        0x15f // _
        | 0x17361 // as
        | 0x165736c65 // else
        | 0x16d756e65 // enum
        | 0x16e66 // fn
        | 0x1726f66 // for
        | 0x16669 // if
        | 0x16c706d69 // impl
        | 0x16e69 // in
        | 0x174656c // let
        | 0x1706f6f6c // loop
        | 0x1646f6d // mod
        | 0x165766f6d // move
        | 0x174756d // mut
        | 0x1627570 // pub
        | 0x1666572 // ref
        | 0x1666c6573 // self
        | 0x1666c6553 // Self
        | 0x165757274 // true
        | 0x165707974 // type
        | 0x1657375 // use
        | 0x16e7964 // dyn
        | 0x1786f62 // box
        | 0x16f64 // do
        | 0x176697270 // priv
        | 0x1797274 // try
    )
}

// The keywords of 5 to 7 bytes, packed.
fn is_keyword_upto_7(v: u64) -> bool
    ensures { result ≡ one_of (packed_keywords up_to7) v }
{
    matches!(
        v,
        0x16b61657262 // break
        | 0x174736e6f63 // const
        | 0x16574617263 // crate
        | 0x16e7265747865 // extern
        | 0x165736c6166 // false
        | 0x1686374616d // match
        | 0x16e7275746572 // return
        | 0x1636974617473 // static
        | 0x1746375727473 // struct
        | 0x17265707573 // super
        | 0x17469617274 // trait
        | 0x1656661736e75 // unsafe
        | 0x16572656877 // where
        | 0x1656c696877 // while
        | 0x1636e797361 // async
        | 0x17469617761 // await
        | 0x1656d6f636562 // become
        | 0x16c616e6966 // final
        | 0x16f7263616d // macro
        | 0x1666f65707974 // typeof
        | 0x164657a69736e75 // unsized
        | 0x16c617574726976 // virtual
        | 0x1646c656979 // yield
    )
}

// The keywords of 8 bytes.
#[tactic(auto, unfolding(text::specs::Words::find))]
fn is_keyword_of_8(word: &[u8]) -> bool
    ensures { result ≡ is_one_of long_keywords word.now }
{
    text::is_word(word, b"continue")
        || text::is_word(word, b"abstract")
        || text::is_word(word, b"override")
}

// Whether a word is no name.
pub fn is_keyword(word: &[u8]) -> bool
    ensures { result ≡ is_keyword word.now }
{
    match word.len() {
        0..=4 => is_keyword_upto_4(packed(word)),
        5..=7 => is_keyword_upto_7(packed(word)),
        8 => is_keyword_of_8(word),
        _ => false,
    }
}
