// token's pass and its keyword test for C and Rust to link: what bench/token measures.
#![tactic(auto)]

ghost use Rattle.std.specs.Prelude.{◌≡◌};
ghost use Rattle.token.specs.Names.{is_keyword};
ghost use Rattle.token_c.specs.Means.{limited, Answers};

use error::Refusal;
use token::SplitAnswer;

// token::split: 0, or the number of the refusal; 1 for a text over the limit.
#[unsafe(no_mangle)]
pub extern "C" fn token_split(text: &[u8], scratch: &mut [u16]) -> u8
    ensures { Answers (limited text.now scratch.old) result scratch.new }
{
    if text::TEXT_LIMIT < text.len() {
        return error::number_of(Refusal::TextTooLong);
    }
    match token::split(text, scratch) {
        SplitAnswer::Accepted => 0,
        SplitAnswer::Refused { refusal, place: _ } => error::number_of(refusal),
    }
}

// keywords::is_keyword.
#[unsafe(no_mangle)]
pub extern "C" fn token_is_keyword(word: &[u8]) -> bool
    ensures { result ≡ is_keyword word.now }
{
    keywords::is_keyword(word)
}
