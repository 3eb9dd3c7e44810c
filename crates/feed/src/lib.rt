// Feeding a script to a morning sheet: it is read and checked, and counted in the totals that are lent.
#![tactic(auto)]

ghost use Rattle.std.specs.Prelude.{◌≡◌};
ghost use Rattle.error.specs.Answer.{feed_values};
ghost use Rattle.feeding.specs.Feed.{fed, feeding};

use counts::{count_records, count_refused, full};
use error::{CheckAnswer, FeedAnswer, Refusal};
use verdict::Verdict;

// Reads a text, checks it under a list of colours, and counts it: as accepted, with its node records and keyframe entries, or as refused.
// Totals that are full are refused before all else.
pub fn feed(
    totals: &mut [u32; 60],
    text: &[u8],
    scratch: &mut [u16],
    sheet: &mut [u8],
    list: u32,
) -> FeedAnswer
    ensures sheet_after { (result, totals.new, scratch.new, sheet.new) ≡ feeding totals.old (fed list text.now scratch.old sheet.old) }
    ensures values { feed_values result ≡ feed_values (feeding totals.old (fed list text.now scratch.old sheet.old)).0 }
{
    if full(totals) {
        return FeedAnswer::Refused {
            refusal: Refusal::TooManyScripts,
            place: 0,
        };
    }
    match verdict::read_and_check(text, scratch, sheet, list) {
        Verdict::Unread { refusal, place } => count_refused(totals, refusal, place),
        Verdict::Checked {
            length,
            records,
            rounded,
            answer,
        } => match answer {
            CheckAnswer::Refused { refusal, place } => count_refused(totals, refusal, place),
            CheckAnswer::Accepted => {
                totals::add(totals, totals::ACCEPTED_WORD, 1);
                count_records(totals, text::part(sheet, 0, length), text.len());
                FeedAnswer::Counted {
                    answer: CheckAnswer::Accepted,
                }
            }
        },
    }
}
