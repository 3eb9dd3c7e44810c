// 02 (h): the converter, which puts triangle for noise into a sheet that is lent.
#![tactic(auto)]

ghost use Rattle.std.specs.Prelude.{◌++◌, ◌≡◌, ◌+◌, ◌<◌, length, take, drop};
ghost use Rattle.error.specs.Answer.{check_values};
ghost use Rattle.converting.specs.Convert.{holds_noise, converted_record, converting};
ghost use Rattle.convert.specs.Means.{IsSheet, PassesRecord, Converts};

use error::CheckAnswer;
use sheet_decode::fields::take_field;
use sheet_records::take_record;
use sheet_refusals::{Opening, open_sheet};

// The kind of a waveform's record.
const WAVEFORM: u8 = 11;

// Kinds of waveforms.
const TRIANGLE: u8 = 3;

const NOISE: u8 = 4;

// Whether the record at a place is that of a waveform of noise.
fn holds_noise(sheet: &[u8], at: usize) -> bool
    requires { at + 3 < length sheet.now }
    ensures { result ≡ holds_noise (drop at sheet.now) }
{
    sheet[at] == WAVEFORM && sheet[at + 3] == NOISE
}

// Puts triangle for noise into the record at a place, and gives the place behind the record.
fn convert_record(sheet: &mut [u8], at: usize, text_len: usize) -> usize
    requires { at + 3 < length sheet.old }
    ensures passes_record { PassesRecord text_len sheet.old at result }
    ensures sheet_after { sheet.new ≡ take at sheet.old ++ converted_record (drop at sheet.old) }
{
    let record = take_record(sheet, at, text_len);
    if holds_noise(sheet, at) {
        sheet[at + 3] = TRIANGLE;
    }
    record.next
}

// Puts it into every record of a sheet. What stands behind the place is as it was.
fn convert_records(sheet: &mut [u8], text_len: usize)
    requires { IsSheet text_len sheet.old }
    ensures { Converts text_len sheet.old sheet.new }
{
    let head = take_field(sheet, 0, 2);
    let mut at = head.next;
    while at < sheet.len() {
        at = convert_record(sheet, at, text_len);
    }
}

// Overwrites a sheet with one that has triangle for noise and every other byte equal; or refuses it, as checking does.
pub fn convert(text: &[u8], sheet: &mut [u8]) -> CheckAnswer
    ensures sheet_after { (result, sheet.new) ≡ converting text.now sheet.old }
    ensures values { check_values result ≡ check_values (converting text.now sheet.old).0 }
{
    if let Opening::Shut { refusal, place } = open_sheet(text, sheet) {
        return CheckAnswer::Refused { refusal, place };
    }
    convert_records(sheet, text.len());
    CheckAnswer::Accepted
}
