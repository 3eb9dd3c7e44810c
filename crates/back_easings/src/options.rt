// A field of a list that holds an easing.
ghost use Rattle.std.specs.Prelude.{length};
ghost use Rattle.codec.specs.Codec.{opt};
ghost use Rattle.sheet.specs.Sheet.{easing_form};
ghost use Rattle.fresh.specs.Meaning.{option_sense};
ghost use Rattle.fresh.specs.Fresh as fresh;
ghost use Rattle.back_copying.specs.Means.{CopiesTo};

use crate::easings::copy_easing;
use back_copying::fields::put_field;
use back_spelling::PieceWriter;
use sheet_decode::fields::take_byte;

pub fn copy_opt_easing(text: &[u8], s: &[u8], at: usize, writer: &mut PieceWriter) -> usize
    ensures { CopiesTo (opt (easing_form (length text.now))) (λ o. fresh.field "easing" fresh.easing (option_sense text.now o)) s.now at writer.old writer.new result }
{
    let k = take_byte(s, at, 2);
    if k.v == 0 {
        return k.next;
    }
    put_field(writer, b"easing");
    copy_easing(text, s, k.next, writer)
}
