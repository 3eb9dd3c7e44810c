// What is absent or present: a byte 0, or 1 and the value.
ghost use Rattle.sheet_decode.specs.OptionalMeans.{ReadsOption};

use crate::fields::{Taken, take_byte};

// `take` reads the value at a place.
pub fn take_opt<T, F: FnOnce(usize) -> Taken<T> + Drop>(
    s: &[u8],
    at: usize,
    take: F,
) -> Taken<Option<T>>
    requires { F.IsAlwaysCallable take }
    ensures { ReadsOption (F.post take) s.now at result.v result.next }
{
    let present = take_byte(s, at, 2);
    if present.v == 0 {
        return Taken {
            v: None,
            next: present.next,
        };
    }
    let value = take(present.next);
    Taken {
        v: Some(value.v),
        next: value.next,
    }
}
