// 02 (i): the order of items by their calls. Items are their ordinals, and byte 128 i + j of the calls is not 0 where item i calls item j.
// For our own crates: 16,384 bytes of calls are required, at most 128 items, and an output of 128 bytes.
#![tactic(auto)]

ghost use Rattle.std.specs.Prelude.{◌<◌, not, ◌≡◌, length, take};
ghost use Rattle.text.specs.Means.{place_of};
ghost use Rattle.order.specs.Order.{every, first, free, order as Order·order};
ghost use Rattle.order.specs.Means.{calls_in, Square, not_waiting, list_of};

pub const SIDE: usize = 128;

// Whether item i waits for item j: it calls it, and j is not listed.
fn waits_for(calls: &[u8], listed: &[u8], i: usize, j: usize) -> bool
    requires { (length calls.now ≡ 16384) × (i < 128) × (j < 128) }
    ensures { result ≡ not (not_waiting (calls_in calls.now) listed.now i j) }
{
    calls[i * SIDE + j] != 0 && !text::has(listed, j as u8)
}

// Whether item i, of n, waits for none.
fn is_ready(calls: &[u8], listed: &[u8], n: usize, i: usize) -> bool
    requires { Square calls.now n × (i < 128) }
    ensures { result ≡ every (not_waiting (calls_in calls.now) listed.now i) n }
{
    (0..n).all(|j| !waits_for(calls, listed, i, j))
}

// Whether it is free: not listed, and all it calls is.
fn is_free(calls: &[u8], listed: &[u8], n: usize, i: usize) -> bool
    requires { Square calls.now n × (i < 128) }
    ensures { result ≡ free (calls_in calls.now) n listed.now i }
{
    !text::has(listed, i as u8) && is_ready(calls, listed, n, i)
}

// The first item that is free, if there is one.
fn first_free(calls: &[u8], listed: &[u8], n: usize) -> Option<usize>
    requires { Square calls.now n }
    ensures { place_of result ≡ first (free (calls_in calls.now) n listed.now) n }
{
    (0..n).find(|&i| is_free(calls, listed, n, i))
}

// Lists n items, each behind all it calls, the first by place among those free: whether that can be done. The list is written to the front of
// `out`.
pub fn list(calls: &[u8], n: usize, out: &mut [u8]) -> bool
    requires { Square calls.now n × (length out.old ≡ 128) }
    ensures { list_of result (take n out.new) ≡ Order·order (calls_in calls.now) n }
{
    for k in 0..n {
        let Some(i) = first_free(calls, &out[..k], n) else {
            return false;
        };
        out[k] = i as u8;
    }
    true
}
