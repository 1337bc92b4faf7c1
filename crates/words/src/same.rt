// Names of one length, compared by their ends: `==` on slices is a call, and took 85 instructions for 68 a name of nine letters and more.
ghost use Rattle.std.specs.Prelude.{◌≡◌, ◌≢◌, ◌≤◌, ◌<◌, ◌+◌, length};
ghost use Rattle.std.specs.Bool.{MatchBool};

// The first N bytes and the last N, which together are all.
#[inline(always)]
#[tactic(auto, using(crate::proofs::Ends::same_ends))]
fn same_ends<const N: usize>(a: &[u8], b: &[u8]) -> bool
    requires { (N ≤ 8) × (N ≤ length a.now) × (length a.now ≤ N + N) × (length b.now ≡ length a.now) }
    ensures { MatchBool result (a.now ≡ b.now) (a.now ≢ b.now) }
{
    match (
        a.first_chunk::<N>(),
        b.first_chunk::<N>(),
        a.last_chunk::<N>(),
        b.last_chunk::<N>(),
    ) {
        (Some(a_front), Some(b_front), Some(a_back), Some(b_back)) => {
            if *a_front == *b_front && *a_back == *b_back {
                return true;
            }
            false
        }
        _ => false,
    }
}

#[inline(always)]
pub(crate) fn same(a: &[u8], b: &[u8]) -> bool
    requires { (1 ≤ length a.now) × (length a.now ≤ 16) × (length b.now ≡ length a.now) }
    ensures { MatchBool result (a.now ≡ b.now) (a.now ≢ b.now) }
{
    let n = a.len();
    if n < 2 {
        same_ends::<1>(a, b)
    } else if n < 4 {
        same_ends::<2>(a, b)
    } else if n < 8 {
        same_ends::<4>(a, b)
    } else {
        same_ends::<8>(a, b)
    }
}
