// Text in a slice of octets.
#![tactic(auto)]

ghost use Rattle.std.specs.Prelude.{◌≡◌, ◌+◌, ◌<◌, ◌≤◌, eqb, drop, length, take};
ghost use Rattle.layout.specs.Octets.{text_length};
ghost use Rattle.texts.specs.Least.{Clear, least};

// The least of N octets from `at` on, which is 0 where one of them is NUL. The compiler takes sixteen of them at once.
#[tactic(auto, using(crate::proofs::Texts::least_next), unfolding(crate::specs::Least::least))]
fn least<const N: usize>(s: &[u8], at: usize) -> u8
    requires { at + N ≤ length s.now }
    ensures { result ≡ least s.now at N }
{
    let mut low = u8::MAX;
    for i in 0..N {
        low = low.min(s[at + i]);
    }
    low
}

// How many of the n octets from `start` on are passed by N, none of them NUL, as long as `enough` are left. Without the
// hint writing takes up to 3 in 100 more instructions.
#[tactic(auto, using(crate::proofs::Texts::clear_past))]
#[inline(always)]
fn clear<const N: usize>(s: &[u8], start: usize, n: usize, enough: usize) -> usize
    requires { (0 < N) × (N ≤ enough) × (start + n ≤ length s.now) }
    ensures { (result ≤ n) × Clear s.now start result }
{
    let mut i = 0;
    // A `while`, since by a `for` over steps of N writing takes up to 15 in 100 more instructions.
    while enough <= n - i && least::<N>(s, start + i) != 0 {
        i += N;
    }
    i
}

// How many of the n octets from `start` on stand before the first NUL. They are passed by eights where there are many.
#[tactic(auto, using(crate::proofs::Texts::text_ends))]
pub fn text_length(s: &[u8], start: usize, n: usize) -> usize
    requires { start + n ≤ length s.now }
    ensures { result ≡ text_length (take n (drop start s.now)) }
{
    for j in clear::<8>(s, start, n, 16)..n {
        if s[start + j] == 0 {
            return j;
        }
    }
    n
}

// Whether none of the n octets from `start` on is NUL.
#[tactic(auto, using(crate::proofs::Texts::text_rest))]
pub fn is_text(s: &[u8], start: usize, n: usize) -> bool
    requires { start + n ≤ length s.now }
    ensures { result ≡ eqb (text_length (take n (drop start s.now))) n }
{
    let i = clear::<32>(s, start, n, 32);
    text_length(s, start + i, n - i) == n - i
}
