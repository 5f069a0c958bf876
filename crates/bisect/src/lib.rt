// Searching what rises.
#![tactic(auto)]

ghost use Rattle.std.specs.Prelude.{false, true, ◌-◌, ◌^◌, ◌<◌, ◌≤◌, ℕ, IfNone, IfSome};

// The first of n indices at which `is_before` does not hold, where it holds of those before it: half of the rest is
// passed at each step. It answered so at the index before and at this one.
#[inline]
pub fn first_past<F: Fn(usize) -> bool>(n: usize, is_before: F) -> usize
    requires small { n < 2 ^ 63 }
    requires answers { (i : ℕ) → i < n → F.pre is_before i }
    ensures inside { result ≤ n }
    ensures below { 0 < result → F.post is_before (result - 1) true }
    ensures past { result < n → F.post is_before result false }
{
    let mut low = 0;
    let mut high = n;
    // A `while`, since nothing is counted: the two bounds are the search.
    while low < high {
        let mid = (low + high) / 2;
        if is_before(mid) {
            low = mid + 1;
        } else {
            high = mid;
        }
    }
    low
}

// Which of n indices has the key x, where keys rise: half of the rest is passed at each step. If none has it, two
// neighbours were met with x between their keys, or one at an end with x beyond its key.
#[inline]
pub fn find<F: Fn(usize) -> u64>(n: usize, x: u64, key: F) -> Option<usize>
    requires small { n < 2 ^ 63 }
    requires answers { (i : ℕ) → i < n → F.pre key i }
    ensures inside { IfSome result (λ i. i < n) }
    ensures met { IfSome result (λ i. F.post key i x) }
    ensures missing { IfNone result ((i : ℕ) × (i ≤ n) × (0 < i → (y : ℕ) × (y < x) × F.post key (i - 1) y)
        × (i < n → (y : ℕ) × (x < y) × F.post key i y)) }
{
    let mut low = 0;
    let mut high = n;
    // As above.
    while low < high {
        let mid = (low + high) / 2;
        let here = key(mid);
        if here == x {
            return Some(mid);
        }
        if here < x {
            low = mid + 1;
        } else {
            high = mid;
        }
    }
    None
}

#[cfg(test)]
mod tests {
    use super::*;

    #[test]
    fn finds_where_a_number_stands(rt: HostRuntime) {
        let primes = [2, 3, 5, 7, 11];
        for (number, want) in [(1, 0), (2, 0), (3, 1), (4, 2), (7, 3), (11, 4), (12, 5)] {
            assert_eq!(rt;
                first_past(primes.len(), |i| primes[i] < number),
                want,
                "at {number}"
            );
        }
    }

    #[test]
    fn finds_which_index_leads_to_a_number(rt: HostRuntime) {
        let primes = [2, 3, 5, 7, 11];
        for (number, want) in [
            (1, None),
            (2, Some(0)),
            (4, None),
            (7, Some(3)),
            (11, Some(4)),
            (12, None),
        ] {
            assert_eq!(rt;
                find(primes.len(), number, |i| primes[i]),
                want,
                "at {number}"
            );
        }
    }
}
