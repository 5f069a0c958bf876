// Whether the list of a field has a number, by a prepared book.
#![tactic(auto)]

ghost use Rattle.std.specs.Prelude.{◌≡◌, ◌+◌, ◌<◌, ◌≤◌, length};
ghost use Rattle.layout.specs.Lists.{beside as beside_of, has as has_of, is_one_of, names_of};
ghost use Rattle.layout.specs.BookRules.{word};
ghost use Rattle.prepared.specs.Names.{IsList, list_at, names_at};

use layout::Answer;
use prepared::{number, value};

// Whether x is among the numbers of the list at a, which rise.
fn is_among(p: &[u64], a: usize, x: u64) -> bool
    requires { IsList p.now a }
    ensures { result ≡ is_one_of x (list_at p.now a).numbers }
{
    bisect::find(number(p, a + 3), x, |i| value(p, a + 4 + i)).is_some()
}

// Whether the list at a has x: an enumeration among its numbers, a set each of its bits.
pub fn has(p: &[u64], a: usize, x: u64) -> bool
    requires { IsList p.now a }
    ensures { result ≡ has_of (names_of (list_at p.now a)) x }
{
    if value(p, a + 1) == 0 {
        return is_among(p, a, x);
    }
    x & value(p, a + 2) == x
}

// The answer of a field whose table is at t, beside its list: a number that the list lacks is unlisted.
pub fn beside(p: &[u64], t: usize, answer: Answer) -> Answer
    requires { (t + 6 ≤ length p.now) × (0 < word p.now (t + 5) → IsList p.now (word p.now (t + 5))) }
    ensures { result ≡ beside_of (names_at p.now (word p.now (t + 5))) answer }
{
    let list = number(p, t + 5);
    let Answer::Number(x) = answer else {
        return answer;
    };
    if list == 0 || has(p, list, x) {
        answer
    } else {
        Answer::Unlisted(x)
    }
}
