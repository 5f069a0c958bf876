// The nine types of number, and their numbers read and stored. A negative number is held as 2^64 + value.
#![tactic(auto)]

ghost use Rattle.std.specs.Prelude.{◌≡◌, true, ◌+◌, ◌^◌, ◌<◌, ◌≤◌, length};
ghost use Rattle.std.proofs.lemmas.List.Edits.{sets};
ghost use Rattle.layout.specs.Octets.{octets_of};
ghost use Rattle.layout.specs.Types.{row_of, type_at, is_width, value_of};
ghost use Rattle.ordered.specs.Order.{SpeltBy};
ghost use Rattle.number_types.specs.Value.{is_big_in, kept, type_in, value_at};

// A type: its octets, whether it has a sign, its range and its null.
#[derive(Clone, Copy)]
pub struct NumberType {
    pub width: usize,
    pub signed: bool,
    pub least: u64,
    pub greatest: u64,
    pub null: u64,
}

// The one special case.
const CHAR: NumberType = NumberType {
    width: 1,
    signed: false,
    least: 0x20,
    greatest: 0x7e,
    null: 0,
};

// The integer of this width and sign. Its null is the one number that its range lacks: the least if it has a sign, and
// the greatest if not.
#[tactic(auto, using(crate::proofs::Types::ones_fit, crate::proofs::Types::width_fits))]
fn integer(width: usize, signed: bool) -> NumberType
    requires { is_width width ≡ true }
    ensures { result ≡ kept (row_of width signed) }
{
    let ones = u64::MAX >> (64 - 8 * width);
    if signed {
        let greatest = ones / 2;
        let null = u64::MAX - greatest;
        return NumberType {
            width,
            signed,
            least: null + 1,
            greatest,
            null,
        };
    }
    NumberType {
        width,
        signed,
        least: 0,
        greatest: ones - 1,
        null: ones,
    }
}

// The type with code t. 1 to 8 are the integers: the odd ones have a sign, and each pair has twice the octets of the
// one before it.
#[tactic(auto, using(crate::proofs::Types::doubled, crate::proofs::Types::integer_at, crate::proofs::Types::char_kept))]
pub fn number_type(t: usize) -> NumberType
    ensures { result ≡ kept (type_at t) }
{
    match t {
        1..=8 => integer(1 << ((t - 1) / 2), t % 2 == 1),
        _ => CHAR,
    }
}

pub fn width_of(t: usize) -> usize
    ensures { result ≡ (type_at t).width }
{
    number_type(t).width
}

// The number that the w octets at `at` are.
#[tactic(auto, using(crate::proofs::Types::width_eight))]
fn raw(big: bool, s: &[u8], at: usize, w: usize) -> u64
    requires { (is_width w ≡ true) × (at + w ≤ length s.now) }
    ensures { SpeltBy big w s.now at result }
{
    match w {
        1 => ordered::get::<1>(big, s, at),
        2 => ordered::get::<2>(big, s, at),
        4 => ordered::get::<4>(big, s, at),
        _ => ordered::get::<8>(big, s, at),
    }
}

// The value of the number x that a type's octets are: of a signed type the numbers above its greatest are the
// negatives, counted from the least, its null.
#[tactic(auto, using(crate::proofs::Types::value_high, crate::proofs::Types::value_low, crate::proofs::Types::value_fits))]
fn value_of(t: usize, x: u64) -> u64
    requires { x < 256 ^ (type_at t).width }
    ensures { result ≡ value_of (type_at t) x }
{
    let k = number_type(t);
    if k.signed && k.greatest < x {
        return k.null + (x - k.greatest - 1);
    }
    x
}

// The value of the number of type t at `at`.
#[tactic(auto, using(layout::proofs::TypeLaws::width_listed))]
fn value_as(big: bool, s: &[u8], at: usize, t: usize) -> u64
    requires { at + (type_at t).width ≤ length s.now }
    ensures { result ≡ value_at big s.now at t }
{
    value_of(t, raw(big, s, at, width_of(t)))
}

// The value of the number at `at` whose type and order are coded as c. The compiler works out each arm for its one
// type and order.
#[tactic(auto, using(crate::proofs::Types::char_at))]
pub fn value_at(s: &[u8], at: usize, c: usize) -> u64
    requires { at + (type_at (type_in c)).width ≤ length s.now }
    ensures { result ≡ value_at (is_big_in c) s.now at (type_in c) }
{
    match c {
        2 => value_as(false, s, at, 1),
        3 => value_as(true, s, at, 1),
        4 => value_as(false, s, at, 2),
        5 => value_as(true, s, at, 2),
        6 => value_as(false, s, at, 3),
        7 => value_as(true, s, at, 3),
        8 => value_as(false, s, at, 4),
        9 => value_as(true, s, at, 4),
        10 => value_as(false, s, at, 5),
        11 => value_as(true, s, at, 5),
        12 => value_as(false, s, at, 6),
        13 => value_as(true, s, at, 6),
        14 => value_as(false, s, at, 7),
        15 => value_as(true, s, at, 7),
        16 => value_as(false, s, at, 8),
        17 => value_as(true, s, at, 8),
        _ => value_as(c % 2 == 1, s, at, 0),
    }
}

// The w lowest octets of x, stored at `at`: how many they are. Each arm says its own number, so that what is stored
// next does not wait for w to be worked out.
#[tactic(auto, using(crate::proofs::Types::width_eight))]
pub fn store(big: bool, s: &mut [u8], at: usize, w: usize, x: u64) -> usize
    requires { (is_width w ≡ true) × (at + w ≤ length s.old) }
    ensures { (result ≡ w) × (s.new ≡ sets s.old at (octets_of big w x)) }
{
    match w {
        1 => {
            ordered::put::<1>(big, s, at, x);
            1
        }
        2 => {
            ordered::put::<2>(big, s, at, x);
            2
        }
        4 => {
            ordered::put::<4>(big, s, at, x);
            4
        }
        _ => {
            ordered::put::<8>(big, s, at, x);
            8
        }
    }
}
