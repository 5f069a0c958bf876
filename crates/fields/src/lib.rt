// What a field of an accepted book is in a block of a message.
#![tactic(auto)]

ghost use Rattle.std.specs.Prelude.{◌≡◌, ◌+◌, ◌≤◌, length};
ghost use Rattle.layout.specs.Message.{array_at, read_field};
ghost use Rattle.prepared.specs.Positions.{IsField, field_at, is_big};
ghost use Rattle.fields.specs.Readable.{Readable, class_of, plain};

use layout::Answer;
use prepared::{Message, number, value};

// The array that the field at place f is, with its len octets at `start`: of char it is text.
fn read_array(p: &[u64], f: usize, m: &[u8], start: usize, len: usize) -> Answer
    requires { (f + 7 ≤ length p.now) × (len ≡ (field_at p.now f).length) × (start + len ≤ length m.now) }
    ensures { result ≡ array_at m.now start (field_at p.now f) }
{
    if number(p, f + 1) != 0 {
        return Answer::Octets { start, len };
    }
    let n = texts::text_length(m, start, len);
    if 0 < n {
        return Answer::Octets { start, len: n };
    }
    if number(p, f + 4) == 1 {
        return Answer::Null;
    }
    Answer::Octets { start, len: 0 }
}

// What the value x is to the field at place f, whose table is at t: a number, null, or out of range. No null is in its
// range, so that what is most frequent is asked first.
fn class_of(p: &[u64], f: usize, t: usize, x: u64) -> Answer
    requires { IsField p.now f t }
    ensures { result ≡ class_of p.now f x }
{
    if x.wrapping_sub(value(p, t + 1)) <= value(p, t + 2) {
        return Answer::Number(x);
    }
    if number(p, f + 4) == 1 && x == value(p, t + 3) {
        return Answer::Null;
    }
    Answer::OutOfRange(x)
}

// The field at place f of the prepared book, whose table is at t, without its list, in the block at `at` of a message.
#[inline(always)]
pub fn read_plain(m: &Message, f: usize, t: usize, at: usize) -> Answer
    requires { Readable m.now.book.now f t m.now.octets.now m.now.version at }
    ensures { result ≡ read_field (is_big m.now.book.now) m.now.octets.now m.now.version at (plain (field_at m.now.book.now
        f)) }
{
    let p = m.book;
    if m.version < number(p, f + 5) {
        return Answer::Absent;
    }
    let len = number(p, f + 2);
    let start = at + number(p, f + 3);
    if len <= 1 {
        return class_of(
            p,
            f,
            t,
            number_types::value_at(m.octets, start, number(p, t)),
        );
    }
    read_array(p, f, m.octets, start, len)
}

// The same, beside its list.
pub fn read_field(m: &Message, f: usize, t: usize, at: usize) -> Answer
    requires { Readable m.now.book.now f t m.now.octets.now m.now.version at }
    ensures { result ≡ read_field (is_big m.now.book.now) m.now.octets.now m.now.version at (field_at m.now.book.now f) }
{
    names::beside(m.book, t, read_plain(m, f, t, at))
}
