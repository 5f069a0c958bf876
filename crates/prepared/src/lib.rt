// The prepared book: numbers that are made once of an accepted book, and what they say of a block.
#![tactic(auto)]

ghost use Rattle.std.specs.Prelude.{◌≡◌, ◌+◌, ◌<◌, ◌≤◌, length};
ghost use Rattle.layout.specs.Book.{end, need as need_of};
ghost use Rattle.layout.specs.BookRules.{word};
ghost use Rattle.layout.specs.Message.{dimension_size};
ghost use Rattle.prepared.specs.Names.{has_lists};
ghost use Rattle.prepared.specs.Positions.{IsBlock, IsField, IsRow, Opened, Sized, field_at, is_big, is_counted};
ghost use Rattle.prepared.specs.Positions.{shape_at};
ghost use Rattle.prepared.specs.Needs.{FieldsUpTo};
ghost use Rattle.prepared.specs.Books.{HoldsBook, location_of};

// Where the slots start, and the contents; how many numbers are a block's head.
const SLOTS: usize = 6;

const CONTENTS: usize = 70;

const HEAD: usize = 12;

// A message of this version, to be read by a prepared book.
#[derive(Clone, Copy)]
pub struct Message<'a> {
    pub book: &'a [u64],
    pub octets: &'a [u8],
    pub version: usize,
}

// Number i.
pub fn value(p: &[u64], i: usize) -> u64
    requires { i < length p.now }
    ensures { result ≡ word p.now i }
{
    p[i]
}

// Number i, which is a count or a place.
pub fn number(p: &[u64], i: usize) -> usize
    requires { i < length p.now }
    ensures { result ≡ word p.now i }
{
    p[i] as usize
}

// Whether the book has lists: where it has none, no field has one.
pub fn has_lists(p: &[u64]) -> bool
    requires { 3 < length p.now }
    ensures { result ≡ has_lists p.now }
{
    0 < p[3]
}

// Whether the book's messages are big-endian.
pub fn is_big(p: &[u64]) -> bool
    requires { 4 < length p.now }
    ensures { result ≡ is_big p.now }
{
    p[4] == 1
}

// Whether a group's dimension has the counts of its block's groups and data.
pub fn is_counted(p: &[u64]) -> bool
    requires { 5 < length p.now }
    ensures { result ≡ is_counted p.now }
{
    p[5] == 8
}

// How many octets a dimension has.
pub fn dimension_size(p: &[u64]) -> usize
    requires { (5 < length p.now) × Sized p.now }
    ensures { result ≡ dimension_size (is_counted p.now) }
{
    number(p, 5)
}

// Does nothing. Its contract is a law: what the first of the n groups at a is good for.
pub fn open_row(p: &[u64], a: usize, n: usize, depth: usize)
    requires { IsRow p.now depth n a × (0 < n) }
    ensures { Opened p.now depth n a }
{}

// How many fields of the block at a are present at a version before the book's: sinces never fall.
fn older_fields(p: &[u64], a: usize, v: usize) -> usize
    requires { IsBlock p.now a }
    ensures { FieldsUpTo p.now a v result }
{
    bisect::first_past(number(p, a + 3), |i| number(p, a + HEAD + 7 * i + 5) <= v)
}

// The end of the field at f, whose table is at t.
fn end_of(p: &[u64], f: usize, t: usize) -> usize
    requires { IsField p.now f t × (end (field_at p.now f) ≤ 65535) }
    ensures { result ≡ end (field_at p.now f) }
{
    number(p, f + 3) + number(p, t + 4) * number(p, f + 2)
}

// The need of the block at a, at a version before the book's: the end of its last field that is present.
fn older_need(p: &[u64], a: usize, v: usize) -> usize
    requires { IsBlock p.now a }
    ensures { result ≡ need_of v (shape_at p.now a) }
{
    let n = older_fields(p, a, v);
    if n == 0 {
        return 0;
    }
    let last = n - 1;
    end_of(p, a + HEAD + 7 * last, number(p, a + 11) + 6 * last)
}

// The need of the block at a, at version v.
pub fn need(p: &[u64], a: usize, v: usize) -> usize
    requires { IsBlock p.now a }
    ensures { result ≡ need_of v (shape_at p.now a) }
{
    if number(p, 1) <= v {
        return number(p, a + 6);
    }
    older_need(p, a, v)
}

// The place of the template with this id, searched in the contents: ids rise.
fn search(p: &[u64], id: usize) -> Option<usize>
    requires { HoldsBook p.now }
    ensures { result ≡ location_of p.now id }
{
    let row = bisect::find(number(p, 2), id as u64, |i| value(p, CONTENTS + 2 * i))?;
    Some(number(p, CONTENTS + 2 * row + 1))
}

// The place of the template with this id: its slot mostly leads there.
pub fn find(p: &[u64], id: usize) -> Option<usize>
    requires { HoldsBook p.now }
    ensures { result ≡ location_of p.now id }
{
    let a = number(p, SLOTS + id % 64);
    if 0 < a && number(p, a) == id {
        return Some(a);
    }
    search(p, id)
}
