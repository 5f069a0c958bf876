// Writes the message that a listing gives which was judged before: it is good and the room has space, so nothing is
// refused. The room is zeros all over, so padding is not stored. Each element's writer is lent the room from the cursor
// on, and stores from that part's start.
#![tactic(auto)]

ghost use Rattle.std.specs.Prelude.{◌≡◌, [], ◌∷◌, ◌+◌, ◌*◌, ◌/◌, ◌^◌, ◌<◌, ◌≤◌, length, take, drop, get_or};
ghost use Rattle.std.proofs.lemmas.List.Edits.{sets};
ghost use Rattle.layout.specs.BookRules.{word};
ghost use Rattle.layout.specs.Writing.{header_of, numbers16, second, third};
ghost use Rattle.prepared.specs.Books.{book_at, template_at};
ghost use Rattle.prepared.specs.Positions.{BlockAt, IsBlock, IsField, field_at, inner_at, is_big, is_counted, many_datas};
ghost use Rattle.prepared.specs.Positions.{shape_at};
ghost use Rattle.prints.specs.Prints.{Room, Stored, numbers_of};
ghost use Rattle.writer.specs.Heads.{IsHead};
ghost use Rattle.writer.specs.Zeros.{Ready, ZerosFrom};
ghost use Rattle.writer.specs.Parts.{data_part, datas_part, dimension_at, entries_at, fields_part, groups_part};
ghost use Rattle.writer.specs.Parts.{message_part, number_or, value_part};

use prepared::number;
use records::{Kind, Listing};

// Where the pass stands: the number of the next record, and how many octets of the room are taken.
#[derive(Clone, Copy)]
pub struct Cursor {
    pub record: usize,
    pub at: usize,
}

// What is read once of a block for all its entries: its octets, its fields, where what is worked out of them stands,
// and the counts of what follows.
#[derive(Clone, Copy)]
pub struct Head {
    pub length: usize,
    pub fields: usize,
    pub table: usize,
    pub follow: usize,
}

fn head_at(p: &[u64], a: usize) -> Head
    requires { IsBlock p.now a }
    ensures { IsHead p.now a result }
{
    Head {
        length: number(p, a + 2),
        fields: number(p, a + 3),
        table: number(p, a + 11),
        follow: number(p, a + 7),
    }
}

// The len octets of the pool from `start` on: by a loop, since `copy_from_slice` would call the C library's `memmove`.
fn put_octets(room: &mut [u8], pool: &[u8], start: usize, len: usize)
    requires { (len ≤ length room.old) × (start + len ≤ length pool.now) }
    ensures { room.new ≡ sets room.old 0 (take len (drop start pool.now)) }
{
    for i in 0..len {
        room[i] = pool[start + i];
    }
}

// The number to store for record i: its own, or the null of the type at t.
#[tactic(auto, unfolding(crate::proofs::Parts::choices))]
fn number_for(l: &Listing, t: usize, i: usize) -> u64
    requires { (t + 6 ≤ length l.now.book.now) × (3 * i + 3 ≤ length l.now.numbers.now) }
    ensures { result ≡ number_or l.now.numbers.now i (word l.now.book.now (t + 3)) }
{
    if l.is(i, Kind::Number) {
        return l.second(i);
    }
    l.book[t + 3]
}

// The field at f, whose table is at t, from record i. Of an array the octets that the record names are copied, and
// null's record names none: the NULs after them stand already.
fn write_value(l: &Listing, big: bool, f: usize, t: usize, i: usize, room: &mut [u8])
    requires field { IsField l.now.book.now f t × ZerosFrom 0 room.old }
    requires room { Room (value_part big l.now.numbers.now l.now.pool.now (field_at l.now.book.now f) i) 0 (length room.old) }
    ensures { room.new ≡ sets room.old 0 (numbers_of (value_part big l.now.numbers.now
        l.now.pool.now (field_at l.now.book.now f) i)) }
{
    let p = l.book;
    if number(p, f + 2) <= 1 {
        let x = number_for(l, t, i);
        number_types::store(big, room, 0, number(p, t + 4), x);
        return;
    }
    put_octets(room, l.pool, l.second(i) as usize, l.third(i) as usize);
}

// The block at a without its groups and data. Each field is stored at its offset, and the zeros between them stand
// already.
fn write_fields(l: &Listing, big: bool, a: usize, h: Head, room: &mut [u8], c: Cursor) -> Cursor
    requires block { IsBlock l.now.book.now a × IsHead l.now.book.now a h × ZerosFrom c.at room.old }
    requires room { Room (fields_part big l.now.numbers.now l.now.pool.now (word l.now.book.now (a + 2)) 0
        (shape_at l.now.book.now a).fields c.record) c.at (length room.old) }
    ensures { Stored (fields_part big l.now.numbers.now l.now.pool.now (word l.now.book.now (a + 2)) 0
        (shape_at l.now.book.now a).fields c.record) c.at room.old result.record result.at
        room.new }
{
    // As in `store`.
    let mut f = a + 12;
    let mut t = h.table;
    let mut i = c.record;
    for _ in (0..h.fields).rev() {
        let at = c.at + number(l.book, f + 3);
        write_value(l, big, f, t, i, &mut room[at..]);
        f += 7;
        t += 6;
        i += 1;
    }
    Cursor {
        record: i,
        at: c.at + h.length,
    }
}

// The same in the book's order. The compiler makes a loop of its own for each.
fn write_block(l: &Listing, a: usize, h: Head, room: &mut [u8], c: Cursor) -> Cursor
    requires block { IsBlock l.now.book.now a × IsHead l.now.book.now a h × ZerosFrom c.at room.old }
    requires room { Room (fields_part (is_big l.now.book.now) l.now.numbers.now l.now.pool.now (word l.now.book.now (a + 2)) 0
        (shape_at l.now.book.now a).fields c.record) c.at (length room.old) }
    ensures { Stored (fields_part (is_big l.now.book.now) l.now.numbers.now l.now.pool.now (word l.now.book.now (a + 2)) 0
        (shape_at l.now.book.now a).fields c.record) c.at room.old result.record result.at room.new }
{
    if !prepared::is_big(l.book) {
        return write_fields(l, false, a, h, room, c);
    }
    write_fields(l, true, a, h, room, c)
}

// The data of record i: how many octets it has.
fn write_data(l: &Listing, big: bool, i: usize, room: &mut [u8]) -> usize
    requires { Room (data_part big l.now.numbers.now l.now.pool.now i) 0 (length room.old) }
    ensures { Stored (data_part big l.now.numbers.now l.now.pool.now i) 0 room.old (i + 1) result
        room.new × (i + 1 < 2 ^ 64) }
{
    let len = l.third(i);
    ordered::put::<2>(big, room, 0, len);
    put_octets(&mut room[2..], l.pool, l.second(i) as usize, len as usize);
    2 + len as usize
}

// The data of the block at a.
fn write_datas(l: &Listing, a: usize, room: &mut [u8], c: Cursor) -> Cursor
    requires block { IsBlock l.now.book.now a }
    requires room { Room (datas_part (is_big l.now.book.now) l.now.numbers.now l.now.pool.now (many_datas l.now.book.now a)
        c.record) c.at (length room.old) }
    ensures { Stored (datas_part (is_big l.now.book.now) l.now.numbers.now l.now.pool.now (many_datas
        l.now.book.now a) c.record) c.at room.old result.record result.at room.new }
{
    let big = prepared::is_big(l.book);
    let datas = number(l.book, a + 5);
    let mut at = c.at;
    for data in 0..datas {
        at += write_data(l, big, c.record + data, &mut room[at..]);
    }
    Cursor {
        record: c.record + datas,
        at,
    }
}

// Two 16-bit numbers at `at`.
#[tactic(auto, using(crate::proofs::Message::two_numbers))]
fn put_two(big: bool, room: &mut [u8], at: usize, x: u64, y: u64)
    requires { at + 4 ≤ length room.old }
    ensures { room.new ≡ sets room.old at (numbers16 big (x ∷ y ∷ [])) }
{
    ordered::put::<2>(big, room, at, x);
    ordered::put::<2>(big, room, at + 2, y);
}

// The dimension of the group at a, which has k entries, `depth` more levels being left.
#[tactic(auto, using(crate::proofs::Message::four_numbers))]
fn put_dimension(p: &[u64], a: usize, depth: usize, k: u64, room: &mut [u8], c: Cursor) -> Cursor
    requires block_at { BlockAt p.now depth a × (c.record + 1 < 2 ^ 64) }
    requires room { Room (dimension_at p.now depth a k c.record) c.at (length room.old) }
    ensures { Stored (dimension_at p.now depth a k c.record) c.at room.old result.record
        result.at room.new }
{
    let big = prepared::is_big(p);
    put_two(big, room, c.at, p[a + 2], k);
    if prepared::is_counted(p) {
        put_two(big, room, c.at + 4, p[a + 4], p[a + 5]);
    }
    Cursor {
        record: c.record + 1,
        at: c.at + prepared::dimension_size(p),
    }
}

// The header of a message of the template at a: six numbers.
fn put_header(p: &[u64], a: usize, room: &mut [u8])
    requires { BlockAt p.now 4 a × (12 ≤ length room.old) }
    ensures { room.new ≡ sets room.old 0 (numbers16 (is_big p.now) (header_of
        (book_at p.now) (template_at p.now a))) }
{
    let big = prepared::is_big(p);
    put_two(big, room, 0, p[a + 2], p[a]);
    put_two(big, room, 4, p[0], p[1]);
    put_two(big, room, 8, p[a + 4], p[a + 5]);
}

// k entries of the block at a, `depth` more levels being left.
#[cycle(write_entries_write_row)]
fn write_entries(l: &Listing, a: usize, depth: usize, k: u64, room: &mut [u8], c: Cursor) -> Cursor
    requires block_at { BlockAt l.now.book.now depth a × ZerosFrom c.at room.old }
    requires room { Room (entries_at l.now.numbers.now l.now.pool.now l.now.book.now depth a k c.record) c.at
        (length room.old) }
    ensures { Stored (entries_at l.now.numbers.now l.now.pool.now l.now.book.now
        depth a k c.record) c.at room.old result.record result.at room.new }
{
    // Taken anew: so its numbers are loaded once, and not after each store into the room.
    let listing = *l;
    let block = head_at(listing.book, a);
    let mut here = c;
    for _ in (0..k).rev() {
        here = write_block(&listing, a, block, room, here);
        if block.follow != 0 {
            here = write_row(l, a, depth, room, here);
            here = write_datas(&listing, a, room, here);
        }
    }
    here
}

// The groups of the block at a, `depth` more levels being left.
#[cycle(write_entries_write_row)]
fn write_row(l: &Listing, a: usize, depth: usize, room: &mut [u8], c: Cursor) -> Cursor
    requires block_at { BlockAt l.now.book.now depth a × ZerosFrom c.at room.old }
    requires room { Room (groups_part (is_counted l.now.book.now) (is_big l.now.book.now) l.now.numbers.now l.now.pool.now
        (inner_at l.now.book.now depth a) c.record) c.at (length room.old) }
    ensures { Stored (groups_part (is_counted l.now.book.now) (is_big l.now.book.now) l.now.numbers.now l.now.pool.now
        (inner_at l.now.book.now depth a) c.record) c.at room.old result.record result.at room.new }
{
    let p = l.book;
    let mut g = number(p, a + 9);
    let mut here = c;
    for left in (1..=number(p, a + 4)).rev() {
        prepared::open_row(p, g, left, depth);
        let below = depth - 1;
        let block = g;
        g = number(p, block + 8);
        let k = l.second(here.record);
        here = put_dimension(p, block, below, k, room, here);
        here = write_entries(l, block, below, k, room, here);
    }
    here
}

// The message of a listing that was judged, by the template at a.
pub fn write_message(l: &Listing, a: usize, room: &mut [u8])
    requires block_at { BlockAt l.now.book.now 4 a }
    requires ready { Ready (message_part l.now.numbers.now l.now.pool.now (book_at l.now.book.now) (template_at
        l.now.book.now a)) room.old }
    ensures { room.new ≡ sets room.old 0 (numbers_of (message_part l.now.numbers.now l.now.pool.now (book_at l.now.book.now)
        (template_at l.now.book.now a))) }
{
    put_header(l.book, a, room);
    let root = Cursor { record: 0, at: 12 };
    write_entries(l, a, 4, 1, room, root);
}
