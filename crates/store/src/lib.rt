// Stores the listing of a message that was walked before: it is accepted and the room has space, so nothing is refused.
// Each function but `store_entries` and `store_answer` has one caller.
#![tactic(auto)]

ghost use Rattle.std.specs.Prelude.{◌≡◌, ◌+◌, ◌<◌, ◌≤◌, length};
ghost use Rattle.layout.specs.Result.{Each};
ghost use Rattle.layout.specs.Book.{need};
ghost use Rattle.layout.specs.Values.{record_of};
ghost use Rattle.layout.specs.Message.{read_field};
ghost use Rattle.prepared.specs.Names.{has_lists};
ghost use Rattle.prepared.specs.Positions.{BlockAt, IsBlock, field_at, inner_at, is_big, shape_at};
ghost use Rattle.fields.specs.Readable.{Fits, Readable};
ghost use Rattle.wire.specs.Walks.{Lent};
ghost use Rattle.prints.specs.Prints.{Accepted, Printed, Room, Stored, end_of};
ghost use Rattle.store.specs.Stores.{datas_print, fields_print, groups_print, over_print, sized_print, surplus_print};

use counts::Entries;
use layout::Answer;
use prepared::{Message, number};
use records::Kind;

// Where the pass stands in the message and in the room.
#[derive(Clone, Copy)]
pub struct Cursor {
    pub at: usize,
    pub n: usize,
}

// The record of an answer, after which the pass stands at `at`.
fn store_answer(answer: Answer, at: usize, room: &mut [u64], n: usize) -> Cursor
    requires { Room (Printed.got at (record_of answer)) n (length room.old) }
    ensures { Stored (Printed.got at (record_of answer)) n room.old result.at result.n room.new }
{
    records::put(room, n, answer);
    Cursor { at, n: n + 3 }
}

// The record of the field at f, whose table is at t: where the next one goes. It is stored as if there were no lists,
// and a number that the field's list lacks is made unlisted where it stands: so most fields are not looked at again.
fn store_field(
    m: &Message,
    f: usize,
    t: usize,
    listed: bool,
    at: usize,
    room: &mut [u64],
    n: usize,
) -> usize
    requires { Readable m.now.book.now f t m.now.octets.now m.now.version at × (listed ≡ has_lists m.now.book.now)
        × (n + 3 ≤ length room.old) }
    ensures { Stored (Printed.got at (record_of (read_field (is_big m.now.book.now) m.now.octets.now m.now.version at (field_at
        m.now.book.now f)))) n room.old at result room.new }
{
    let next = n + 3;
    records::put(room, n, fields::read_plain(m, f, t, at));
    if !listed {
        return next;
    }
    let list = number(m.book, t + 5);
    if list == 0 || room[n] != Kind::Number as u64 {
        return next;
    }
    let x = room[n + 1];
    if !names::has(m.book, list, x) {
        records::put(room, n, Answer::Unlisted(x));
    }
    next
}

// The fields of the block at a, of which l octets stand in the message.
fn store_fields(m: &Message, a: usize, l: usize, room: &mut [u64], c: Cursor) -> Cursor
    requires block { IsBlock m.now.book.now a × Each (Fits m.now.octets.now m.now.version c.at) (shape_at m.now.book.now a).fields }
    requires m_len_bound { (length m.now.octets.now ≤ 65535) × (c.at + l ≤ length m.now.octets.now) }
    requires room { Room (fields_print (is_big m.now.book.now) m.now.octets.now m.now.version (shape_at m.now.book.now a).fields l
        c.at) c.n (length room.old) }
    ensures stored { Stored (fields_print (is_big m.now.book.now) m.now.octets.now m.now.version (shape_at m.now.book.now a).fields l
        c.at) c.n room.old result.at result.n room.new }
    ensures at_in_bounds { result.at ≤ length m.now.octets.now }
{
    let p = m.book;
    let listed = prepared::has_lists(p);
    // Places are carried and the loop counts down: worked out of an index they took a twentieth more instructions.
    let mut f = a + 12;
    let mut t = number(p, a + 11);
    let mut n = c.n;
    for _ in (0..number(p, a + 3)).rev() {
        n = store_field(m, f, t, listed, c.at, room, n);
        f += 7;
        t += 6;
    }
    Cursor { at: c.at + l, n }
}

// The octet after n surplus groups.
fn pass_groups(m: &Message, depth: usize, n: usize, at: usize) -> usize
    requires { Accepted (surplus_print m.now.book.now depth m.now.octets.now n at) × (5 < length m.now.book.now)
        × (at ≤ length m.now.octets.now) }
    ensures { (result ≡ end_of (surplus_print m.now.book.now depth m.now.octets.now n at)) × (result ≤ length
        m.now.octets.now) }
{
    surplus::skip_groups(&walk::sent(m), depth, n, at).unwrap_or(at)
}

// The octet after n surplus data.
fn pass_datas(big: bool, m: &[u8], n: usize, at: usize) -> usize
    requires { Accepted (over_print big m.now n at) × (at ≤ length m.now) }
    ensures { (result ≡ end_of (over_print big m.now n at)) × (result ≤ length m.now) }
{
    surplus::skip_datas(big, m, n, at).unwrap_or(at)
}

// The data of the block at a, and past these n surplus ones.
fn store_datas(m: &Message, a: usize, n: usize, room: &mut [u64], c: Cursor) -> Cursor
    requires block { IsBlock m.now.book.now a × Lent m.now.octets.now c.at }
    requires room { Room (datas_print (is_big m.now.book.now) m.now.octets.now m.now.version (shape_at m.now.book.now a).datas n c.at)
        c.n (length room.old) }
    ensures stored { Stored (datas_print (is_big m.now.book.now) m.now.octets.now m.now.version (shape_at m.now.book.now a).datas n
        c.at) c.n room.old result.at result.n room.new }
    ensures at_in_bounds { result.at ≤ length m.now.octets.now }
{
    let p = m.book;
    let t = m.octets;
    let v = m.version;
    let big = prepared::is_big(p);
    let from = number(p, a + 10);
    let mut here = c;
    for i in 0..number(p, a + 5) {
        if v < number(p, from + 2 * i + 1) {
            here = store_answer(Answer::Absent, here.at, room, here.n);
            continue;
        }
        let start = here.at + 2;
        let len = wire::data_length(big, t, here.at);
        here = store_answer(Answer::Octets { start, len }, start + len, room, here.n);
    }
    Cursor {
        at: pass_datas(big, t, n, here.at),
        n: here.n,
    }
}

// The entries of the block at a, `depth` more levels being left: their fields, their groups, past which surplus ones
// stand, and their data, past which surplus ones do.
#[cycle(store_entries_store_row)]
pub fn store_entries(
    m: &Message,
    a: usize,
    depth: usize,
    entries: Entries,
    room: &mut [u64],
    c: Cursor,
) -> Cursor
    requires block_at { BlockAt m.now.book.now depth a × (need m.now.version (shape_at m.now.book.now a) ≤ entries.length)
        × (entries.surplus.groups ≤ 65535) × (entries.surplus.datas ≤ 65535) }
    requires room { Room (sized_print m.now.book.now depth a m.now.octets.now m.now.version entries c.at) c.n (length room.old) }
    requires lent { Lent m.now.octets.now c.at }
    ensures stored { Stored (sized_print m.now.book.now depth a m.now.octets.now m.now.version entries c.at) c.n
        room.old result.at result.n room.new }
    ensures at_in_bounds { result.at ≤ length m.now.octets.now }
{
    // Taken anew: so its numbers are loaded once, and not after each store into the room.
    let message = *m;
    let over = entries.surplus;
    // More than 0 where anything follows a block.
    let follow = number(message.book, a + 7).max(over.groups).max(over.datas);
    let mut here = c;
    for _ in (0..entries.count).rev() {
        here = store_fields(&message, a, entries.length, room, here);
        if follow != 0 {
            here = store_row(m, a, depth, over.groups, room, here);
            here = store_datas(m, a, over.datas, room, here);
        }
    }
    here
}

// The groups of the block at a and then surplus ones, `depth` more levels being left.
#[cycle(store_entries_store_row)]
fn store_row(
    m: &Message,
    a: usize,
    depth: usize,
    surplus: usize,
    room: &mut [u64],
    c: Cursor,
) -> Cursor
    requires block_at { BlockAt m.now.book.now depth a × Lent m.now.octets.now c.at }
    requires room { Room (groups_print m.now.book.now depth m.now.octets.now m.now.version (inner_at m.now.book.now depth a) surplus
        c.at) c.n (length room.old) }
    ensures stored { Stored (groups_print m.now.book.now depth m.now.octets.now m.now.version (inner_at m.now.book.now depth a) surplus
        c.at) c.n room.old result.at result.n room.new }
    ensures at_in_bounds { result.at ≤ length m.now.octets.now }
{
    let p = m.book;
    let mut g = number(p, a + 9);
    let mut here = c;
    for left in (1..=number(p, a + 4)).rev() {
        prepared::open_row(p, g, left, depth);
        let block = g;
        g = number(p, block + 8);
        if m.version < number(p, block + 1) {
            here = store_answer(Answer::Absent, here.at, room, here.n);
            continue;
        }
        let entries = counts::entries_of(m, block, depth - 1, here.at);
        let count = Answer::Group(entries.count as u64);
        let start = here.at + prepared::dimension_size(p);
        here = store_answer(count, start, room, here.n);
        here = store_entries(m, block, depth - 1, entries, room, here);
    }
    Cursor {
        at: pass_groups(m, depth, surplus, here.at),
        n: here.n,
    }
}
