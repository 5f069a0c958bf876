// What stands at one place of a message. The checking walk passes the place once, along a path of steps, and tells
// where the entry starts that the path leads to; the element is read of that entry afterwards.
#![tactic(auto)]

ghost use Rattle.std.specs.Prelude.{◌≡◌, true, ◌+◌, ◌-◌, ◌*◌, ◌≤◌, ◌<◌, length};
ghost use Rattle.layout.specs.BookRules.{parse_datas};
ghost use Rattle.layout.specs.Message.{read_datas, read_field};
ghost use Rattle.layout.specs.Reading.{has_element, steps_of};
ghost use Rattle.fields.specs.Readable.{Readable};
ghost use Rattle.prepared.specs.Positions.{BlockAt, IsBlock, Opened, field_at, fields_from, groups_from, inner_at, is_big};
ghost use Rattle.prepared.specs.Positions.{many_datas, many_fields, many_groups, shape_at, table_from};
ghost use Rattle.layout.specs.Operations.{told};
ghost use Rattle.wire.specs.Walks.{Inside, Lent};
ghost use Rattle.walk.specs.Walks.{Small, row_at};
ghost use Rattle.places.specs.Seeks.{Path, Within, after_entry, entries_sought, entry_at, found_at, group_sought, inner_sought, plain_spot};
ghost use Rattle.places.specs.Seeks.{row_after, row_sought};
ghost use Rattle.places.specs.Elements.{Accepted, Done, block_for, count_of, data_read, datas_read, element_read};
ghost use Rattle.places.specs.Elements.{entry_read, group_read, number_of};

use counts::Entries;
use layout::{Answer, Element, Reason, Refusal, refuse};
use prepared::{Message, number};
use walk::{Walked, pass_row, walk_datas, walk_row};

// Where an entry stands: where it starts, how many octets its block has, and how many surplus groups follow its own.
#[derive(Clone, Copy)]
pub struct Spot {
    pub start: usize,
    pub length: usize,
    pub groups: usize,
}

// What the walk past a row along a path comes to: where the row ends, and where the entry stands that the path leads
// to, if there is one.
#[derive(Clone, Copy)]
pub struct Row {
    pub next: usize,
    pub spot: Option<Spot>,
}

// A row that was walked, with what was found in it or before.
fn found_at(row: Walked, spot: Option<Spot>) -> Row
    ensures { result ≡ found_at row spot }
{
    Row {
        next: row.next,
        spot,
    }
}

// Where group k of the block at a stands.
#[tactic(auto, using(crate::proofs::Places::row_after_none, crate::proofs::Places::row_after_next))]
fn group_place(p: &[u64], a: usize, depth: usize, k: usize) -> usize
    requires { BlockAt p.now depth a × (k < many_groups p.now a) }
    ensures place { result ≡ row_after p.now k (groups_from p.now a) }
    ensures opened { Opened p.now depth (many_groups p.now a - k) result }
{
    let n = number(p, a + 4);
    let mut group = number(p, a + 9);
    for i in 0..k {
        prepared::open_row(p, group, n - i, depth);
        group = number(p, group + 8);
    }
    prepared::open_row(p, group, n - k, depth);
    group
}

// k entries of l octets that nothing follows, of which the path leads to entry e, and no further if this is its last
// step.
fn plain_row(l: usize, k: usize, start: usize, e: usize, last: bool) -> Row
    requires { start + l * k ≤ 65535 }
    ensures { result ≡ record { next = start + l * k; spot = plain_spot l k start e last } }
{
    let mut spot = None;
    if e < k && last {
        spot = Some(Spot {
            start: start + l * e,
            length: l,
            groups: 0,
        });
    }
    Row {
        next: start + l * k,
        spot,
    }
}

// The octet after the entry of the block at a that starts at `at`.
#[inline(always)]
#[tactic(auto, using(crate::proofs::Seeks::seeks), unfolding(walk::specs::Walks::Bounded, wire::specs::Walks::Inside))]
fn pass_entry(
    m: &Message,
    a: usize,
    depth: usize,
    entries: Entries,
    at: usize,
) -> Result<usize, Refusal>
    requires { BlockAt m.now.book.now depth a × Lent m.now.octets.now at × Small entries }
    ensures value { result ≡ told after_entry (entry_at m.now.book.now depth a m.now.octets.now m.now.version entries at) }
    ensures inside { Inside (length m.now.octets.now) at result }
{
    let p = m.book;
    if m.octets.len() - at < entries.length {
        return refuse(Reason::PastTheEnd, at);
    }
    let over = entries.surplus;
    let start = at + entries.length;
    let row = pass_row(
        m,
        number(p, a + 9),
        number(p, a + 4),
        depth,
        over.groups,
        start,
    )?;
    let big = prepared::is_big(p);
    walk_datas(
        m,
        number(p, a + 10),
        number(p, a + 5),
        over.datas,
        big,
        row.next,
    )
}

// The row of the entry of the block at a that `entry` is the spot of, along the path from number i on.
#[cycle(inner_row_seek_entries_seek_group_seek_row)]
#[tactic(auto, using(crate::proofs::Seeks::seeks), unfolding(crate::specs::Seeks::Within, walk::specs::Walks::Bounded))]
fn inner_row(
    m: &Message,
    a: usize,
    depth: usize,
    entry: Spot,
    path: &&[u64],
    i: usize,
) -> Result<Row, Refusal>
    requires { BlockAt m.now.book.now depth a × Lent m.now.octets.now (entry.start + entry.length)
        × (entry.groups ≤ 65535) × Path path.now.now i }
    ensures value { result ≡ inner_sought m.now.book.now depth a m.now.octets.now m.now.version path.now.now i entry }
    ensures within { Within m.now.octets.now result }
{
    let p = m.book;
    let at = entry.start + entry.length;
    if i < path.len() {
        return seek_row(m, a, depth, entry.groups, at, path, i);
    }
    let row = pass_row(
        m,
        number(p, a + 9),
        number(p, a + 4),
        depth,
        entry.groups,
        at,
    )?;
    Ok(found_at(row, Some(entry)))
}

// The entries of the block at a, the step at number i leading to one of them.
#[cycle(inner_row_seek_entries_seek_group_seek_row)]
#[tactic(auto, using(crate::proofs::Seeks::entries), unfolding(crate::specs::Seeks::Within, wire::specs::Walks::Inside))]
fn seek_entries(
    m: &Message,
    a: usize,
    depth: usize,
    entries: Entries,
    start: usize,
    path: &&[u64],
    i: usize,
) -> Result<Row, Refusal>
    requires { BlockAt m.now.book.now depth a × Lent m.now.octets.now start × Small entries × Path path.now.now i
        × (i < length path.now.now) }
    ensures value { result ≡ entries_sought m.now.book.now depth a m.now.octets.now m.now.version path.now.now
        i entries start }
    ensures within { Within m.now.octets.now result }
{
    let p = m.book;
    let t = m.octets;
    let steps = *path;
    let l = entries.length;
    let k = entries.count;
    let over = entries.surplus;
    let e = number(steps, i + 1);
    if number(p, a + 7) + over.groups + over.datas == 0 {
        if l * k <= t.len() - start {
            return Ok(plain_row(l, k, start, e, steps.len() == i + 2));
        }
    }
    let mut at = start;
    for _ in 0..e.min(k) {
        at = pass_entry(m, a, depth, entries, at)?;
    }
    if k <= e {
        return Ok(Row {
            next: at,
            spot: None,
        });
    }
    if t.len() - at < l {
        return refuse(Reason::PastTheEnd, at);
    }
    let entry = Spot {
        start: at,
        length: l,
        groups: over.groups,
    };
    let row = inner_row(m, a, depth, entry, path, i + 2)?;
    let big = prepared::is_big(p);
    at = walk_datas(
        m,
        number(p, a + 10),
        number(p, a + 5),
        over.datas,
        big,
        row.next,
    )?;
    for _ in e + 1..k {
        at = pass_entry(m, a, depth, entries, at)?;
    }
    Ok(Row {
        next: at,
        spot: row.spot,
    })
}

// n groups in a row at a, the step at number i leading to the first of them.
#[cycle(inner_row_seek_entries_seek_group_seek_row)]
#[tactic(auto, using(crate::proofs::Seeks::seeks), unfolding(crate::specs::Seeks::Within, walk::specs::Walks::Bounded))]
fn seek_group(
    m: &Message,
    a: usize,
    n: usize,
    depth: usize,
    surplus: usize,
    at: usize,
    path: &&[u64],
    i: usize,
) -> Result<Row, Refusal>
    requires { Opened m.now.book.now depth n a × (0 < n) × (n ≤ 16) × Lent m.now.octets.now at × (surplus ≤ 65535)
        × Path path.now.now i × (i < length path.now.now) }
    ensures value { result ≡ group_sought m.now.book.now depth a m.now.octets.now m.now.version path.now.now i
        n surplus at }
    ensures within { Within m.now.octets.now result }
{
    let p = m.book;
    let after = number(p, a + 8);
    if m.version < number(p, a + 1) {
        let row = pass_row(m, after, n - 1, depth, surplus, at)?;
        return Ok(found_at(row, None));
    }
    let need = prepared::need(p, a, m.version);
    let entries = counts::open_group(m, a, depth - 1, need, at)?;
    let start = at + prepared::dimension_size(p);
    let inside = seek_entries(m, a, depth - 1, entries, start, path, i)?;
    let row = pass_row(m, after, n - 1, depth, surplus, inside.next)?;
    Ok(found_at(row, inside.spot))
}

// The row of the block at a, along the path from number i on.
#[cycle(inner_row_seek_entries_seek_group_seek_row)]
#[tactic(auto, using(crate::proofs::Seeks::seeks), unfolding(crate::specs::Seeks::Within, walk::specs::Walks::Bounded))]
pub fn seek_row(
    m: &Message,
    a: usize,
    depth: usize,
    surplus: usize,
    start: usize,
    path: &&[u64],
    i: usize,
) -> Result<Row, Refusal>
    requires { BlockAt m.now.book.now depth a × Lent m.now.octets.now start × (surplus ≤ 65535)
        × Path path.now.now i × (i < length path.now.now) }
    ensures value { result ≡ row_sought m.now.book.now depth a m.now.octets.now m.now.version path.now.now i
        surplus start }
    ensures within { Within m.now.octets.now result }
{
    let p = m.book;
    let g = number(*path, i);
    let first = number(p, a + 9);
    let n = number(p, a + 4);
    if n <= g {
        // A second caller of walk_row: so pass_row's test is joined to its callers, and not the loop to pass_row.
        let row = walk_row(m, first, n, depth, surplus, start)?;
        return Ok(found_at(row, None));
    }
    let passed = pass_row(m, first, g, depth, 0, start)?;
    let group = group_place(p, a, depth, g);
    seek_group(m, group, n - g, depth, surplus, passed.next, path, i)
}

// ---- whether the template has the place

fn number_of(x: Element) -> usize
    ensures { result ≡ number_of x }
{
    match x {
        Element::Field(k) => k,
        Element::Group(k) => k,
        Element::Data(k) => k,
    }
}

// How many elements of this kind the block at a has.
fn count_of(p: &[u64], a: usize, x: Element) -> usize
    requires { IsBlock p.now a }
    ensures { result ≡ count_of p.now a x }
{
    match x {
        Element::Field(_) => number(p, a + 3),
        Element::Group(_) => number(p, a + 4),
        Element::Data(_) => number(p, a + 5),
    }
}

// The block that the steps lead to from the template's block, if the template has the place.
pub fn find_place(p: &[u64], root: usize, steps: &[u64], x: Element) -> Option<usize>
    requires { BlockAt p.now 4 root × Path steps.now 0 }
    ensures { result ≡ block_for p.now 4 root (steps_of steps.now) x }
{
    let mut a = root;
    for i in 0..steps.len() / 2 {
        let g = number(steps, 2 * i);
        if number(p, a + 4) <= g {
            return None;
        }
        a = group_place(p, a, 4 - i, g);
    }
    if number_of(x) < count_of(p, a, x) {
        return Some(a);
    }
    None
}

// ---- the element of an entry that was accepted

// Field k of the block at a, which starts at `start`.
fn field_of(m: &Message, a: usize, start: usize, k: usize) -> Answer
    requires { IsBlock m.now.book.now a × (k < many_fields m.now.book.now a)
        × Readable m.now.book.now (fields_from m.now.book.now a + 7 * k) (table_from m.now.book.now a + 6 * k)
        m.now.octets.now m.now.version start }
    ensures { result ≡ read_field (is_big m.now.book.now) m.now.octets.now m.now.version start
        (field_at m.now.book.now (fields_from m.now.book.now a + 7 * k)) }
{
    let table = number(m.book, a + 11) + 6 * k;
    fields::read_field(m, a + 12 + 7 * k, table, start)
}

// Group k of the block at a, whose groups start at `start`.
#[tactic(auto, using(crate::proofs::Places::first_groups, prepared::proofs::Open::head_there))]
fn group_at(m: &Message, a: usize, depth: usize, start: usize, k: usize) -> Answer
    requires { BlockAt m.now.book.now depth a × Lent m.now.octets.now start × (k < many_groups m.now.book.now a)
        × Done (row_at m.now.book.now depth (many_groups m.now.book.now a) (groups_from m.now.book.now a) m.now.octets.now
        m.now.version 0 start) }
    ensures { result ≡ group_read k (row_at m.now.book.now depth (many_groups m.now.book.now a)
        (groups_from m.now.book.now a) m.now.octets.now m.now.version 0 start) }
{
    let p = m.book;
    let passed = pass_row(m, number(p, a + 9), k, depth, 0, start).unwrap();
    let group = group_place(p, a, depth, k);
    if m.version < number(p, group + 1) {
        return Answer::Absent;
    }
    let sizes = wire::sizes_at(prepared::is_big(p), m.octets, passed.next);
    Answer::Group(sizes.entries as u64)
}

// Data k of the n data at place `from`, which start at `start`.
fn data_at(m: &Message, from: usize, n: usize, big: bool, start: usize, k: usize) -> Answer
    requires { (from + 2 * n ≤ length m.now.book.now) × (length m.now.book.now ≤ 65535) × (n ≤ 16) × (k < n)
        × Lent m.now.octets.now start
        × Done (read_datas big m.now.octets.now m.now.version (parse_datas m.now.book.now n from) 0 start) }
    ensures { result ≡ data_read k (read_datas big m.now.octets.now m.now.version (parse_datas m.now.book.now n from) 0
        start) }
{
    let next = walk_datas(m, from, k, 0, big, start).unwrap();
    if m.version < number(m.book, from + 2 * k + 1) {
        return Answer::Absent;
    }
    Answer::Octets {
        start: next + 2,
        len: wire::data_length(big, m.octets, next),
    }
}

// Data k of the block at a, whose groups start at `start` and have `surplus` more after them.
fn data_after(m: &Message, a: usize, depth: usize, start: usize, surplus: usize, k: usize) -> Answer
    requires { BlockAt m.now.book.now depth a × Lent m.now.octets.now start × (surplus ≤ 65535)
        × (k < many_datas m.now.book.now a) × Done (datas_read m.now.book.now depth a m.now.octets.now m.now.version surplus
        start) }
    ensures { result ≡ data_read k (datas_read m.now.book.now depth a m.now.octets.now m.now.version surplus start) }
{
    let p = m.book;
    let big = prepared::is_big(p);
    let row = pass_row(m, number(p, a + 9), number(p, a + 4), depth, surplus, start).unwrap();
    data_at(m, number(p, a + 10), number(p, a + 5), big, row.next, k)
}

// The element x of an entry of the block at a that was accepted and stands at the spot. It tests nothing again.
pub fn element_at(m: &Message, a: usize, depth: usize, spot: Spot, x: Element) -> Answer
    requires { Accepted m.now.book.now depth a m.now.octets.now m.now.version spot
        × (has_element x (shape_at m.now.book.now a) (inner_at m.now.book.now depth a) ≡ true) }
    ensures { result ≡ element_read x
        (entry_read m.now.book.now depth a m.now.octets.now m.now.version spot) }
{
    let start = spot.start + spot.length;
    match x {
        Element::Field(k) => field_of(m, a, spot.start, k),
        Element::Group(k) => group_at(m, a, depth, start, k),
        Element::Data(k) => data_after(m, a, depth, start, spot.groups, k),
    }
}
