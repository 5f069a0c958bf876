// Judges a listing by a prepared book, record by record: the octets of the message that it gives, or the refusal 51 to
// 54 at the first record at fault.
#![tactic(auto)]

ghost use Rattle.std.specs.Prelude.{◌≡◌, ◌+◌, ◌*◌, ◌^◌, ◌<◌, ◌≤◌, true, length};
ghost use Rattle.layout.specs.Operations.{checked, told};
ghost use Rattle.layout.specs.Writing.{is_group, is_null, is_number, judge_array, judge_datas, judge_field, judge_fields};
ghost use Rattle.layout.specs.Writing.{judge_groups, judge_listing, judge_number, judge_octets, judge_text, number_fits};
ghost use Rattle.layout.specs.Writing.{second, text_fits, third};
ghost use Rattle.prepared.specs.Books.{template_at};
ghost use Rattle.prepared.specs.Names.{has_lists};
ghost use Rattle.prepared.specs.Positions.{BlockAt, IsBlock, IsField, field_at, inner_at, is_counted, shape_at};
ghost use Rattle.judges.specs.Judges.{capped, datas_end, entries_at, fields_end, judged};
ghost use Rattle.judges.specs.Judges.{limit, listing_end, octets_end, row_end};

use layout::{Reason, Refusal, refuse};
use prepared::{number, value};
use records::{Kind, Listing};

// What judging comes to: the number of the next record and the octets of what was judged, which stop at LIMIT.
#[derive(Clone, Copy)]
pub struct Judged {
    pub next: usize,
    pub length: usize,
}

// One more than a message may have.
const LIMIT: usize = 65536;

// So many octets and n more.
fn plus(length: usize, n: usize) -> usize
    requires { length ≤ limit }
    ensures { result ≡ capped (length + n) }
{
    length.saturating_add(n).min(LIMIT)
}

// Octets of the pool: how many they are.
#[tactic(auto, using(crate::proofs::Steps::steps), unfolding(layout::specs::Writing::judge_octets, layout::specs::Writing::span_of))]
fn judge_octets(l: &Listing, i: usize) -> Result<usize, Refusal>
    ensures { result ≡ told octets_end (judge_octets l.now.numbers.now l.now.pool.now true i) }
{
    if !(l.has(i) && l.is(i, Kind::Octets)) {
        return refuse(Reason::RecordWrong, i);
    }
    let start = l.second(i);
    let len = l.third(i);
    let end = l.pool.len() as u64;
    if end < start || end - start < len {
        return refuse(Reason::OctetsWrong, i);
    }
    Ok(len as usize)
}

// Whether record i is there and is a number or null.
#[tactic(auto, using(crate::proofs::Steps::steps))]
fn is_number(l: &Listing, i: usize) -> bool
    ensures { result ≡ is_number l.now.numbers.now i }
{
    l.has(i)
        && l.third(i) == 0
        && (l.is(i, Kind::Number) || l.is(i, Kind::Null) && l.second(i) == 0)
}

// Whether the number or null that record i is fits the field at f, whose table is at t: null an optional field, and a
// number one whose least it is no farther from than the greatest is, and whose list, if any, has it. `listed` is
// whether the book has lists.
#[tactic(auto, using(crate::proofs::Steps::steps))]
fn number_fits(l: &Listing, f: usize, t: usize, listed: bool, i: usize) -> bool
    requires { IsField l.now.book.now f t × (listed ≡ has_lists l.now.book.now) × (3 * i + 3 ≤ length l.now.numbers.now) }
    ensures { result ≡ number_fits l.now.numbers.now (field_at l.now.book.now f) i }
{
    let p = l.book;
    if l.is(i, Kind::Null) {
        return number(p, f + 4) == 1;
    }
    let x = l.second(i);
    if value(p, t + 2) < x.wrapping_sub(value(p, t + 1)) {
        return false;
    }
    if !listed {
        return true;
    }
    let list = number(p, t + 5);
    list == 0 || names::has(p, list, x)
}

// A number or null for the field at f, whose table is at t.
#[tactic(auto, using(crate::proofs::Steps::steps), unfolding(layout::specs::Writing::judge_number))]
fn judge_number(l: &Listing, f: usize, t: usize, listed: bool, i: usize) -> Result<(), Refusal>
    requires { IsField l.now.book.now f t × (listed ≡ has_lists l.now.book.now) }
    ensures { result ≡ checked (judge_number l.now.numbers.now (field_at l.now.book.now f) i) }
{
    if !is_number(l, i) {
        return refuse(Reason::RecordWrong, i);
    }
    if !number_fits(l, f, t, listed, i) {
        return refuse(Reason::ValueWrong, i);
    }
    Ok(())
}

// Whether record i is there and is null.
#[tactic(auto, using(crate::proofs::Steps::steps))]
fn is_null(l: &Listing, i: usize) -> bool
    ensures { result ≡ is_null l.now.numbers.now i }
{
    l.has(i) && l.is(i, Kind::Null) && l.second(i) == 0 && l.third(i) == 0
}

// Whether the octets of the pool that record i is fit the array of char at f: no more than it has, no NUL among them,
// and some where it is optional.
#[tactic(auto, using(crate::proofs::Steps::steps))]
fn text_fits(l: &Listing, f: usize, i: usize) -> bool
    requires { (f + 7 ≤ length l.now.book.now) × (3 * i + 3 ≤ length l.now.numbers.now)
        × (second l.now.numbers.now i + third l.now.numbers.now i ≤ length l.now.pool.now) }
    ensures { result ≡ text_fits l.now.numbers.now l.now.pool.now (field_at l.now.book.now f) i }
{
    let p = l.book;
    let start = l.second(i) as usize;
    let len = l.third(i) as usize;
    if number(p, f + 2) < len || !texts::is_text(l.pool, start, len) {
        return false;
    }
    number(p, f + 4) != 1 || len != 0
}

// Text or null for the array of char at f.
#[tactic(auto, using(crate::proofs::Judging::texts))]
fn judge_text(l: &Listing, f: usize, i: usize) -> Result<(), Refusal>
    requires { f + 7 ≤ length l.now.book.now }
    ensures { result ≡ checked (judge_text l.now.numbers.now l.now.pool.now (field_at l.now.book.now f) i) }
{
    if is_null(l, i) {
        if number(l.book, f + 4) == 1 {
            return Ok(());
        }
        return refuse(Reason::ValueWrong, i);
    }
    judge_octets(l, i)?;
    if !text_fits(l, f, i) {
        return refuse(Reason::OctetsWrong, i);
    }
    Ok(())
}

// What the array at f, which has len octets, takes.
#[tactic(auto, using(crate::proofs::Judging::octets), unfolding(layout::specs::Writing::judge_array))]
fn judge_array(l: &Listing, f: usize, len: usize, i: usize) -> Result<(), Refusal>
    requires { (f + 7 ≤ length l.now.book.now) × (len ≡ (field_at l.now.book.now f).length) }
    ensures { result ≡ checked (judge_array l.now.numbers.now l.now.pool.now (field_at l.now.book.now f) i) }
{
    if number(l.book, f + 1) == 0 {
        return judge_text(l, f, i);
    }
    if judge_octets(l, i)? != len {
        return refuse(Reason::OctetsWrong, i);
    }
    Ok(())
}

// The field at f, whose table is at t.
#[tactic(auto, using(crate::proofs::Steps::steps))]
fn judge_field(l: &Listing, f: usize, t: usize, listed: bool, i: usize) -> Result<(), Refusal>
    requires { IsField l.now.book.now f t × (listed ≡ has_lists l.now.book.now) }
    ensures { result ≡ checked (judge_field l.now.numbers.now l.now.pool.now (field_at l.now.book.now f) i) }
{
    let len = number(l.book, f + 2);
    if len <= 1 {
        return judge_number(l, f, t, listed, i);
    }
    judge_array(l, f, len, i)
}

// The fields of the block at a: the record after theirs. Their octets are the block's.
#[tactic(auto, using(crate::proofs::Judging::fields))]
fn judge_fields(l: &Listing, a: usize, start: usize) -> Result<usize, Refusal>
    requires { IsBlock l.now.book.now a }
    ensures { result ≡ told fields_end (judge_fields l.now.numbers.now l.now.pool.now
        (shape_at l.now.book.now a).fields start) }
{
    let p = l.book;
    let listed = prepared::has_lists(p);
    // As in `store`.
    let mut f = a + 12;
    let mut t = number(p, a + 11);
    let mut i = start;
    for _ in (0..number(p, a + 3)).rev() {
        judge_field(l, f, t, listed, i)?;
        f += 7;
        t += 6;
        i += 1;
    }
    Ok(i)
}

// As many data as the block at a has.
#[tactic(auto, using(crate::proofs::Judging::datas))]
fn judge_datas(l: &Listing, a: usize, start: usize) -> Result<Judged, Refusal>
    requires { IsBlock l.now.book.now a }
    ensures { result ≡ judged (datas_end 0) (judge_datas l.now.numbers.now l.now.pool.now
        (shape_at l.now.book.now a).datas start) }
{
    // Carried: worked out of a count, it took a twentieth more instructions where entries have many groups.
    let mut i = start;
    let mut seen = 0;
    for _ in 0..number(l.book, a + 5) {
        let length = judge_octets(l, i)?;
        if 65535 <= length {
            return refuse(Reason::OctetsWrong, i);
        }
        i += 1;
        seen = plus(seen, 2 + length);
    }
    Ok(Judged {
        next: i,
        length: seen,
    })
}

// Whether record i is there and is a group.
#[tactic(auto, using(crate::proofs::Steps::steps))]
fn is_group(l: &Listing, i: usize) -> bool
    ensures { result ≡ is_group l.now.numbers.now i }
{
    l.has(i) && l.is(i, Kind::Group) && l.third(i) == 0
}

// k entries of the block at a, `depth` more levels being left: of each its fields, its groups, its data. The
// octets of the blocks are added at the end, for all entries at once.
#[cycle(judge_entries_judge_row)]
#[tactic(auto, using(crate::proofs::Judging::entries))]
fn judge_entries(
    l: &Listing,
    a: usize,
    depth: usize,
    k: u64,
    start: usize,
) -> Result<Judged, Refusal>
    requires { BlockAt l.now.book.now depth a × (k ≤ 65535) }
    ensures { result ≡ judged (row_end (is_counted l.now.book.now) (shape_at l.now.book.now a)
        (inner_at l.now.book.now depth a) 0)
        (entries_at l.now.book.now depth a l.now.numbers.now l.now.pool.now k start) }
{
    // Taken anew: so its numbers are loaded once, and not after each call.
    let listing = *l;
    let p = listing.book;
    let mut i = start;
    let mut seen = 0;
    for _ in 0..k {
        i = judge_fields(&listing, a, i)?;
        if number(p, a + 7) == 0 {
            continue;
        }
        let row = judge_row(l, a, depth, i)?;
        let datas = judge_datas(&listing, a, row.next)?;
        i = datas.next;
        seen = plus(plus(seen, row.length), datas.length);
    }
    Ok(Judged {
        next: i,
        length: plus(seen, number(p, a + 2) * k as usize),
    })
}

// The groups of the block at a, `depth` more levels being left: of each its dimension and its entries.
#[cycle(judge_entries_judge_row)]
#[tactic(auto, using(crate::proofs::Judging::row))]
fn judge_row(l: &Listing, a: usize, depth: usize, start: usize) -> Result<Judged, Refusal>
    requires { BlockAt l.now.book.now depth a }
    ensures { result ≡ judged (row_end (is_counted l.now.book.now) (shape_at l.now.book.now a)
        (inner_at l.now.book.now depth a) 0)
        (judge_groups l.now.numbers.now l.now.pool.now (inner_at l.now.book.now depth a)
        start) }
{
    let p = l.book;
    let mut g = number(p, a + 9);
    let mut i = start;
    let mut seen = 0;
    for left in (1..=number(p, a + 4)).rev() {
        prepared::open_row(p, g, left, depth);
        if !is_group(l, i) {
            return refuse(Reason::RecordWrong, i);
        }
        let k = l.second(i);
        if 65535 <= k {
            return refuse(Reason::EntriesTooMany, i);
        }
        let entries = judge_entries(l, g, depth - 1, k, i + 1)?;
        i = entries.next;
        seen = plus(plus(seen, prepared::dimension_size(p)), entries.length);
        g = number(p, g + 8);
    }
    Ok(Judged {
        next: i,
        length: seen,
    })
}

// A whole listing by the template whose block stands at a: the octets of the message without its header.
#[tactic(auto, using(crate::proofs::Judging::listing))]
pub fn judge_listing(l: &Listing, a: usize) -> Result<Judged, Refusal>
    requires { BlockAt l.now.book.now 4 a }
    ensures { result ≡ judged (listing_end (is_counted l.now.book.now) (shape_at l.now.book.now a)
        (inner_at l.now.book.now 4 a) l.now.numbers.now) (judge_listing l.now.numbers.now
        l.now.pool.now (template_at l.now.book.now a)) }
{
    let root = judge_entries(l, a, 4, 1, 0)?;
    let n = l.numbers.len();
    if n / 3 != root.next || n % 3 != 0 {
        return refuse(Reason::RecordWrong, root.next);
    }
    Ok(root)
}
