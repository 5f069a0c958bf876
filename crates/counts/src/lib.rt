// A block's groups and data as a message counts them: how many are present at the message's version, and how many more
// it has. And a group that the book knows, up to its entries.
#![tactic(auto)]

ghost use Rattle.std.specs.Prelude.{◌≡◌, true, ◌+◌, ◌<◌, ◌≤◌, length, Ok};
ghost use Rattle.layout.specs.Book.{data_sinces, group_sinces, need, present};
ghost use Rattle.layout.specs.Result.{done, when◌then◌else◌};
ghost use Rattle.layout.specs.Operations.{told};
ghost use Rattle.layout.specs.Message.{dimension_size};
ghost use Rattle.prepared.specs.Positions.{BlockAt, IsBlock, inner_at, is_counted, shape_at, version_at};
ghost use Rattle.counts.specs.Counts.{left_over, left_over_of};
ghost use Rattle.counts.specs.Groups.{HasOwn, IsOpen, coded, counts_at, none_over, open_at};

use layout::{Reason, Refusal, refuse};
use prepared::{Message, number};

// How many data of the block at a are present at a version before the book's.
#[tactic(auto, using(crate::proofs::Counts::seen))]
fn older_datas(p: &[u64], a: usize, v: usize) -> usize
    requires { IsBlock p.now a }
    ensures { result ≡ present v (data_sinces (shape_at p.now a).datas) }
{
    let from = number(p, a + 10);
    let mut seen = 0;
    // By the library's `filter` and `count`, and another form of the walk over data beside it, checking an older version
    // took 13 in 100 more instructions.
    for i in 0..number(p, a + 5) {
        if number(p, from + 2 * i + 1) <= v {
            seen += 1;
        }
    }
    seen
}

// How many groups of the block at a are present at a version before the book's, `depth` more levels being left.
#[tactic(auto, using(crate::proofs::Counts::seen))]
fn older_groups(p: &[u64], a: usize, depth: usize, v: usize) -> usize
    requires { BlockAt p.now depth a }
    ensures { result ≡ present v (group_sinces (inner_at p.now depth a)) }
{
    let mut g = number(p, a + 9);
    let mut seen = 0;
    for left in (1..=number(p, a + 4)).rev() {
        prepared::open_row(p, g, left, depth);
        if number(p, g + 1) <= v {
            seen += 1;
        }
        g = number(p, g + 8);
    }
    seen
}

// How many data of the block at a are present at version v: from the book's version on, all.
fn datas_here(p: &[u64], a: usize, v: usize) -> usize
    requires { IsBlock p.now a }
    ensures { result ≡ present v (data_sinces (shape_at p.now a).datas) }
{
    if number(p, 1) <= v {
        return number(p, a + 5);
    }
    older_datas(p, a, v)
}

#[tactic(auto, using(prepared::proofs::Open::groups_here))]
fn groups_here(p: &[u64], a: usize, depth: usize, v: usize) -> usize
    requires { BlockAt p.now depth a }
    ensures { result ≡ present v (group_sinces (inner_at p.now depth a)) }
{
    if number(p, 1) <= v {
        return number(p, a + 4);
    }
    older_groups(p, a, depth, v)
}

// A message counts n of which `here` are present: how many more there are, if its count is good. Only at a version later
// than the book's may there be more.
#[tactic(auto, using(wire::proofs::Steps::steps), unfolding(crate::specs::Counts::left_over_of))]
fn over(p: &[u64], v: usize, n: usize, here: usize) -> Option<usize>
    requires { 1 < length p.now }
    ensures { result ≡ left_over_of (version_at p.now) v n here }
{
    if n == here || (number(p, 1) < v && here < n) {
        return Some(n - here);
    }
    None
}

// Of the data of the block at a n are counted.
#[tactic(auto, using(crate::proofs::Counts::counted), unfolding(layout::specs::Message::count_good, crate::specs::Counts::left_over, crate::specs::Counts::left_over_of))]
pub fn datas_over(p: &[u64], a: usize, v: usize, n: usize) -> Option<usize>
    requires { IsBlock p.now a }
    ensures { result ≡ left_over (version_at p.now) v (data_sinces (shape_at p.now a).datas) n }
{
    over(p, v, n, datas_here(p, a, v))
}

// Of its groups n are counted.
#[tactic(auto, using(crate::proofs::Counts::counted), unfolding(layout::specs::Message::count_good, crate::specs::Counts::left_over, crate::specs::Counts::left_over_of))]
pub fn groups_over(p: &[u64], a: usize, depth: usize, v: usize, n: usize) -> Option<usize>
    requires { BlockAt p.now depth a }
    ensures { result ≡ left_over (version_at p.now) v (group_sinces (inner_at p.now depth a)) n }
{
    over(p, v, n, groups_here(p, a, depth, v))
}

// ---- a group that the book knows

// How many groups and data of an entry are surplus.
#[derive(Clone, Copy)]
pub struct Surplus {
    pub groups: usize,
    pub datas: usize,
}

// The entries of a group: how many octets each block has, how many they are, and what of each is surplus.
#[derive(Clone, Copy)]
pub struct Entries {
    pub length: usize,
    pub count: usize,
    pub surplus: Surplus,
}

// Whether the dimension at `at` has the book's own counts for the block at a, at the book's version or a later one:
// most have. They are compared as they stand, so that the order is not asked.
#[tactic(auto, using(crate::proofs::Groups::own))]
fn has_own(m: &Message, a: usize, at: usize) -> bool
    requires { IsBlock m.now.book.now a × (at + 8 ≤ length m.now.octets.now) }
    ensures { result ≡ true → HasOwn m.now.book.now a m.now.octets.now m.now.version at }
{
    number(m.book, 1) <= m.version && wire::octets_at(m.octets, at + 4) == number(m.book, a + 7)
}

// What the counts of the dimension at `at` say of the group whose block is at a, or why they are refused.
#[inline(never)]
#[tactic(auto, using(wire::proofs::Steps::steps), unfolding(crate::proofs::Groups::openings, crate::specs::Counts::left_over))]
fn surplus_at(m: &Message, a: usize, depth: usize, at: usize) -> Result<Surplus, Reason>
    requires { BlockAt m.now.book.now depth a × (length m.now.octets.now ≤ 65535) × (at + 8 ≤ length m.now.octets.now) }
    ensures { result ≡ coded (counts_at m.now.book.now depth a m.now.octets.now m.now.version at) }
{
    // The two counts, of groups and of data, stand as the two sizes before them do.
    let counts = wire::sizes_at(prepared::is_big(m.book), m.octets, at + 4);
    if !counts.are_whole() {
        return Err(Reason::DimensionNull);
    }
    let Some(groups) = groups_over(m.book, a, depth, m.version, counts.length) else {
        return Err(Reason::GroupCountsWrong);
    };
    let Some(datas) = datas_over(m.book, a, m.version, counts.entries) else {
        return Err(Reason::GroupCountsWrong);
    };
    Ok(Surplus { groups, datas })
}

// The same of a dimension that may have no counts: then nothing is surplus.
#[tactic(auto, using(crate::proofs::Groups::own))]
fn surplus_in(m: &Message, a: usize, depth: usize, at: usize) -> Result<Surplus, Reason>
    requires { BlockAt m.now.book.now depth a × (length m.now.octets.now ≤ 65535)
        × (at + dimension_size (is_counted m.now.book.now) ≤ length m.now.octets.now) }
    ensures { result ≡ (when is_counted m.now.book.now then coded (counts_at m.now.book.now depth a
        m.now.octets.now m.now.version at) else Ok none_over) }
{
    if prepared::is_counted(m.book) && !has_own(m, a, at) {
        return surplus_at(m, a, depth, at);
    }
    Ok(Surplus {
        groups: 0,
        datas: 0,
    })
}

// The group whose block is at a, up to its entries, by its dimension at `at`: 16, 17, 18 and 21. `least` is the need of
// its block.
#[inline(always)]
#[tactic(auto, using(wire::proofs::Steps::steps), unfolding(crate::proofs::Groups::openings, layout::specs::Message::count_good))]
pub fn open_group(
    m: &Message,
    a: usize,
    depth: usize,
    least: usize,
    at: usize,
) -> Result<Entries, Refusal>
    requires { BlockAt m.now.book.now depth a × (length m.now.octets.now ≤ 65535) × (at ≤ length m.now.octets.now)
        × (least ≡ need m.now.version (shape_at m.now.book.now a)) }
    ensures { result ≡ told (λ e. e) (open_at m.now.book.now depth a m.now.octets.now m.now.version at) }
{
    if m.octets.len() - at < prepared::dimension_size(m.book) {
        return refuse(Reason::PastTheEnd, at);
    }
    let sizes = wire::sizes_at(prepared::is_big(m.book), m.octets, at);
    if !sizes.are_whole() {
        return refuse(Reason::DimensionNull, at);
    }
    match surplus_in(m, a, depth, at) {
        Err(Reason::DimensionNull) => refuse(Reason::DimensionNull, at),
        _ if sizes.length < least => refuse(Reason::GroupBlockShort, at),
        Err(reason) => refuse(reason, at),
        Ok(surplus) => Ok(Entries {
            length: sizes.length,
            count: sizes.entries,
            surplus,
        }),
    }
}

// The same of a group that was accepted: nothing is tested again.
#[tactic(auto, using(wire::proofs::Steps::steps), unfolding(crate::proofs::Groups::openings, layout::specs::Message::count_good))]
pub fn entries_of(m: &Message, a: usize, depth: usize, at: usize) -> Entries
    requires { BlockAt m.now.book.now depth a × (length m.now.octets.now ≤ 65535)
        × IsOpen m.now.book.now depth a m.now.octets.now m.now.version at }
    ensures { open_at m.now.book.now depth a m.now.octets.now m.now.version at ≡ done result }
{
    let sizes = wire::sizes_at(prepared::is_big(m.book), m.octets, at);
    let surplus = surplus_in(m, a, depth, at).unwrap();
    Entries {
        length: sizes.length,
        count: sizes.entries,
        surplus,
    }
}
