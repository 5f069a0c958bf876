// What a message has that the book does not know: groups and data that a newer version added. They are passed, each
// group by its own dimension, depth first.
#![tactic(auto)]

ghost use Rattle.std.specs.Prelude.{true, ◌≡◌, ◌+◌, ◌≤◌, length};
ghost use Rattle.layout.specs.Operations.{told};
ghost use Rattle.layout.specs.Message.{dimension_size, in_row, read_dimension, skip_datas, skip_entry, skip_group};
ghost use Rattle.wire.specs.Walks.{Inside};
ghost use Rattle.surplus.specs.Surplus.{Whole, dimension_of, passed, sizes_of, skip_end};

use layout::{Reason, Refusal, refuse};

// A message's octets, and what its book says of the numbers in them: whether they are big-endian, and whether a
// dimension has the counts of an entry's groups and data.
#[derive(Clone, Copy)]
pub struct Sent<'a> {
    pub octets: &'a [u8],
    pub big: bool,
    pub counted: bool,
}

// The octet after n surplus data.
#[tactic(auto, using(crate::proofs::Rows::rows), unfolding(wire::specs::Walks::Inside))]
pub fn skip_datas(big: bool, m: &[u8], n: usize, start: usize) -> Result<usize, Refusal>
    requires { start ≤ length m.now }
    ensures value { result ≡ told skip_end (skip_datas big m.now n start) }
    ensures inside { Inside (length m.now) start result }
{
    let mut at = start;
    for _ in 0..n {
        at = wire::read_data(big, m, at)?;
    }
    Ok(at)
}

// The numbers of a dimension: the octets of a block, and the entries; the groups and the data of an entry, 0 where it
// does not count them.
#[derive(Clone, Copy)]
pub struct Sizes {
    pub length: usize,
    pub entries: usize,
    pub groups: usize,
    pub datas: usize,
}

// How many octets a dimension has.
fn size_of(counted: bool) -> usize
    ensures { result ≡ dimension_size counted }
{
    if counted { 8 } else { 4 }
}

// The dimension at `at`, with the counts behind its first two numbers.
#[tactic(auto, using(wire::proofs::Steps::steps), unfolding(layout::specs::Message::read_dimension, crate::specs::Surplus::Whole))]
fn counted_at(big: bool, m: &[u8], at: usize) -> Result<Sizes, Refusal>
    requires { at ≤ length m.now }
    ensures value { result ≡ told sizes_of (read_dimension true big m.now at) }
    ensures whole { Whole (length m.now) (at + 8) result }
{
    if m.len() - at < 8 {
        return refuse(Reason::PastTheEnd, at);
    }
    let sizes = wire::sizes_at(big, m, at);
    let counts = wire::sizes_at(big, m, at + 4);
    if sizes.are_whole() && counts.are_whole() {
        return Ok(Sizes {
            length: sizes.length,
            entries: sizes.entries,
            groups: counts.length,
            datas: counts.entries,
        });
    }
    refuse(Reason::DimensionNull, at)
}

// The dimension at `at`: 16 and 17.
#[tactic(auto, using(wire::proofs::Steps::steps), unfolding(layout::specs::Message::read_dimension, crate::specs::Surplus::Whole))]
fn read_dimension(sent: &Sent, at: usize) -> Result<Sizes, Refusal>
    requires { at ≤ length sent.now.octets.now }
    ensures value { result ≡ told sizes_of (read_dimension sent.now.counted sent.now.big sent.now.octets.now at) }
    ensures whole { Whole (length sent.now.octets.now) (at + dimension_size sent.now.counted) result }
{
    let m = sent.octets;
    if sent.counted {
        return counted_at(sent.big, m, at);
    }
    if m.len() - at < 4 {
        return refuse(Reason::PastTheEnd, at);
    }
    let sizes = wire::sizes_at(sent.big, m, at);
    if sizes.are_whole() {
        return Ok(Sizes {
            length: sizes.length,
            entries: sizes.entries,
            groups: 0,
            datas: 0,
        });
    }
    refuse(Reason::DimensionNull, at)
}

// ---- surplus groups, `levels` levels being left

// The entries of a surplus group that has this dimension at `place`.
#[cycle(skip_entries_skip_group_skip_row)]
#[tactic(auto, using(crate::proofs::Rows::rows), unfolding(layout::specs::Message::skip_entry, wire::specs::Walks::Inside))]
fn skip_entries(
    sent: &Sent,
    levels: usize,
    sizes: Sizes,
    place: usize,
    start: usize,
) -> Result<usize, Refusal>
    requires { start ≤ length sent.now.octets.now }
    ensures value { result ≡ told skip_end (in_row sizes.entries (skip_entry sent.now.big sent.now.octets.now
        (skip_group sent.now.counted sent.now.big sent.now.octets.now levels) (dimension_of sizes) place) start) }
    ensures inside { Inside (length sent.now.octets.now) start result }
{
    let m = sent.octets;
    // Read before the loop, which counts down: so the compiler makes a loop of its own for each order.
    let big = sent.big;
    let mut at = start;
    for _ in (0..sizes.entries).rev() {
        if m.len() - at < sizes.length {
            return refuse(Reason::PastTheEnd, place);
        }
        at += sizes.length;
        if 0 < sizes.groups {
            at = skip_row(sent, levels, sizes.groups, at)?;
        }
        at = skip_datas(big, m, sizes.datas, at)?;
    }
    Ok(at)
}

// So many octets from `start` on, of the group whose dimension is at `place`.
#[tactic(auto, using(wire::proofs::Steps::steps), unfolding(wire::specs::Walks::Inside))]
fn pass_octets(m: &[u8], size: usize, place: usize, start: usize) -> Result<usize, Refusal>
    requires { start ≤ length m.now }
    ensures value { result ≡ told skip_end (passed m.now size place start) }
    ensures inside { Inside (length m.now) start result }
{
    if m.len() - start < size {
        return refuse(Reason::PastTheEnd, place);
    }
    Ok(start + size)
}

// One surplus group. Where its entries have neither groups nor data it is passed as block length times entries.
#[cycle(skip_entries_skip_group_skip_row)]
#[tactic(auto, using(crate::proofs::Groups::groups), unfolding(wire::specs::Walks::Inside, crate::specs::Surplus::Whole))]
fn skip_group(sent: &Sent, levels: usize, at: usize) -> Result<usize, Refusal>
    requires { at ≤ length sent.now.octets.now }
    ensures value { result ≡ told skip_end (skip_group sent.now.counted sent.now.big sent.now.octets.now levels at) }
    ensures inside { Inside (length sent.now.octets.now) at result }
{
    let sizes = read_dimension(sent, at)?;
    if levels == 0 {
        return refuse(Reason::GroupTooDeep, at);
    }
    let start = at + size_of(sent.counted);
    if sizes.groups + sizes.datas == 0 {
        return pass_octets(sent.octets, sizes.length * sizes.entries, at, start);
    }
    skip_entries(sent, levels - 1, sizes, at, start)
}

// n surplus groups.
#[cycle(skip_entries_skip_group_skip_row)]
#[tactic(auto, using(crate::proofs::Rows::rows), unfolding(wire::specs::Walks::Inside))]
fn skip_row(sent: &Sent, levels: usize, n: usize, start: usize) -> Result<usize, Refusal>
    requires { start ≤ length sent.now.octets.now }
    ensures value { result ≡ told skip_end (in_row n (skip_group sent.now.counted sent.now.big sent.now.octets.now levels)
        start) }
    ensures inside { Inside (length sent.now.octets.now) start result }
{
    let mut at = start;
    for _ in 0..n {
        at = skip_group(sent, levels, at)?;
    }
    Ok(at)
}

// The same. Mostly there are none, and then the loop is not called.
#[tactic(auto, using(crate::proofs::Rows::rows), unfolding(wire::specs::Walks::Inside))]
pub fn skip_groups(sent: &Sent, levels: usize, n: usize, start: usize) -> Result<usize, Refusal>
    requires { start ≤ length sent.now.octets.now }
    ensures value { result ≡ told skip_end (in_row n (skip_group sent.now.counted sent.now.big sent.now.octets.now levels)
        start) }
    ensures inside { Inside (length sent.now.octets.now) start result }
{
    if n == 0 {
        return Ok(start);
    }
    skip_row(sent, levels, n, start)
}
