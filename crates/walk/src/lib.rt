// Walks the groups and data of a message by a prepared book, in wire order: where they end and how many records they
// have, or the first refusal.
#![tactic(auto)]

ghost use Rattle.std.specs.Prelude.{◌≡◌, true, ◌+◌, ◌*◌, ◌^◌, ◌<◌, ◌≤◌, length, IfOk, Ok};
ghost use Rattle.layout.specs.Operations.{told};
ghost use Rattle.layout.specs.BookRules.{parse_datas, word};
ghost use Rattle.layout.specs.Message.{read_datas};
ghost use Rattle.prepared.specs.Positions.{BlockAt, IsRow, is_big, is_counted};
ghost use Rattle.wire.specs.Walks.{Inside, Lent, data_end};
ghost use Rattle.walk.specs.Walks.{Bounded, Small, after_datas, data_or, datas_end, entries_at, row_at, values_end, walked};

use counts::Entries;
use layout::{Reason, Refusal, refuse};
use prepared::{Message, number};
use surplus::Sent;

// What walking groups comes to: the octet after them, and how many records they have.
#[derive(Clone, Copy)]
pub struct Walked {
    pub next: usize,
    pub records: usize,
}

// Its octets, and what its book says of the numbers in them.
pub fn sent<'a>(m: &Message<'a>) -> Sent<'a>
    requires { 5 < length m.now.book.now }
    ensures octets { result.octets.now ≡ m.now.octets.now }
    ensures big { result.big ≡ is_big m.now.book.now }
    ensures counted { result.counted ≡ is_counted m.now.book.now }
{
    Sent {
        octets: m.octets,
        big: prepared::is_big(m.book),
        counted: prepared::is_counted(m.book),
    }
}

// The octet after a data: the book's own, whose numbers stand at d and which has no octets where it is absent, or a surplus
// one. By two loops, or by one without this function, the compiler left the walk over data as a call.
#[tactic(auto, using(wire::proofs::Steps::steps), unfolding(crate::proofs::Ways::walks))]
fn pass_data(m: &Message, d: usize, own: bool, big: bool, at: usize) -> Result<usize, Refusal>
    requires { (own ≡ true → d + 2 ≤ length m.now.book.now) × (at ≤ length m.now.octets.now) }
    ensures value { result ≡ told data_end (data_or own m.now.book.now d big m.now.octets.now m.now.version at) }
    ensures inside { Inside (length m.now.octets.now) at result }
{
    if own && m.version < number(m.book, d + 1) {
        return Ok(at);
    }
    wire::read_data(big, m.octets, at)
}

// The octet after the n data at place `from` and then surplus ones.
#[tactic(auto, using(crate::proofs::Datas::datas), unfolding(crate::proofs::Ways::walks))]
pub fn walk_datas(
    m: &Message,
    from: usize,
    n: usize,
    surplus: usize,
    big: bool,
    start: usize,
) -> Result<usize, Refusal>
    requires { (from + 2 * n ≤ length m.now.book.now) × (length m.now.book.now ≤ 65535) × (n ≤ 16) × (surplus ≤ 65535)
        × Lent m.now.octets.now start }
    ensures value { result ≡ told after_datas (read_datas big m.now.octets.now m.now.version
        (parse_datas m.now.book.now n from) surplus start) }
    ensures records { IfOk result (λ next. told (datas_end 0) (read_datas big m.now.octets.now m.now.version
        (parse_datas m.now.book.now n from) surplus start) ≡ Ok (next, n)) }
    ensures inside { Inside (length m.now.octets.now) start result }
{
    let mut at = start;
    for i in 0..n + surplus {
        at = pass_data(m, from + 2 * i, i < n, big, at)?;
    }
    Ok(at)
}

// The entries of the block at a, `depth` more levels being left.
#[cycle(pass_row_walk_entries_walk_row)]
#[tactic(auto, using(crate::proofs::Entries::entries), unfolding(crate::proofs::Ways::walks))]
pub fn walk_entries(
    m: &Message,
    a: usize,
    depth: usize,
    entries: Entries,
    start: usize,
) -> Result<Walked, Refusal>
    requires { BlockAt m.now.book.now depth a × Lent m.now.octets.now start × Small entries }
    ensures value { result ≡ walked (values_end 0) (entries_at m.now.book.now depth a m.now.octets.now m.now.version entries
        start) }
    ensures bounded { Bounded m.now.octets.now start (96 * entries.count) result }
{
    let p = m.book;
    let t = m.octets;
    let l = entries.length;
    let k = entries.count;
    let over = entries.surplus;
    let fields = number(p, a + 3);
    if number(p, a + 7) + over.groups + over.datas == 0 {
        if l * k <= t.len() - start {
            return Ok(Walked {
                next: start + l * k,
                records: fields * k,
            });
        }
    }
    let datas = number(p, a + 5);
    let big = prepared::is_big(p);
    let mut at = start;
    let mut seen = 0;
    for _ in 0..k {
        if t.len() - at < l {
            return refuse(Reason::PastTheEnd, at);
        }
        let row = pass_row(
            m,
            number(p, a + 9),
            number(p, a + 4),
            depth,
            over.groups,
            at + l,
        )?;
        at = walk_datas(m, number(p, a + 10), datas, over.datas, big, row.next)?;
        seen += fields + row.records + datas;
    }
    Ok(Walked {
        next: at,
        records: seen,
    })
}

// The n groups in a row at place `first` and then surplus ones, `depth` more levels being left. Most rows have none,
// and then the loop is not called.
#[cycle(pass_row_walk_entries_walk_row)]
#[tactic(auto, using(crate::proofs::Rows::rows), unfolding(crate::proofs::Ways::walks))]
#[inline(always)]
pub fn pass_row(
    m: &Message,
    first: usize,
    n: usize,
    depth: usize,
    surplus: usize,
    start: usize,
) -> Result<Walked, Refusal>
    requires { IsRow m.now.book.now depth n first × Lent m.now.octets.now start × (n ≤ 16) × (surplus ≤ 65535)
        × (5 < length m.now.book.now) }
    ensures value { result ≡ walked (values_end 0) (row_at m.now.book.now depth n first m.now.octets.now m.now.version
        surplus start) }
    ensures bounded { Bounded m.now.octets.now start n result }
{
    if n + surplus == 0 {
        return Ok(Walked {
            next: start,
            records: 0,
        });
    }
    walk_row(m, first, n, depth, surplus, start)
}

// The same, by a loop over the groups.
#[cycle(pass_row_walk_entries_walk_row)]
#[tactic(auto, using(crate::proofs::Rows::rows), unfolding(crate::proofs::Ways::walks))]
pub fn walk_row(
    m: &Message,
    first: usize,
    n: usize,
    depth: usize,
    surplus: usize,
    start: usize,
) -> Result<Walked, Refusal>
    requires { IsRow m.now.book.now depth n first × Lent m.now.octets.now start × (n ≤ 16) × (surplus ≤ 65535)
        × (5 < length m.now.book.now) }
    ensures value { result ≡ walked (values_end 0) (row_at m.now.book.now depth n first m.now.octets.now m.now.version
        surplus start) }
    ensures bounded { Bounded m.now.octets.now start n result }
{
    let p = m.book;
    let mut a = first;
    let mut at = start;
    // Each group is a record of its own.
    let mut seen = n;
    for left in (1..=n).rev() {
        prepared::open_row(p, a, left, depth);
        let block = a;
        a = number(p, block + 8);
        if m.version < number(p, block + 1) {
            continue;
        }
        let need = prepared::need(p, block, m.version);
        let entries = counts::open_group(m, block, depth - 1, need, at)?;
        let inside = at + prepared::dimension_size(p);
        let walked = walk_entries(m, block, depth - 1, entries, inside)?;
        at = walked.next;
        seen += walked.records;
    }
    let next = surplus::skip_groups(&sent(m), depth, surplus, at)?;
    Ok(Walked {
        next,
        records: seen,
    })
}
