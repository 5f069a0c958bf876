// Walks a whole message by a prepared book: 10 to 22, how many records it has, and where the entry starts that a path
// leads to.
#![tactic(auto)]

ghost use Rattle.std.specs.Prelude.{◌≡◌, ◌≤◌};
ghost use Rattle.layout.specs.Operations.{told};
ghost use Rattle.prepared.specs.Positions.{BlockAt, IsBlock};
ghost use Rattle.prepared.specs.Books.{HoldsBook};
ghost use Rattle.wire.specs.Walks.{Lent};
ghost use Rattle.walk.specs.Walks.{after_datas};
ghost use Rattle.places.specs.Seeks.{Path};
ghost use Rattle.whole.specs.Wholes.{Ends, Few, entered, rest_at, root_at, rooted, spot_at, whole_at};

use layout::{Reason, Refusal, refuse};
use places::Spot;
use prepared::{Message, number};

// What follows the groups of the root block at a: its data, surplus data, the message's end.
#[tactic(auto, using(wire::proofs::Steps::steps), unfolding(walk::proofs::Ways::walks, crate::specs::Wholes::rest_at))]
fn walk_rest(m: &Message, a: usize, datas: usize, at: usize) -> Result<usize, Refusal>
    requires { IsBlock m.now.book.now a × (datas ≤ 65535) × Lent m.now.octets.now at }
    ensures { result ≡ told after_datas (rest_at m.now.book.now a m.now.octets.now m.now.version datas at) }
{
    let p = m.book;
    let big = prepared::is_big(p);
    let last = walk::walk_datas(m, number(p, a + 10), number(p, a + 5), datas, big, at)?;
    if last == m.octets.len() {
        return Ok(last);
    }
    refuse(Reason::OctetsLeftOver, last)
}

// The octets of the root block and its groups: where they end; how many records the groups have, counted where no path
// is to be followed; and the spot of the entry that the path leads to, if there is one.
#[derive(Clone, Copy)]
pub struct Root {
    pub next: usize,
    pub records: Option<usize>,
    pub spot: Option<Spot>,
}

// The groups of the root block at a, whose own spot is `root`.
#[tactic(auto, using(crate::proofs::Roots::roots), unfolding(walk::proofs::Ways::walks, places::specs::Seeks::Within, places::specs::Seeks::row_sought, places::specs::Seeks::rowed, crate::specs::Wholes::root_at, crate::specs::Wholes::Ends))]
fn walk_root(m: &Message, a: usize, root: Spot, path: &&[u64]) -> Result<Root, Refusal>
    requires { BlockAt m.now.book.now 4 a × Lent m.now.octets.now 12 × (root.start ≡ 12) × (root.length ≤ 65535)
        × (root.groups ≤ 65535) × Path path.now.now 0 }
    ensures value { result ≡ told (rooted path.now.now (spot_at m.now.book.now a m.now.octets.now m.now.version root
        path.now.now)) (root_at m.now.book.now a m.now.octets.now m.now.version root.length root.groups) }
    ensures ends { Ends m.now.octets.now result }
{
    let p = m.book;
    if m.octets.len() - 12 < root.length {
        return refuse(Reason::PastTheEnd, 12);
    }
    let start = 12 + root.length;
    if path.is_empty() {
        let row = walk::pass_row(m, number(p, a + 9), number(p, a + 4), 4, root.groups, start)?;
        return Ok(Root {
            next: row.next,
            records: Some(row.records),
            spot: Some(root),
        });
    }
    let row = places::seek_row(m, a, 4, root.groups, start, path, 0)?;
    Ok(Root {
        next: row.next,
        records: None,
        spot: row.spot,
    })
}

// A message that was walked: where its template's block stands; its version; how many records its groups have, counted
// where no path was to be followed; the spot of the entry that the path leads to, if there is one.
#[derive(Clone, Copy)]
pub struct Entered {
    pub block: usize,
    pub version: usize,
    pub records: Option<usize>,
    pub spot: Option<Spot>,
}

// Walks the whole message.
#[tactic(auto, using(wire::proofs::Steps::steps), unfolding(walk::proofs::Ways::walks, crate::specs::Wholes::whole_at, crate::specs::Wholes::Ends, crate::specs::Wholes::Few))]
pub fn enter(book: &[u64], octets: &[u8], path: &&[u64]) -> Result<Entered, Refusal>
    requires { HoldsBook book.now × Path path.now.now 0 }
    ensures value { result ≡ told (entered book.now octets.now path.now.now) (whole_at book.now octets.now) }
    ensures few { Few result }
{
    let opened = messages::open(book, octets)?;
    let m = Message {
        book,
        octets,
        version: opened.version,
    };
    let root = Spot {
        start: 12,
        length: opened.length,
        groups: opened.groups,
    };
    let walked = walk_root(&m, opened.block, root, path)?;
    walk_rest(&m, opened.block, opened.datas, walked.next)?;
    Ok(Entered {
        block: opened.block,
        version: opened.version,
        records: walked.records,
        spot: walked.spot,
    })
}
