// Opens a message by a prepared book: what its root block is, or the refusal 10 to 15.
#![tactic(auto)]

ghost use Rattle.std.specs.Prelude.{◌≡◌};
ghost use Rattle.layout.specs.Operations.{told};
ghost use Rattle.prepared.specs.Positions.{BlockAt, IsBlock, is_big};
ghost use Rattle.prepared.specs.Books.{HoldsBook, location_of};
ghost use Rattle.wire.specs.Headers.{IsHeader};
ghost use Rattle.wire.specs.Walks.{Lent};
ghost use Rattle.messages.specs.Openings.{OpensBy, is_own, open_at, opened};

use layout::{Reason, Refusal, refuse};
use prepared::number;
use wire::Header;

// A message up to its root block: where its template's block stands, the message's version, the root's octets, and how
// many surplus groups and data follow its own.
#[derive(Clone, Copy)]
pub struct Opened {
    pub block: usize,
    pub version: usize,
    pub length: usize,
    pub groups: usize,
    pub datas: usize,
}

// By the template's block at a: 14 and 15.
#[tactic(auto, using(wire::proofs::Steps::steps), unfolding(crate::proofs::Openings::openings))]
fn open_by(p: &[u64], a: usize, h: Header) -> Result<Opened, Refusal>
    requires { BlockAt p.now 4 a }
    ensures { OpensBy p.now a h result }
{
    if h.length < prepared::need(p, a, h.version) {
        return refuse(Reason::RootBlockShort, 0);
    }
    let Some(groups) = counts::groups_over(p, a, 4, h.version, h.groups) else {
        return refuse(Reason::CountsWrong, 8);
    };
    let Some(datas) = counts::datas_over(p, a, h.version, h.datas) else {
        return refuse(Reason::CountsWrong, 10);
    };
    Ok(Opened {
        block: a,
        version: h.version,
        length: h.length,
        groups,
        datas,
    })
}

// Test by test, in their order: 11 to 15. The place is that of the template, if the book has it.
#[tactic(auto, using(wire::proofs::Steps::steps), unfolding(crate::proofs::Openings::openings))]
fn open_any(p: &[u64], m: &[u8], h: Header, place: Option<usize>) -> Result<Opened, Refusal>
    requires { HoldsBook p.now × Lent m.now 12 × IsHeader (is_big p.now) m.now h
        × (place ≡ location_of p.now h.template) }
    ensures { result ≡ told (opened (is_big p.now) m.now) (open_at p.now m.now) }
{
    h.check(number(p, 0))?;
    let Some(a) = place else {
        return refuse(Reason::TemplateUnknown, 2);
    };
    open_by(p, a, h)
}

// Whether the header is as a writer by this book has it for the template whose block stands at a; its block may be
// longer.
#[tactic(auto, using(wire::proofs::Steps::steps), unfolding(crate::specs::Openings::is_own))]
fn is_own(p: &[u64], a: usize, h: Header) -> bool
    requires { IsBlock p.now a }
    ensures { result ≡ is_own p.now a h }
{
    let book = h.schema == number(p, 0) && h.version == number(p, 1);
    let counts = h.groups == number(p, a + 4) && h.datas == number(p, a + 5);
    book && counts && number(p, a + 6) <= h.length && h.length < 65535
}

// By the numbers of the header. Most are as a writer by the same book has them, and no test of 11 to 15 is asked of
// those by itself.
fn open_by_header(p: &[u64], m: &[u8], h: Header) -> Result<Opened, Refusal>
    requires { HoldsBook p.now × Lent m.now 12 × IsHeader (is_big p.now) m.now h }
    ensures { result ≡ told (opened (is_big p.now) m.now) (open_at p.now m.now) }
{
    let place = prepared::find(p, h.template);
    match place {
        Some(a) if is_own(p, a, h) => Ok(Opened {
            block: a,
            version: h.version,
            length: h.length,
            groups: 0,
            datas: 0,
        }),
        _ => open_any(p, m, h, place),
    }
}

// A message up to its root block.
#[tactic(auto, using(wire::proofs::Steps::steps), unfolding(crate::specs::Openings::open_at, layout::specs::Message::check_header))]
pub fn open(p: &[u64], m: &[u8]) -> Result<Opened, Refusal>
    requires { HoldsBook p.now }
    ensures { result ≡ told (opened (is_big p.now) m.now) (open_at p.now m.now) }
{
    if m.len() < 12 || 65535 < m.len() {
        return refuse(Reason::MessageSize, 0);
    }
    open_by_header(p, m, wire::header_of(prepared::is_big(p), m))
}
