// Reads and writes messages by a prepared book: at no book cost per message. Proved callers cannot misuse it: the
// checker refuses a call whose numbers are not known to be those of an accepted book.
#![tactic(auto)]

ghost use Rattle.std.specs.Prelude.{◌≡◌, ◌+◌, ◌≤◌, Err, MatchResult};
ghost use Rattle.layout.specs.Operations.{ListsAs, Told, WritesAs, checked, found, refusal};
ghost use Rattle.layout.specs.Reading.{check_in, list_in, place_in};
ghost use Rattle.layout.specs.Writing.{write_in};
ghost use Rattle.layout.specs.declared.Reason.TheVariants.{PlaceUnknown};
ghost use Rattle.prepared.specs.Positions.{BlockAt, IsBlock, many_datas, many_fields};
ghost use Rattle.places.specs.Seeks.{Path};
ghost use Rattle.whole.specs.Wholes.{most};
ghost use Rattle.stream.specs.Written.{written_by};
ghost use Rattle.prepared.specs.Books.{IsPrepared, book_at, template_at};

use counts::{Entries, Surplus};
use layout::{Answer, Element, Reason, Refusal, refuse};
use prepared::{Message, number};
use records::Listing;
use store::Cursor;

// Checks a message.
pub fn check(p: &[u64], m: &[u8]) -> Result<(), Refusal>
    requires { IsPrepared p.now }
    ensures { result ≡ checked (check_in (book_at p.now) m.now) }
{
    let path = &p[0..0];
    whole::enter(p, m, &path)?;
    Ok(())
}

// How many records a message has whose root is the block at a, its groups having k.
fn count_records(p: &[u64], a: usize, k: usize) -> usize
    requires { IsBlock p.now a × (k ≤ most) }
    ensures { result ≡ many_fields p.now a + k + many_datas p.now a }
{
    number(p, a + 3) + k + number(p, a + 5)
}

// Lists a message: the number of records, which are stored from the room's start. A walk checks and counts, and then,
// if there is room, a pass stores; else the place of the refusal is the number of records.
#[inline(always)]
pub fn list(p: &&[u64], m: &&[u8], room: &mut [u64]) -> Result<usize, Refusal>
    requires { IsPrepared p.now.now }
    ensures { ListsAs (list_in (book_at p.now.now) m.now.now) room.old result
        room.new }
{
    let book = *p;
    let path = &book[0..0];
    let entered = whole::enter(book, *m, &path)?;
    let records = entered.records.unwrap();
    let all = count_records(book, entered.block, records);
    if room.len() < 3 * all {
        return refuse(Reason::RoomTooSmall, all);
    }
    let message = Message {
        book,
        octets: *m,
        version: entered.version,
    };
    let root = entered.spot.unwrap();
    let entries = Entries {
        length: root.length,
        count: 1,
        surplus: Surplus {
            groups: root.groups,
            datas: 0,
        },
    };
    let start = Cursor { at: 12, n: 0 };
    store::store_entries(&message, entered.block, 4, entries, room, start);
    Ok(all)
}

// A place that no book has: 30 after what was refused before, which may be told by any type that takes a refusal.
pub fn no_place<E: From<Refusal>>(answer: Result<(), E>) -> Result<Answer, E>
    ensures { MatchResult answer (λ _. (unknown : E) × E.from_gives (refusal PlaceUnknown 0) unknown × (result ≡ Err unknown))
        (λ e. result ≡ Err e) }
{
    answer?;
    let unknown = Refusal {
        reason: Reason::PlaceUnknown,
        place: 0,
    };
    Err(unknown.into())
}

// The answer for a place of at most four whole steps.
fn place_on(p: &[u64], m: &[u8], steps: &[u64], x: Element) -> Result<Answer, Refusal>
    requires { IsPrepared p.now × Path steps.now 0 }
    ensures { result ≡ found (place_in (book_at p.now) m.now steps.now x) }
{
    // A slice whose address is handed on is taken anew first: so its two numbers are loaded one by one, and need not
    // wait for the caller's stores.
    let path = &steps[0..];
    let entered = whole::enter(p, m, &path)?;
    let Some(a) = places::find_place(p, entered.block, steps, x) else {
        return refuse(Reason::PlaceUnknown, 0);
    };
    let Some(spot) = entered.spot else {
        return refuse(Reason::EntryMissing, 0);
    };
    let message = Message {
        book: p,
        octets: m,
        version: entered.version,
    };
    Ok(places::element_at(&message, a, 4 - steps.len() / 2, spot, x))
}

// The answer for one place of a message. The steps hold a group's number and an entry's, by turns.
#[tactic(auto, using(crate::proofs::Places::nowhere))]
pub fn place(p: &[u64], m: &[u8], steps: &[u64], x: Element) -> Result<Answer, Refusal>
    requires { IsPrepared p.now }
    ensures { result ≡ found (place_in (book_at p.now) m.now steps.now x) }
{
    if steps.len() % 2 == 1 || 8 < steps.len() {
        return no_place(check(p, m));
    }
    place_on(p, m, steps, x)
}

// Writes by the template's block at a: a pass judges the listing, and then, if there is room, a pass stores over zeros.
fn write_by(l: &Listing, a: usize, room: &mut [u8]) -> Result<usize, Refusal>
    requires { BlockAt l.now.book.now 4 a }
    ensures { WritesAs (written_by (book_at l.now.book.now) (template_at l.now.book.now a) l.now.numbers.now l.now.pool.now)
        room.old result room.new }
{
    let judged = judges::judge_listing(l, a)?;
    let n = 12 + judged.length;
    if 65535 < n || room.len() < n {
        return refuse(Reason::MessageTooLong, 0);
    }
    room[..n].fill(0);
    writer::write_message(l, a, &mut room[..n]);
    Ok(n)
}

// Writes the message that a listing gives for the template `id`, its starts referring to the pool: the number of
// octets, which are stored from the room's start.
pub fn write(
    p: &[u64],
    id: usize,
    listing: &[u64],
    pool: &[u8],
    room: &mut [u8],
) -> Result<usize, Refusal>
    requires { IsPrepared p.now }
    ensures { WritesAs (write_in (book_at p.now) id listing.now pool.now) room.old result room.new }
{
    let Some(a) = prepared::find(p, id) else {
        return refuse(Reason::WriteTemplateUnknown, 0);
    };
    let l = Listing {
        book: p,
        numbers: listing,
        pool,
    };
    write_by(&l, a, room)
}
