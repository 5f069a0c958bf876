// What other languages call, by the exports of `siphonbard_c`. A slice is passed as its pointer and its number of
// elements; a reply is a struct of 64-bit numbers, those that have nothing to tell being 0.
#![tactic(auto)]

ghost use Rattle.std.specs.Prelude.{◌≡◌, Err, MatchResult};
ghost use Rattle.layout.specs.Operations.{told};
ghost use Rattle.layout.specs.BookRules.{book_of};
ghost use Rattle.layout.specs.Reading.{check_in, check_of, list_in, list_of};
ghost use Rattle.layout.specs.Writing.{write_in, write_of};
ghost use Rattle.prepare.specs.Prepares.{preparing};
ghost use Rattle.prepared.specs.Books.{IsPrepared, book_at};
ghost use Rattle.siphonbard.specs.Replies.{say_checked, say_counted, say_found};
ghost use Rattle.siphonbard.specs.Replies.{reply_checked, reply_found, RepliesList, RepliesWrite};
ghost use Rattle.siphonbard.specs.Places.{asked_for, place_told, place_told_in};

use layout::{Answer, Element, Refusal};

// The number of a reply that refuses nothing.
const ACCEPTED: u64 = 0;

// How much room a prepared book gets.
const MOST: usize = prepare::MOST;

#[repr(C)]
#[derive(Clone, Copy)]
pub struct CheckedReply {
    pub number: u64,
    pub place: u64,
}

#[repr(C)]
#[derive(Clone, Copy)]
pub struct CountedReply {
    pub number: u64,
    pub place: u64,
    pub count: u64,
}

// What stands at a place: the three numbers of its record in a listing.
#[repr(C)]
#[derive(Clone, Copy)]
pub struct FoundReply {
    pub number: u64,
    pub place: u64,
    pub first: u64,
    pub second: u64,
    pub third: u64,
}

impl From<Result<(), Refusal>> for CheckedReply {
    ghost from_gives = { λ answer reply. reply ≡ say_checked answer };

    #[tactic(auto, unfolding(crate::specs::Replies::say_checked))]
    fn from(answer: Result<(), Refusal>) -> Self {
        match answer {
            Ok(()) => CheckedReply {
                number: ACCEPTED,
                place: 0,
            },
            Err(refusal) => CheckedReply {
                number: refusal.number() as u64,
                place: refusal.place as u64,
            },
        }
    }
}

impl From<Result<usize, Refusal>> for CountedReply {
    ghost from_gives = { λ answer reply. reply ≡ say_counted answer };

    #[tactic(auto, unfolding(crate::specs::Replies::say_counted))]
    fn from(answer: Result<usize, Refusal>) -> Self {
        match answer {
            Ok(count) => CountedReply {
                number: ACCEPTED,
                place: 0,
                count: count as u64,
            },
            Err(refusal) => CountedReply {
                number: refusal.number() as u64,
                place: refusal.place as u64,
                count: 0,
            },
        }
    }
}

impl From<Result<Answer, Refusal>> for FoundReply {
    ghost from_gives = { λ answer reply. reply ≡ say_found answer };

    #[tactic(auto, using(crate::proofs::Records::filled), unfolding(crate::specs::Replies::say_found))]
    fn from(answer: Result<Answer, Refusal>) -> Self {
        match answer {
            Ok(answer) => {
                let mut record = [0u64; 3];
                records::put(&mut record, 0, answer);
                FoundReply {
                    number: ACCEPTED,
                    place: 0,
                    first: record[0],
                    second: record[1],
                    third: record[2],
                }
            }
            Err(refusal) => FoundReply {
                number: refusal.number() as u64,
                place: refusal.place as u64,
                first: 0,
                second: 0,
                third: 0,
            },
        }
    }
}

// ---- the last part of a place

// The element that is asked for, if there is such a kind: 0 is a field, 1 a group, 2 a data.
#[tactic(auto, unfolding(crate::specs::Places::asked_for))]
fn ask_for(kind: u64, element: u64) -> Option<Element>
    ensures { result ≡ asked_for kind element }
{
    match kind {
        0 => Some(Element::Field(element as usize)),
        1 => Some(Element::Group(element as usize)),
        2 => Some(Element::Data(element as usize)),
        _ => None,
    }
}

// ---- any octets whatever

// The reply that is made of the prepared book, or the one that says what the book is refused for. What makes it is lent,
// so that a room which it stores to is known to be as it was where it isn't called.
#[inline(always)]
fn by_book<T, R: From<Result<T, Refusal>>, F: FnMut(&[u64]) -> R>(book: &[u8], reply: &mut F) -> R
    requires { (p : _) → IsPrepared p.now → F.pre reply.old p }
    ensures { MatchResult (told (λ b. b) (book_of book.now))
        (λ b. (p : _) × IsPrepared p.now × (book_at p.now ≡ b) × F.step reply.old p result reply.new)
        (λ z. R.from_gives (Err z) result × (reply.new ≡ reply.old)) }
{
    let mut numbers = [0u64; MOST];
    match prepare::prepare_octets(book, &mut numbers) {
        Ok(n) => reply(&numbers[..n]),
        Err(refusal) => Err(refusal).into(),
    }
}

// Checks a book.
pub fn siphonbard_check_book(book: &[u8]) -> CheckedReply
    ensures { result ≡ reply_checked (book_of book.now) }
{
    book::check(book).into()
}

// Prepares a book for the streams below: the number of numbers, which are stored from the room's start.
pub fn siphonbard_prepare(book: &[u8], room: &mut [u64]) -> CountedReply
    ensures { RepliesWrite (preparing book.now) room.old result room.new }
{
    prepare::prepare_octets(book, room).into()
}

// Checks a message.
#[tactic(auto, using(wire::proofs::Steps::steps), unfolding(layout::specs::Reading::check_of))]
pub fn siphonbard_check(book: &[u8], m: &[u8]) -> CheckedReply
    ensures { result ≡ reply_checked (check_of book.now m.now) }
{
    by_book(book, &mut |p| siphonbard_stream_check(p, m))
}

// Lists a message: the number of records, which are stored from the room's start.
#[tactic(auto, using(wire::proofs::Steps::steps), unfolding(layout::specs::Reading::list_of, layout::specs::Operations::room_after))]
pub fn siphonbard_list(book: &[u8], m: &[u8], room: &mut [u64]) -> CountedReply
    ensures { RepliesList (list_of book.now m.now) room.old result
        room.new }
{
    // Not by the function below: stream::list is joined to both.
    by_book(book, &mut |p| stream::list(&p, &m, room).into())
}

// The answer for one place of a message. The steps hold a group's number and an entry's, by turns; the kind is 0 for a
// field, 1 for a group, 2 for a data.
#[tactic(auto, using(wire::proofs::Steps::steps), unfolding(crate::specs::Places::place_told))]
pub fn siphonbard_place(book: &[u8], m: &[u8], steps: &[u64], kind: u64, element: u64) -> FoundReply
    ensures { result ≡ reply_found (place_told book.now m.now steps.now
        (asked_for kind element)) }
{
    by_book(
        book,
        &mut |p| siphonbard_stream_place(p, m, steps, kind, element),
    )
}

// Writes the message that a listing gives for a template, its starts referring to the pool: the number of octets, which
// are stored from the room's start.
pub fn siphonbard_write(
    book: &[u8],
    template: u64,
    listing: &[u64],
    pool: &[u8],
    room: &mut [u8],
) -> CountedReply
    ensures { RepliesWrite (write_of book.now template listing.now pool.now)
        room.old result room.new }
{
    by_book(
        book,
        &mut |p| siphonbard_stream_write(p, template, listing, pool, room),
    )
}

// ---- streams: the numbers that siphonbard_prepare counted, not altered since. The checker holds a caller in Rattle to
// the `requires`; in another language it is the caller's duty.

// Checks a message.
pub fn siphonbard_stream_check(p: &[u64], m: &[u8]) -> CheckedReply
    requires { IsPrepared p.now }
    ensures { result ≡ reply_checked (check_in (book_at p.now) m.now) }
{
    stream::check(p, m).into()
}

// Lists a message: the number of records, which are stored from the room's start.
pub fn siphonbard_stream_list(p: &[u64], m: &[u8], room: &mut [u64]) -> CountedReply
    requires { IsPrepared p.now }
    ensures { RepliesList (list_in (book_at p.now) m.now) room.old result
        room.new }
{
    stream::list(&p, &m, room).into()
}

// The answer for one place of a message, asked as above.
#[tactic(auto, using(crate::proofs::Places::no_kind), unfolding(crate::specs::Places::place_told_in))]
pub fn siphonbard_stream_place(
    p: &[u64],
    m: &[u8],
    steps: &[u64],
    kind: u64,
    element: u64,
) -> FoundReply
    requires { IsPrepared p.now }
    ensures { result ≡ reply_found (place_told_in (book_at p.now) m.now steps.now (asked_for kind element)) }
{
    match ask_for(kind, element) {
        Some(x) => stream::place(p, m, steps, x).into(),
        None => stream::no_place(stream::check(p, m)).into(),
    }
}

// Writes the message that a listing gives for a template, its starts referring to the pool: the number of octets, which
// are stored from the room's start.
pub fn siphonbard_stream_write(
    p: &[u64],
    template: u64,
    listing: &[u64],
    pool: &[u8],
    room: &mut [u8],
) -> CountedReply
    requires { IsPrepared p.now }
    ensures { RepliesWrite (write_in (book_at p.now) template listing.now pool.now) room.old result room.new }
{
    stream::write(p, template as usize, listing, pool, room).into()
}
