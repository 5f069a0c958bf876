// What other languages call: each export is the function of the library `siphonbard` by its name, with the same clauses.
// A slice is passed as its pointer and its number of elements; a reply is a struct of 64-bit numbers, those that have
// nothing to tell being 0.
#![tactic(auto)]

ghost use Rattle.std.specs.Prelude.{◌≡◌};
ghost use Rattle.layout.specs.BookRules.{book_of};
ghost use Rattle.layout.specs.Reading.{check_in, check_of, list_in, list_of};
ghost use Rattle.layout.specs.Writing.{write_in, write_of};
ghost use Rattle.prepare.specs.Prepares.{preparing};
ghost use Rattle.prepared.specs.Books.{IsPrepared, book_at};
ghost use Rattle.siphonbard.specs.Replies.{reply_checked, reply_found, RepliesList, RepliesWrite};
ghost use Rattle.siphonbard.specs.Places.{asked_for, place_told, place_told_in};

use siphonbard::{CheckedReply, CountedReply, FoundReply};

// ---- any octets whatever

// Checks a book.
#[unsafe(no_mangle)]
pub extern "C" fn siphonbard_check_book(book: &[u8]) -> CheckedReply
    ensures { result ≡ reply_checked (book_of book.now) }
{
    siphonbard::siphonbard_check_book(book)
}

// Prepares a book for the streams below: the number of numbers, which are stored from the room's start.
#[unsafe(no_mangle)]
pub extern "C" fn siphonbard_prepare(book: &[u8], room: &mut [u64]) -> CountedReply
    ensures { RepliesWrite (preparing book.now) room.old result room.new }
{
    siphonbard::siphonbard_prepare(book, room)
}

// Checks a message.
#[unsafe(no_mangle)]
pub extern "C" fn siphonbard_check(book: &[u8], m: &[u8]) -> CheckedReply
    ensures { result ≡ reply_checked (check_of book.now m.now) }
{
    siphonbard::siphonbard_check(book, m)
}

// Lists a message: the number of records, which are stored from the room's start.
#[unsafe(no_mangle)]
pub extern "C" fn siphonbard_list(book: &[u8], m: &[u8], room: &mut [u64]) -> CountedReply
    ensures { RepliesList (list_of book.now m.now) room.old result
        room.new }
{
    siphonbard::siphonbard_list(book, m, room)
}

// The answer for one place of a message. The steps hold a group's number and an entry's, by turns; the kind is 0 for a
// field, 1 for a group, 2 for a data.
#[unsafe(no_mangle)]
pub extern "C" fn siphonbard_place(
    book: &[u8],
    m: &[u8],
    steps: &[u64],
    kind: u64,
    element: u64,
) -> FoundReply
    ensures { result ≡ reply_found (place_told book.now m.now steps.now
        (asked_for kind element)) }
{
    siphonbard::siphonbard_place(book, m, steps, kind, element)
}

// Writes the message that a listing gives for a template, its starts referring to the pool: the number of octets, which
// are stored from the room's start.
#[unsafe(no_mangle)]
pub extern "C" fn siphonbard_write(
    book: &[u8],
    template: u64,
    listing: &[u64],
    pool: &[u8],
    room: &mut [u8],
) -> CountedReply
    ensures { RepliesWrite (write_of book.now template listing.now pool.now)
        room.old result room.new }
{
    siphonbard::siphonbard_write(book, template, listing, pool, room)
}

// ---- streams: the numbers that siphonbard_prepare counted, not altered since. The checker holds a caller in Rattle to
// the `requires`; in another language it is the caller's duty.

// Checks a message.
#[unsafe(no_mangle)]
pub extern "C" fn siphonbard_stream_check(p: &[u64], m: &[u8]) -> CheckedReply
    requires { IsPrepared p.now }
    ensures { result ≡ reply_checked (check_in (book_at p.now) m.now) }
{
    siphonbard::siphonbard_stream_check(p, m)
}

// Lists a message: the number of records, which are stored from the room's start.
#[unsafe(no_mangle)]
pub extern "C" fn siphonbard_stream_list(p: &[u64], m: &[u8], room: &mut [u64]) -> CountedReply
    requires { IsPrepared p.now }
    ensures { RepliesList (list_in (book_at p.now) m.now) room.old result
        room.new }
{
    siphonbard::siphonbard_stream_list(p, m, room)
}

// The answer for one place of a message, asked as above.
#[unsafe(no_mangle)]
pub extern "C" fn siphonbard_stream_place(
    p: &[u64],
    m: &[u8],
    steps: &[u64],
    kind: u64,
    element: u64,
) -> FoundReply
    requires { IsPrepared p.now }
    ensures { result ≡ reply_found (place_told_in (book_at p.now) m.now steps.now (asked_for kind element)) }
{
    siphonbard::siphonbard_stream_place(p, m, steps, kind, element)
}

// Writes the message that a listing gives for a template, its starts referring to the pool: the number of octets, which
// are stored from the room's start.
#[unsafe(no_mangle)]
pub extern "C" fn siphonbard_stream_write(
    p: &[u64],
    template: u64,
    listing: &[u64],
    pool: &[u8],
    room: &mut [u8],
) -> CountedReply
    requires { IsPrepared p.now }
    ensures { RepliesWrite (write_in (book_at p.now) template listing.now pool.now) room.old result room.new }
{
    siphonbard::siphonbard_stream_write(p, template, listing, pool, room)
}
