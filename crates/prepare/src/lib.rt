// Makes the prepared book of an accepted one: fills the lent room with its numbers.
#![tactic(auto)]

ghost use Rattle.std.specs.Prelude.{◌≡◌, ◌+◌, ◌*◌, ◌/◌, ◌<◌, ◌≤◌, true, [], ◌∷◌, length, take, drop, nat_le};
ghost use Rattle.std.proofs.lemmas.List.Edits.{sets};
ghost use Rattle.layout.specs.Result.{when◌then◌else◌};
ghost use Rattle.layout.specs.Octets.{words_of};
ghost use Rattle.layout.specs.Book.{need as need_of, need_after};
ghost use Rattle.layout.specs.BookRules.{climbing, head_size, word};
ghost use Rattle.number_types.specs.Value.{order_of};
ghost use Rattle.book.specs.Rows.{list_at};
ghost use Rattle.prepared.specs.Numbers.{bit_of, contents_from, list_numbers, list_size, lists_from, lists_numbers};
ghost use Rattle.prepared.specs.Numbers.{lists_size, mask_of, prepared_of, sizes_of};
ghost use Rattle.prepare.specs.Prepares.{IsBook, Prepares};
ghost use Rattle.prepare.specs.Names.{GoodLists, IsGoodList, IsPlaced, big_in, fields_in, from_in, groups_in, lists_in};
ghost use Rattle.prepare.specs.Names.{place_in, start_of, table_in, version_of};
ghost use Rattle.prepare.specs.Positions.{BlockAt, IsRow, Opened, elements_at, group_at, group_size, groups_from};
ghost use Rattle.prepare.specs.Positions.{head_at, inner_end, shape_at, size_at, words_from, worked};
ghost use Rattle.prepare.specs.Templates.{AreTemplates, IsBody, IsPreparable, IsTemplate, book_at};
ghost use Rattle.prepare.specs.Templates.{laid, template_at, template_size, templates_at};

use book::{HEAD, ROW};
use layout::{Reason, Refusal, refuse};

// Where the slots start among the prepared numbers, and the contents.
const SLOTS: usize = 6;

const CONTENTS: usize = 70;

// As many numbers as the prepared form of any book has at most.
pub const MOST: usize = 8260;

// A group: its id and since, and the word where its block starts. A template is one whose since is 0.
#[derive(Clone, Copy)]
struct Group {
    id: usize,
    since: usize,
    word: usize,
}

// Where a block with its groups ends: the word after them, and the place after their numbers.
#[derive(Clone, Copy)]
pub struct Ends {
    pub word: usize,
    pub at: usize,
}

// ---- one block, at word w

// How many numbers it is, without its groups.
fn size_block(body: &[u8], w: usize) -> usize
    requires { groups_from body.now w ≤ length body.now / 2 }
    ensures { result ≡ size_at body.now w }
{
    12 + 13 * book::word(body, w + 1) + 2 * book::word(body, w + 3)
}

// The word where its groups start.
fn groups_from(body: &[u8], w: usize) -> usize
    requires { groups_from body.now w ≤ length body.now / 2 }
    ensures { result ≡ groups_from body.now w }
{
    w + 4 + 7 * book::word(body, w + 1) + 2 * book::word(body, w + 3)
}

// The n words from `from` on, as numbers.
#[tactic(auto, using(crate::proofs::Blocks::words_more))]
fn copy_words(body: &[u8], from: usize, n: usize, room: &mut [u64], start: usize)
    requires { (from + n ≤ length body.now / 2) × (start + n ≤ length room.old) }
    ensures { room.new ≡ sets room.old start (words_from body.now n from) }
{
    for i in 0..n {
        room[start + i] = book::word(body, from + i) as u64;
    }
}

// What is worked out of a field of type t with this order, whose list is at `place`.
fn put_worked(room: &mut [u64], at: usize, t: usize, order: usize, place: usize)
    requires { (at + 6 ≤ length room.old) × (t < 65536) × (order ≤ 1) }
    ensures { room.new ≡ sets room.old at (worked t order place) }
{
    let k = number_types::number_type(t);
    room[at] = (2 * t + order) as u64;
    room[at + 1] = k.least;
    room[at + 2] = k.greatest.wrapping_sub(k.least);
    room[at + 3] = k.null;
    room[at + 4] = k.width as u64;
    room[at + 5] = place as u64;
}

// The order of the book's messages: 1 is big.
#[tactic(auto, using(book::proofs::Rows::order_few), unfolding(crate::proofs::Blocks::chosen))]
fn order_of(book: &[u8]) -> usize
    requires { GoodLists book.now }
    ensures value { result ≡ order_of (big_in book.now) }
    ensures few { result ≤ 1 }
{
    book::word(book, 5)
}

// The place of list i: a list has three numbers more than words, and in the book lists lie back to back.
fn place_at(book: &[u8], i: usize) -> usize
    requires { GoodLists book.now × IsPlaced book.now i }
    ensures { result + start_of book.now 0 ≡ from_in book.now + 3 * i + start_of book.now i }
{
    let n = book::word(book, 2);
    let rows = HEAD + ROW * n;
    let first = book::word(book, rows + 1);
    CONTENTS + 2 * n + 3 * i + (book::word(book, rows + ROW * i + 1) - first)
}

// The place of the list that a field's seventh word leads to, 0 if it leads to none.
fn place_of(book: &[u8], list: usize) -> usize
    requires { GoodLists book.now }
    ensures { result ≡ place_in book.now list }
{
    if list == 0 {
        return 0;
    }
    let Some(i) = book::find_list(book, list - 1) else {
        return 0;
    };
    place_at(book, i)
}

// The need after a field with this end: its own, if it is present.
#[tactic(auto, unfolding(crate::proofs::Blocks::chosen))]
fn need_after(since: usize, version: usize, end: usize, need: usize) -> usize
    ensures { result ≡ (when nat_le since version then end else need) }
{
    if since <= version { end } else { need }
}

// The table of the n fields at word `from`; their need is the answer.
fn put_table(
    book: &[u8],
    body: &[u8],
    from: usize,
    n: usize,
    room: &mut [u64],
    start: usize,
) -> usize
    requires { GoodLists book.now × (from + 7 * n ≤ length body.now / 2) × (start + 6 * n ≤ length room.old) }
    ensures value { result ≡ need_after (version_of book.now) 0 (fields_in book.now body.now n from) }
    ensures room_after { room.new ≡ sets room.old start (table_in book.now (fields_in book.now body.now n from)) }
{
    let version = book::word(book, 1);
    let order = order_of(book);
    let mut need = 0;
    for i in 0..n {
        let f = from + 7 * i;
        let t = book::word(body, f + 1);
        let k = book::word(body, f + 2);
        let end = book::field_end(t, k, book::word(body, f + 3));
        let place = place_of(book, book::word(body, f + 6));
        put_worked(room, start + 6 * i, t, order, place);
        need = need_after(book::word(body, f + 5), version, end, need);
    }
    need
}

// Its fields, its data and its fields' table, stored from `start` on; its need is the answer.
#[tactic(auto, using(crate::proofs::Blocks::elements_stored))]
fn put_elements(book: &[u8], body: &[u8], w: usize, room: &mut [u64], start: usize) -> usize
    requires { GoodLists book.now × (groups_from body.now w ≤ length body.now / 2)
        × (start + size_at body.now w ≤ length room.old + 12) }
    ensures value { result ≡ need_of (version_of book.now) (shape_at (lists_in book.now) body.now w) }
    ensures room_after { room.new ≡ sets room.old start (elements_at (lists_in book.now) body.now w (from_in book.now) (big_in book.now)) }
{
    let f = book::word(body, w + 1);
    let n = 7 * f + 2 * book::word(body, w + 3);
    copy_words(body, w + 4, n, room, start);
    put_table(book, body, w + 4, f, room, start + n)
}

// The head of a group's block, stored from `at` on, `next` being the place after its groups.
fn put_head(
    body: &[u8],
    group: Group,
    need: usize,
    order: usize,
    next: usize,
    room: &mut [u64],
    at: usize,
)
    requires { (groups_from body.now group.word ≤ length body.now / 2) × (order ≤ 1) × (at + 12 ≤ length room.old) }
    ensures { room.new ≡ sets room.old at (head_at body.now group.word group.id group.since need order
        next at) }
{
    let f = book::word(body, group.word + 1);
    let g = book::word(body, group.word + 2);
    let d = book::word(body, group.word + 3);
    let datas = at + 12 + 7 * f;
    let table = datas + 2 * d;
    let counts = (255 * order + 1) * (g + 65536 * d);
    room[at] = group.id as u64;
    room[at + 1] = group.since as u64;
    room[at + 2] = book::word(body, group.word) as u64;
    room[at + 3] = f as u64;
    room[at + 4] = g as u64;
    room[at + 5] = d as u64;
    room[at + 6] = need as u64;
    room[at + 7] = counts as u64;
    room[at + 8] = next as u64;
    room[at + 9] = (table + 6 * f) as u64;
    room[at + 10] = datas as u64;
    room[at + 11] = table as u64;
}

// Does nothing. Its contract is a law: what the first of the n groups at word w is good for.
fn open_row(body: &[u8], w: usize, n: usize, depth: usize)
    requires { IsRow body.now depth n w × (0 < n) }
    ensures { Opened body.now depth n w }
{}

// The group's block with its groups, stored from `at` on: its head last, when it is known where they end.
fn put_group(
    book: &[u8],
    body: &[u8],
    group: Group,
    depth: usize,
    room: &mut [u64],
    at: usize,
) -> Ends
    requires { GoodLists book.now × BlockAt body.now depth group.word
        × (at + group_size body.now depth group.word ≤ length room.old) }
    ensures word_value { (result.word ≡ inner_end body.now depth group.word)
        × (result.at ≡ at + group_size body.now depth group.word) }
    ensures room_after { room.new ≡ sets room.old at (groups_in book.now (group_at (lists_in
        book.now) body.now depth group.word group.id group.since) at) }
{
    let need = put_elements(book, body, group.word, room, at + 12);
    let many = book::word(body, group.word + 2);
    let mut to = at + size_block(body, group.word);
    let mut x = groups_from(body, group.word);
    for i in 0..many {
        open_row(body, x, many - i, depth);
        let inner = Group {
            id: book::word(body, x),
            since: book::word(body, x + 1),
            word: x + 2,
        };
        let r = put_group(book, body, inner, depth - 1, room, to);
        to = r.at;
        x = r.word;
    }
    put_head(body, group, need, order_of(book), to, room, at);
    Ends { word: x, at: to }
}

// ---- lists

// The number whose one bit is this, of which 64-bit numbers have those below 64.
#[tactic(auto, unfolding(crate::proofs::Blocks::chosen))]
fn bit_of(n: usize) -> u64
    ensures { result ≡ bit_of n }
{
    if n < 64 { 1 << n } else { 0 }
}

// The mask of the n numbers at word `from`.
#[tactic(auto, using(crate::proofs::Masks::mask_step, crate::proofs::Masks::mask_none, crate::proofs::Masks::mask_small, book::proofs::NameLists::climb_start))]
fn mask_of(book: &[u8], from: usize, n: usize) -> u64
    requires { (from + n ≤ length book.now / 2) × (climbing 0 (take n (drop from (words_of book.now))) ≡ true) }
    ensures { result ≡ mask_of (take n (drop from (words_of book.now))) }
{
    let mut mask = 0;
    for w in from..from + n {
        mask += bit_of(book::word(book, w));
    }
    mask
}

// The list whose row is at word w, stored from `at` on: the place after it.
fn put_list(book: &[u8], w: usize, room: &mut [u64], at: usize) -> usize
    requires { IsGoodList book.now w × (at + 3 + word (words_of book.now) (w + 2) ≤ length room.old) }
    ensures value { result ≡ at + list_size (list_at (words_of book.now) w) }
    ensures room_after { room.new ≡ sets room.old at (list_numbers (list_at (words_of book.now) w)) }
{
    let first = book::word(book, w + 1);
    let n = book::word(book, w + 2) - 1;
    room[at] = book::word(book, w) as u64;
    room[at + 1] = book::word(book, first) as u64;
    room[at + 2] = mask_of(book, first + 1, n);
    room[at + 3] = n as u64;
    copy_words(book, first + 1, n, room, at + 4);
    at + 4 + n
}

// All lists, stored from `start` on: the place after them.
#[tactic(auto, using(crate::proofs::Lists::next_size, crate::proofs::Lists::next_stored))]
fn put_lists(book: &[u8], room: &mut [u64], start: usize) -> usize
    requires { GoodLists book.now × (start + lists_size (lists_in book.now) ≤ length room.old) }
    ensures value { result ≡ start + lists_size (lists_in book.now) }
    ensures room_after { room.new ≡ sets room.old start (lists_numbers (lists_in book.now)) }
{
    let rows = HEAD + ROW * book::word(book, 2);
    let mut at = start;
    for i in 0..book::word(book, 4) {
        at = put_list(book, rows + ROW * i, room, at);
    }
    at
}

// How many numbers all lists are: three more than words, each.
#[tactic(auto, using(crate::proofs::Lists::all_lists, crate::proofs::Lists::first_lies, crate::proofs::Lists::no_lists))]
fn size_lists(book: &[u8]) -> usize
    requires { GoodLists book.now }
    ensures { result ≡ lists_size (lists_in book.now) }
{
    let k = book::word(book, 4);
    if k == 0 {
        return 0;
    }
    3 * k + (book.len() / 2 - book::word(book, HEAD + ROW * book::word(book, 2) + 1))
}

// ---- templates

// How many numbers the template with this body is: in a body blocks lie one after the other.
fn size_body(body: &[u8]) -> usize
    requires { IsBody body.now × (group_size body.now 4 0 ≤ 65535) }
    ensures { result ≡ group_size body.now 4 0 }
{
    let end = body.len() / 2;
    let mut w = groups_from(body, 0);
    let mut seen = size_block(body, 0);
    // A `while`, since where a block ends is found in it.
    while w < end {
        seen += size_block(body, w + 2);
        w = groups_from(body, w + 2);
    }
    seen
}

// How many numbers all n templates are.
#[tactic(auto, using(crate::proofs::Templates::sizes_next, crate::proofs::Templates::sizes_none))]
fn size_templates(book: &[u8], n: usize) -> usize
    requires { AreTemplates book.now n × (sizes_of (templates_at book.now n head_size) ≤ 65535) }
    ensures { result ≡ sizes_of (templates_at book.now n head_size) }
{
    let mut seen = 0;
    for i in 0..n {
        seen += size_body(book::body_at(book, HEAD + ROW * i));
    }
    seen
}

// The template whose row of the contents is at word w: its row stored at c, its slot, and its block from `at` on.
fn put_template(book: &[u8], w: usize, room: &mut [u64], c: usize, at: usize) -> usize
    requires { GoodLists book.now × IsTemplate book.now w × (contents_from ≤ c) × (c + 2 ≤ at)
        × (at + template_size book.now w ≤ length room.old) }
    ensures value { result ≡ at + template_size book.now w }
    ensures room_after { room.new ≡ laid book.now (template_at book.now w) c at room.old }
{
    let id = book::word(book, w);
    room[SLOTS + id % 64] = at as u64;
    room[c] = id as u64;
    room[c + 1] = at as u64;
    let template = Group {
        id,
        since: 0,
        word: 0,
    };
    put_group(book, book::body_at(book, w), template, 4, room, at).at
}

// How many numbers a book with n templates is.
fn size_book(book: &[u8], n: usize) -> usize
    requires { IsPreparable book.now n }
    ensures { result ≡ lists_from n + lists_size (lists_in book.now) + sizes_of (templates_at book.now n head_size) }
{
    CONTENTS + 2 * n + size_lists(book) + size_templates(book, n)
}

// All numbers of a book with n templates.
#[tactic(auto, using(crate::proofs::Templates::sizes_next))]
fn put_book(book: &[u8], n: usize, room: &mut [u64])
    requires { IsPreparable book.now n × (lists_from n + lists_size (lists_in book.now)
        + sizes_of (templates_at book.now n head_size) ≤ length room.old) }
    ensures { room.new ≡ sets room.old 0 (prepared_of (book_at book.now)) }
{
    room[0] = book::word(book, 0) as u64;
    room[1] = book::word(book, 1) as u64;
    room[2] = n as u64;
    room[3] = book::word(book, 4) as u64;
    room[4] = order_of(book) as u64;
    room[5] = book::dimension_size(book) as u64;
    room[SLOTS..CONTENTS].fill(0);
    let mut at = put_lists(book, room, CONTENTS + 2 * n);
    for i in 0..n {
        at = put_template(book, HEAD + ROW * i, room, CONTENTS + 2 * i, at);
    }
}

// Prepares an accepted book: the number of numbers, which are stored from the room's start. If there is no room for
// them, the place of the refusal is their number.
pub fn prepare(book: &[u8], room: &mut [u64]) -> Result<usize, Refusal>
    requires { IsBook book.now }
    ensures { Prepares book.now room.old result room.new }
{
    let n = book::word(book, 2);
    let size = size_book(book, n);
    if room.len() < size {
        return refuse(Reason::RoomTooSmall, size);
    }
    put_book(book, n, room);
    Ok(size)
}

// Prepares a book that may be any octets: what it is refused for is the answer.
pub fn prepare_octets(book: &[u8], room: &mut [u64]) -> Result<usize, Refusal>
    ensures { Prepares book.now room.old result room.new }
{
    book::check(book)?;
    prepare(book, room)
}
