// Checks a schema book: accepted, or the refusal 1 to 7 with its place. One walk over the words of each body finds
// whether the body is whole (4) and, if it is, whether it keeps the rules of 5, 6 and 7. Then the lists are judged (4).
#![tactic(auto, using(crate::proofs::Rows::known))]

ghost use Rattle.std.specs.Prelude.{◌≡◌, true, [], ◌∷◌, ◌+◌, ◌*◌, ◌/◌, ◌<◌, ◌≤◌, leb, ltb, eqb, length, take, drop, IfOk, IfSome};
ghost use Rattle.layout.specs.Result.{◌and◌, ◌or◌};
ghost use Rattle.layout.specs.Octets.{words_of};
ghost use Rattle.layout.specs.Types.{type_at};
ghost use Rattle.layout.specs.Lists.{is_one_of};
ghost use Rattle.layout.specs.Book.{data_sinces};
ghost use Rattle.layout.specs.BookRules.{check_contents, climbing, contents_end, each_must, field_at, format_of, greatest};
ghost use Rattle.layout.specs.BookRules.{head_good, list_good, lists_of, names_good, parse_body, parse_contents, parse_datas};
ghost use Rattle.layout.specs.BookRules.{parse_fields, parse_groups, parse_shape, rising, size_good, word as word_of};
ghost use Rattle.layout.specs.BookRules.{youngest as youngest_of};
ghost use Rattle.layout.specs.Message.{dimension_size};
ghost use Rattle.layout.specs.Operations.{checked, counted, ChecksBook};
ghost use Rattle.layout.specs.declared.Reason.TheVariants.{BookBlock};
ghost use Rattle.book.specs.Answers.{IsWord, all_rules, block_of, bodies_of, body_of, field_of, fields_rules, first_of};
ghost use Rattle.book.specs.Answers.{group_rules, least_at, row_of, verdict_of};
ghost use Rattle.book.specs.Rows.{BookHead, HasLists, IsListRow, body_at, counted_in, list_at, list_fits, listed_of, octets_at};

use layout::{Reason, Refusal, refuse};

// Whether the rules of 5 and of 6 hold.
#[derive(Clone, Copy)]
pub struct Rules {
    pub layout: bool,
    pub since: bool,
}

// A field: whether it keeps the rules, its end and its since.
#[derive(Clone, Copy)]
pub struct Field {
    pub rules: Rules,
    pub end: usize,
    pub since: usize,
}

// A block without its groups: how many they are, the word where they start, and what rules hold.
#[derive(Clone, Copy)]
pub struct Block {
    pub groups: usize,
    pub next: usize,
    pub rules: Rules,
}

// Groups in a row: the word after them.
#[derive(Clone, Copy)]
pub struct Row {
    pub next: usize,
    pub rules: Rules,
}

// A body: whether its template's shortest message is short enough, which is the rule of 7.
#[derive(Clone, Copy)]
pub struct Body {
    pub rules: Rules,
    pub short: bool,
}

// The least and the greatest since that an element may have.
#[derive(Clone, Copy)]
pub struct Range {
    pub low: usize,
    pub high: usize,
}

impl Range {
    fn has(self, since: usize) -> bool
        ensures { result ≡ (leb self.low since and leb since self.high) }
    {
        (self.low..=self.high).contains(&since)
    }
}

const ALL_KEPT: Rules = Rules {
    layout: true,
    since: true,
};

// How many words are the head, and a row of the contents.
pub const HEAD: usize = 7;

pub const ROW: usize = 3;

// How many octets a message's header has, and a message at most.
const HEADER: usize = 12;

const MOST: usize = 65535;

// The kinds of lists.
const ENUMERATION: usize = 0;

const SET: usize = 1;

// How many numbers a dimension has that has counts.
const WITH_COUNTS: usize = 4;

#[tactic(auto, using(crate::proofs::Rows::known), unfolding(crate::specs::Answers::all_rules))]
fn all_rules(a: Rules, b: Rules) -> Rules
    ensures { result ≡ all_rules a b }
{
    Rules {
        layout: a.layout && b.layout,
        since: a.since && b.since,
    }
}

// Word w.
#[tactic(auto, using(crate::proofs::Rows::parts))]
pub fn word(s: &[u8], w: usize) -> usize
    requires { w + 1 ≤ length s.now / 2 }
    ensures { IsWord s.now w result }
{
    octets::get::<2>(s, 2 * w) as usize
}

// The body of the row of the contents at word w.
#[tactic(auto, using(crate::proofs::Rows::parts))]
pub fn body_at(book: &[u8], w: usize) -> &[u8]
    requires { IsListRow book.now w }
    ensures octets { result.now ≡ octets_at book.now w }
    ensures words { words_of result.now ≡ body_at (words_of book.now) w }
{
    let start = 2 * word(book, w + 1);
    &book[start..start + 2 * word(book, w + 2)]
}

// ---- lists

// The list with this number: its position among those of the book, along which numbers rise.
pub fn find_list(book: &[u8], id: usize) -> Option<usize>
    requires { HasLists book.now }
    ensures { result ≡ listed_of (words_of book.now) id }
{
    let templates = word(book, 2);
    bisect::find(
        word(book, 4),
        id as u64,
        |i|
            requires { 7 + 3 * (templates + i) + 3 ≤ length book.now / 2 }
        { word(book, HEAD + ROW * (templates + i)) as u64 },
    )
}

// The word for the kind of the list whose row is at word w.
fn kind_of(book: &[u8], w: usize) -> usize
    requires { IsListRow book.now w }
    ensures { result ≡ (list_at (words_of book.now) w).kind }
{
    if word(book, w + 2) == 0 {
        return ENUMERATION;
    }
    word(book, word(book, w + 1))
}

// The greatest number of that list, or 0.
#[tactic(auto, using(crate::proofs::NameLists::list_laws))]
fn greatest_of(book: &[u8], w: usize) -> usize
    requires { IsListRow book.now w }
    ensures { result ≡ greatest (list_at (words_of book.now) w).numbers }
{
    let n = word(book, w + 2);
    if n <= 1 {
        return 0;
    }
    word(book, word(book, w + 1) + n - 1)
}

// Whether a type may have an enumeration, and a set: char, uint8 and uint16; an unsigned type.
#[tactic(auto, using(crate::proofs::Rows::known), unfolding(layout::specs::Lists::is_one_of))]
fn takes_values(t: usize) -> bool
    ensures { result ≡ is_one_of t (0 ∷ 2 ∷ 4 ∷ []) }
{
    matches!(t, 0 | 2 | 4)
}

#[tactic(auto, using(crate::proofs::Rows::known), unfolding(layout::specs::Lists::is_one_of))]
fn takes_bits(t: usize) -> bool
    ensures { result ≡ is_one_of t (2 ∷ 4 ∷ 6 ∷ 8 ∷ []) }
{
    matches!(t, 2 | 4 | 6 | 8)
}

// Whether the list whose row is at word w fits a number of type t.
#[tactic(auto, using(crate::proofs::NameLists::list_laws), unfolding(crate::specs::Rows::list_fits))]
fn list_fits(book: &[u8], w: usize, t: usize) -> bool
    requires { IsListRow book.now w }
    ensures { result ≡ list_fits (list_at (words_of book.now) w) t }
{
    if kind_of(book, w) == ENUMERATION {
        return takes_values(t);
    }
    takes_bits(t) && greatest_of(book, w) < 8 * number_types::width_of(t)
}

// Whether the field at word w of a body may have the list that its last word leads to, if to one.
#[tactic(auto, using(crate::proofs::NameLists::names_laws))]
fn names_good(book: &[u8], body: &[u8], w: usize) -> bool
    requires { HasLists book.now × (w + 7 ≤ length body.now / 2) }
    ensures { result ≡ names_good (field_at (lists_of (words_of book.now)) (words_of body.now)
        w) }
{
    let list = word(body, w + 6);
    if list == 0 {
        return true;
    }
    let Some(i) = find_list(book, list - 1) else {
        return false;
    };
    word(body, w + 2) <= 1 && list_fits(book, HEAD + ROW * (word(book, 2) + i), word(body, w + 1))
}

// Whether the n numbers from word `from` on rise.
#[tactic(auto, using(crate::proofs::NameLists::climbs))]
fn numbers_rise(book: &[u8], from: usize, n: usize) -> bool
    requires { from + n ≤ length book.now / 2 }
    ensures { result ≡ climbing 0 (take n (drop from (words_of book.now))) }
{
    let mut low = 0;
    for w in from..from + n {
        let here = word(book, w);
        if here < low {
            return false;
        }
        low = here + 1;
    }
    true
}

// Whether the list whose row is at word w keeps its rule.
#[tactic(auto, using(crate::proofs::NameLists::list_laws))]
fn list_good(book: &[u8], w: usize) -> bool
    requires { IsListRow book.now w }
    ensures { result ≡ list_good (list_at (words_of book.now) w) }
{
    let n = word(book, w + 2);
    (2..=65).contains(&n)
        && kind_of(book, w) <= SET
        && numbers_rise(book, word(book, w + 1) + 1, n - 1)
}

// 4 at the first list that breaks its rule, counted on from the templates.
#[tactic(auto, using(crate::proofs::NameLists::lists_laws))]
fn check_lists(book: &[u8]) -> Result<(), Refusal>
    requires { HasLists book.now }
    ensures { result ≡ checked (each_must list_good BookBlock (word_of (words_of book.now) 2)
        (lists_of (words_of book.now))) }
{
    let templates = word(book, 2);
    for place in templates..templates + word(book, 4) {
        if !list_good(book, HEAD + ROW * place) {
            return refuse(Reason::BookBlock, place);
        }
    }
    Ok(())
}

// ---- fields and data

// The end of a field of type t.
#[tactic(auto, using(crate::proofs::NameLists::list_laws))]
pub fn field_end(t: usize, n: usize, offset: usize) -> usize
    requires { (n < 65536) × (offset < 65536) }
    ensures { result ≡ offset + (type_at t).width * n }
{
    offset + number_types::width_of(t) * n
}

fn length_good(t: usize, n: usize) -> bool
    ensures { result ≡ (eqb n 1 or (leb 2 n and leb n 1024 and (eqb t 0 or eqb t 2))) }
{
    n == 1 || ((2..=1024).contains(&n) && (t == 0 || t == 2))
}

// The field at word w of a block of l octets, after one that ends at e.
fn check_field(book: &[u8], body: &[u8], w: usize, l: usize, e: usize, sinces: Range) -> Field
    requires { HasLists book.now × (w + 7 ≤ length body.now / 2) }
    ensures { result ≡ field_of l e sinces.low sinces.high
        (field_at (lists_of (words_of book.now)) (words_of body.now) w) }
{
    // Sought first, while little else is at hand: last of the tests below it took a third more instructions.
    let named = names_good(book, body, w);
    let t = word(body, w + 1);
    let n = word(body, w + 2);
    let offset = word(body, w + 3);
    let since = word(body, w + 5);
    let end = field_end(t, n, offset);
    let rules = Rules {
        layout: t < 9
            && length_good(t, n)
            && word(body, w + 4) <= 1
            && e <= offset
            && end <= l
            && named,
        since: sinces.has(since),
    };
    Field { rules, end, since }
}

// The n fields at word `from` of a block of l octets, the first of which has one of these sinces.
#[tactic(auto, using(crate::proofs::RuleLaws::field_laws))]
fn check_fields(
    book: &[u8],
    body: &[u8],
    from: usize,
    n: usize,
    l: usize,
    version: usize,
    sinces: Range,
) -> Rules
    requires { HasLists book.now × (from + 7 * n ≤ length body.now / 2) }
    ensures { result ≡ fields_rules version sinces.low sinces.high l 0
        (parse_fields (lists_of (words_of book.now)) (words_of body.now) n from) }
{
    let mut rules = ALL_KEPT;
    let mut end = 0;
    let mut next = sinces;
    for i in 0..n {
        let field = check_field(book, body, from + 7 * i, l, end, next);
        rules = all_rules(rules, field.rules);
        end = field.end;
        next = Range {
            low: field.since,
            high: version,
        };
    }
    rules
}

// Whether the sinces of the n data at word `from` rise from the least of these to the greatest.
#[tactic(auto, using(crate::proofs::RuleLaws::data_laws))]
fn check_datas(body: &[u8], from: usize, n: usize, sinces: Range) -> bool
    requires { from + 2 * n ≤ length body.now / 2 }
    ensures { result ≡ rising sinces.high sinces.low (data_sinces (parse_datas (words_of body.now) n from)) }
{
    let mut least = sinces.low;
    for i in 0..n {
        let since = word(body, from + 2 * i + 1);
        if !(least..=sinces.high).contains(&since) {
            return false;
        }
        least = since;
    }
    true
}

// ---- blocks, groups and bodies

fn counts_good(few: usize, f: usize, g: usize, d: usize) -> bool
    ensures { result ≡ (leb few f and leb f 64 and leb g 16 and leb d 16) }
{
    (few..=64).contains(&f) && g <= 16 && d <= 16
}

// The block at word w up to its groups, if it is whole. It has at least `few` fields, and data with sinces up to `top`.
#[tactic(auto, using(crate::proofs::Blocks::block_laws))]
fn check_block(
    book: &[u8],
    body: &[u8],
    few: usize,
    w: usize,
    version: usize,
    sinces: Range,
    top: usize,
) -> Option<Block>
    requires { HasLists book.now × (w ≤ length body.now / 2) }
    ensures value { result ≡ block_of version sinces.low sinces.high top
        (parse_shape (lists_of (words_of book.now)) (words_of body.now) few w) }
    ensures lies { IfSome result (λ block. (w + 4 ≤ block.next) × (block.next ≤ length body.now / 2)) }
{
    let size = body.len() / 2;
    if size < w + 4 {
        return None;
    }
    let f = word(body, w + 1);
    let g = word(body, w + 2);
    let d = word(body, w + 3);
    let datas = w + 4 + 7 * f;
    let next = datas + 2 * d;
    if !counts_good(few, f, g, d) || size < next {
        return None;
    }
    let l = word(body, w);
    let fields = check_fields(book, body, w + 4, f, l, version, sinces);
    let low = sinces.low;
    let rules = Rules {
        layout: l < 65535 && fields.layout,
        since: fields.since && check_datas(body, datas, d, Range { low, high: top }),
    };
    Some(Block {
        groups: g,
        next,
        rules,
    })
}

// The rules of the groups so far and of one more, which has this since: its block's and its inner groups'.
fn more_rules(before: Rules, sinces: Range, since: usize, block: Rules, inner: Rules) -> Rules
    ensures { result ≡ all_rules before (group_rules sinces.low since sinces.high block inner) }
{
    let own = Rules {
        layout: true,
        since: sinces.has(since),
    };
    all_rules(before, all_rules(own, all_rules(block, inner)))
}

// Whether dimensions have counts.
fn has_counts(book: &[u8]) -> bool
    requires { HasLists book.now }
    ensures { result ≡ counted_in book.now }
{
    word(book, 6) == WITH_COUNTS
}

// The greatest since that data and groups inside a group with this since may have: its own, or the version where
// dimensions have counts.
#[tactic(auto, using(crate::proofs::Rows::known), unfolding(layout::specs::BookRules::youngest))]
fn youngest(book: &[u8], version: usize, since: usize) -> usize
    requires { HasLists book.now }
    ensures { result ≡ youngest_of (counted_in book.now) version since }
{
    if has_counts(book) { version } else { since }
}

// The n groups in a row at word `from`, if they are whole, `depth` more levels being left.
#[tactic(auto, using(crate::proofs::Groups::row_laws))]
fn check_groups(
    book: &[u8],
    body: &[u8],
    from: usize,
    n: usize,
    depth: usize,
    version: usize,
    sinces: Range,
) -> Option<Row>
    requires { HasLists book.now × (from ≤ length body.now / 2) }
    ensures value { result ≡ row_of (counted_in book.now) version sinces.low sinces.high
        (parse_groups (lists_of (words_of book.now)) (words_of body.now) depth n from) }
    ensures lies { IfSome result (λ row. row.next ≤ length body.now / 2) }
{
    let high = sinces.high;
    let mut next = from;
    let mut low = sinces.low;
    let mut rules = ALL_KEPT;
    for _ in 0..n {
        if depth == 0 || body.len() / 2 < next + 2 {
            return None;
        }
        let since = word(body, next + 1);
        let top = youngest(book, version, since);
        let own = Range {
            low: since,
            high: since,
        };
        let block = check_block(book, body, 1, next + 2, version, own, top)?;
        let inside = Range {
            low: since,
            high: top,
        };
        let inner = check_groups(
            book,
            body,
            block.next,
            block.groups,
            depth - 1,
            version,
            inside,
        )?;
        rules = more_rules(rules, Range { low, high }, since, block.rules, inner.rules);
        low = since;
        next = inner.next;
    }
    Some(Row { next, rules })
}

// How many octets a dimension of the book's messages has.
#[tactic(auto, using(crate::proofs::Rows::head_laws))]
pub fn dimension_size(book: &[u8]) -> usize
    requires { HasLists book.now }
    ensures { result ≡ dimension_size (counted_in book.now) }
{
    2 * word(book, 6)
}

// How many octets the shortest message of a body's template has: its header, the root block, a dimension for each root
// group and a length for each root data.
#[tactic(auto, using(crate::proofs::Rows::head_laws))]
fn least_length(book: &[u8], body: &[u8]) -> usize
    requires { HasLists book.now × (4 ≤ length body.now / 2) }
    ensures { result ≡ least_at (counted_in book.now) (words_of body.now) }
{
    let dimension = dimension_size(book);
    HEADER + word(body, 0) + dimension * word(body, 2) + 2 * word(body, 3)
}

// A body is one block, and nothing after it.
#[tactic(auto, using(crate::proofs::Bodies::body_laws))]
fn check_body(book: &[u8], body: &[u8], version: usize) -> Option<Body>
    requires { HasLists book.now }
    ensures { result ≡ body_of (format_of (words_of book.now)) version
        (parse_body (lists_of (words_of book.now)) (words_of body.now)) }
{
    let sinces = Range {
        low: 0,
        high: version,
    };
    let block = check_block(book, body, 0, 0, version, sinces, version)?;
    let row = check_groups(book, body, block.next, block.groups, 4, version, sinces)?;
    if row.next != body.len() / 2 {
        return None;
    }
    Some(Body {
        rules: all_rules(block.rules, row.rules),
        short: least_length(book, body) <= MOST,
    })
}

// ---- the book

// The first template that breaks a rule, `seen` being the first before template t.
#[tactic(auto, using(crate::proofs::Rows::known), unfolding(crate::specs::Answers::first_of))]
fn first_of(seen: Option<usize>, keeps: bool, t: usize) -> Option<usize>
    ensures { result ≡ first_of seen keeps t }
{
    seen.or((!keeps).then_some(t))
}

// 5 at the first template that breaks its rule, else 6, else 7.
#[tactic(auto, using(crate::proofs::Bodies::verdicts), unfolding(crate::specs::Answers::verdict_of))]
fn verdict(five: Option<usize>, six: Option<usize>, seven: Option<usize>) -> Result<(), Refusal>
    ensures { result ≡ checked (verdict_of five six seven) }
{
    if let Some(t) = five {
        return refuse(Reason::BookLayout, t);
    }
    if let Some(t) = six {
        return refuse(Reason::BookSince, t);
    }
    if let Some(t) = seven {
        return refuse(Reason::BookUnsendable, t);
    }
    Ok(())
}

// The bodies of all templates: 4 where one is broken or a list is, else 5 at the first that breaks its rule, else 6,
// else 7.
#[tactic(auto, using(crate::proofs::Bodies::bodies_laws))]
fn check_bodies(book: &[u8]) -> Result<(), Refusal>
    requires { HasLists book.now }
    ensures { result ≡ checked (bodies_of (words_of book.now)) }
{
    let version = word(book, 1);
    let mut five = None;
    let mut six = None;
    let mut seven = None;
    for t in 0..word(book, 2) {
        let body = body_at(book, HEAD + ROW * t);
        let Some(body) = check_body(book, body, version) else {
            return refuse(Reason::BookBlock, t);
        };
        five = first_of(five, body.rules.layout, t);
        six = first_of(six, body.rules.since, t);
        seven = first_of(seven, body.short, t);
    }
    check_lists(book)?;
    verdict(five, six, seven)
}

fn size_good(book: &[u8]) -> bool
    ensures { result ≡ size_good book.now }
{
    let n = book.len();
    n % 2 == 0 && (8..=8192).contains(&n)
}

// Whether a dimension may have n numbers.
fn dimension_good(n: usize) -> bool
    ensures { result ≡ (eqb n 2 or eqb n 4) }
{
    n == 2 || n == WITH_COUNTS
}

#[tactic(auto, using(crate::proofs::Rows::head_laws))]
fn head_good(book: &[u8]) -> bool
    requires { 8 ≤ length book.now }
    ensures { result ≡ head_good (words_of book.now) }
{
    let size = book.len() / 2;
    if size < HEAD {
        return false;
    }
    let n = word(book, 2);
    word(book, 3) == size
        && word(book, 0) < 65535
        && word(book, 1) < 65535
        && (1..=64).contains(&n)
        && word(book, 5) <= 1
        && HEAD + ROW * (n + word(book, 4)) <= size
        && dimension_good(word(book, 6))
}

fn row_good(low: usize, id: usize, at: usize, first: usize) -> bool
    ensures { result ≡ (leb low id and ltb id 65535 and eqb first at) }
{
    (low..65535).contains(&id) && first == at
}

// The n rows at word `from`, the first body being at word `start`: the word after the last body.
#[tactic(auto, using(crate::proofs::Rows::contents_laws))]
fn contents_end(book: &[u8], from: usize, n: usize, start: usize) -> Result<usize, Refusal>
    requires { (from + 3 * n ≤ length book.now / 2) × (start ≤ 262140) }
    ensures value { result ≡ counted (contents_end 0 start (parse_contents (words_of book.now) n from)) }
    ensures ends_low { IfOk result (λ at. at ≤ 262140) }
{
    let mut low = 0;
    let mut at = start;
    for i in 0..n {
        let w = from + ROW * i;
        let id = word(book, w);
        if !row_good(low, id, at, word(book, w + 1)) {
            return refuse(Reason::BookContents, 0);
        }
        low = id + 1;
        at += word(book, w + 2);
    }
    Ok(at)
}

// The templates' rows and then those of the lists, whose bodies end with the book.
#[tactic(auto, using(crate::proofs::Books::book_laws), unfolding(layout::specs::BookRules::check_contents))]
fn check_contents(book: &[u8]) -> Result<(), Refusal>
    requires { BookHead book.now }
    ensures { result ≡ checked (check_contents (words_of book.now)) }
{
    let n = word(book, 2);
    let k = word(book, 4);
    let rows = HEAD + ROW * n;
    let lists = contents_end(book, HEAD, n, rows + ROW * k)?;
    let end = contents_end(book, rows, k, lists)?;
    if end != book.len() / 2 {
        return refuse(Reason::BookContents, 0);
    }
    Ok(())
}

// Checks a book.
#[tactic(auto, using(crate::proofs::Books::book_laws), unfolding(layout::specs::BookRules::book_of, layout::specs::BookRules::tree_of))]
pub fn check(book: &[u8]) -> Result<(), Refusal>
    ensures { ChecksBook book.now result }
{
    if !size_good(book) {
        return refuse(Reason::BookSize, 0);
    }
    if !head_good(book) {
        return refuse(Reason::BookHead, 0);
    }
    check_contents(book)?;
    check_bodies(book)
}
