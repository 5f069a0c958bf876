// An answer as a record of a listing, three 64-bit numbers; and a listing whose records are read.
#![tactic(auto)]

ghost use Rattle.std.specs.Prelude.{◌≡◌, ◌+◌, ◌*◌, ◌/◌, ◌^◌, ◌<◌, ◌≤◌, length, [], ◌∷◌, eqb};
ghost use Rattle.std.proofs.lemmas.List.Edits.{sets};
ghost use Rattle.layout.specs.Values.{record_of};
ghost use Rattle.layout.specs.Writing.{first, is_there, second, third};
ghost use Rattle.records.specs.Kinds.{kind_number};

use layout::Answer;

// What a record tells, by its first number.
#[derive(Clone, Copy)]
pub enum Kind {
    Number = 0,
    Null = 1,
    Octets = 2,
    Absent = 3,
    Group = 4,
    OutOfRange = 5,
    Unlisted = 6,
}

fn put_three(room: &mut [u64], n: usize, kind: Kind, a: u64, b: u64)
    requires { n + 3 ≤ length room.old }
    ensures { room.new ≡ sets room.old n (kind_number kind ∷ a ∷ b ∷ []) }
{
    room[n] = kind as u64;
    room[n + 1] = a;
    room[n + 2] = b;
}

// The record of an answer, stored from number n on.
#[tactic(auto, unfolding(layout::specs::Values::record_of))]
pub fn put(room: &mut [u64], n: usize, answer: Answer)
    requires { n + 3 ≤ length room.old }
    ensures { room.new ≡ sets room.old n (record_of answer) }
{
    match answer {
        Answer::Number(x) => put_three(room, n, Kind::Number, x, 0),
        Answer::Null => put_three(room, n, Kind::Null, 0, 0),
        Answer::Octets { start, len } => put_three(room, n, Kind::Octets, start as u64, len as u64),
        Answer::Absent => put_three(room, n, Kind::Absent, 0, 0),
        Answer::Group(entries) => put_three(room, n, Kind::Group, entries, 0),
        Answer::OutOfRange(x) => put_three(room, n, Kind::OutOfRange, x, 0),
        Answer::Unlisted(x) => put_three(room, n, Kind::Unlisted, x, 0),
    }
}

// A listing to be written by a prepared book: its records' numbers, and the pool that their starts refer to.
#[derive(Clone, Copy)]
pub struct Listing<'a> {
    pub book: &'a [u64],
    pub numbers: &'a [u64],
    pub pool: &'a [u8],
}

impl Listing<'_> {
    // Whether record i is there.
    pub fn has(&self, i: usize) -> bool
        ensures { result ≡ is_there self.now.numbers.now i }
    {
        i < self.numbers.len() / 3
    }

    // Whether record i is of this kind.
    pub fn is(&self, i: usize, kind: Kind) -> bool
        requires { 3 * i + 3 ≤ length self.now.numbers.now }
        ensures { result ≡ eqb (first self.now.numbers.now i) (kind_number kind) }
    {
        self.numbers[3 * i] == kind as u64
    }

    // The other two numbers of record i.
    pub fn second(&self, i: usize) -> u64
        requires { 3 * i + 3 ≤ length self.now.numbers.now }
        ensures { result ≡ second self.now.numbers.now i }
    {
        self.numbers[3 * i + 1]
    }

    pub fn third(&self, i: usize) -> u64
        requires { 3 * i + 3 ≤ length self.now.numbers.now }
        ensures { result ≡ third self.now.numbers.now i }
    {
        self.numbers[3 * i + 2]
    }
}
