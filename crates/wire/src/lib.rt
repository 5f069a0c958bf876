// What stands in a message whatever the book's templates: the header, the numbers of a dimension, data. `big` is the
// order of the message's numbers.
#![tactic(auto)]

ghost use Rattle.std.specs.Prelude.{◌≡◌, ◌+◌, ◌≤◌, ltb, length};
ghost use Rattle.layout.specs.Operations.{told};
ghost use Rattle.layout.specs.Message.{read_data};
ghost use Rattle.layout.specs.Result.{◌and◌};
ghost use Rattle.octets.specs.Spelt.{Spelt};
ghost use Rattle.ordered.specs.Order.{SpeltBy};
ghost use Rattle.wire.specs.Walks.{data_end, Inside};
ghost use Rattle.wire.specs.Headers.{ChecksHeader, IsHeader};

use layout::{Reason, Refusal, refuse};

// The length of the data that stands at `at`.
pub fn data_length(big: bool, m: &[u8], at: usize) -> usize
    requires { at + 2 ≤ length m.now }
    ensures { SpeltBy big 2 m.now at result }
{
    ordered::get::<2>(big, m, at) as usize
}

// The octet after the data at `at`: its length and that many octets.
#[tactic(auto, using(crate::proofs::Steps::steps), unfolding(layout::specs::Message::read_data, crate::specs::Walks::Inside))]
fn data_in(big: bool, m: &[u8], at: usize) -> Result<usize, Refusal>
    requires { at ≤ length m.now }
    ensures value { result ≡ told data_end (read_data big m.now at) }
    ensures inside { Inside (length m.now) at result }
{
    let left = m.len() - at;
    if left < 2 {
        return refuse(Reason::PastTheEnd, at);
    }
    let n = data_length(big, m, at);
    if 65535 <= n {
        return refuse(Reason::DataLengthNull, at);
    }
    if left - 2 < n {
        return refuse(Reason::PastTheEnd, at);
    }
    Ok(at + 2 + n)
}

// The same. Here and below the compiler makes a path of its own for each order, so that a number is read as it stands
// or turned, and not both.
pub fn read_data(big: bool, m: &[u8], at: usize) -> Result<usize, Refusal>
    requires { at ≤ length m.now }
    ensures value { result ≡ told data_end (read_data big m.now at) }
    ensures inside { Inside (length m.now) at result }
{
    if big {
        return data_in(true, m, at);
    }
    data_in(false, m, at)
}

// The first two numbers of a dimension: the octets of a block, and the entries.
#[derive(Clone, Copy)]
pub struct Sizes {
    pub length: usize,
    pub entries: usize,
}

impl Sizes {
    // Whether neither is 65535.
    #[tactic(auto, using(crate::proofs::Steps::steps))]
    pub fn are_whole(self) -> bool
        ensures { result ≡ (ltb self.length 65535 and ltb self.entries 65535) }
    {
        self.length < 65535 && self.entries < 65535
    }
}

fn sizes_in(big: bool, m: &[u8], at: usize) -> Sizes
    requires { at + 4 ≤ length m.now }
    ensures { SpeltBy big 2 m.now at result.length
        × SpeltBy big 2 m.now (at + 2) result.entries }
{
    Sizes {
        length: ordered::get::<2>(big, m, at) as usize,
        entries: ordered::get::<2>(big, m, at + 2) as usize,
    }
}

// The two that stand at `at`, whatever they say, by a path for each order.
pub fn sizes_at(big: bool, m: &[u8], at: usize) -> Sizes
    requires { at + 4 ≤ length m.now }
    ensures { SpeltBy big 2 m.now at result.length
        × SpeltBy big 2 m.now (at + 2) result.entries }
{
    if big {
        return sizes_in(true, m, at);
    }
    sizes_in(false, m, at)
}

// The same two numbers as one, the least significant octet first, whatever the order: to be compared as they stand.
pub fn octets_at(m: &[u8], at: usize) -> usize
    requires { at + 4 ≤ length m.now }
    ensures { Spelt 4 m.now at result }
{
    octets::get::<4>(m, at) as usize
}

// The numbers of a header.
#[derive(Clone, Copy)]
pub struct Header {
    pub length: usize,
    pub template: usize,
    pub schema: usize,
    pub version: usize,
    pub groups: usize,
    pub datas: usize,
}

// The header that a message starts with, whatever it says.
fn header_in(big: bool, m: &[u8]) -> Header
    requires { 12 ≤ length m.now }
    ensures { IsHeader big m.now result }
{
    Header {
        length: ordered::get::<2>(big, m, 0) as usize,
        template: ordered::get::<2>(big, m, 2) as usize,
        schema: ordered::get::<2>(big, m, 4) as usize,
        version: ordered::get::<2>(big, m, 6) as usize,
        groups: ordered::get::<2>(big, m, 8) as usize,
        datas: ordered::get::<2>(big, m, 10) as usize,
    }
}

// The same, by a path for each order.
pub fn header_of(big: bool, m: &[u8]) -> Header
    requires { 12 ≤ length m.now }
    ensures { IsHeader big m.now result }
{
    if big {
        return header_in(true, m);
    }
    header_in(false, m)
}

impl Header {
    // Whether its numbers are good up to the template id: 11 and 12.
    #[tactic(auto, using(crate::proofs::Steps::steps), unfolding(layout::specs::Message::check_header, layout::specs::Message::header_whole))]
    pub fn check(self, schema: usize) -> Result<(), Refusal>
        ensures { ChecksHeader self schema result }
    {
        if 65535 <= self.length {
            return refuse(Reason::HeaderNull, 0);
        }
        if 65535 <= self.template {
            return refuse(Reason::HeaderNull, 2);
        }
        if 65535 <= self.schema {
            return refuse(Reason::HeaderNull, 4);
        }
        if 65535 <= self.version {
            return refuse(Reason::HeaderNull, 6);
        }
        if 65535 <= self.groups {
            return refuse(Reason::HeaderNull, 8);
        }
        if 65535 <= self.datas {
            return refuse(Reason::HeaderNull, 10);
        }
        if self.schema == schema {
            return Ok(());
        }
        refuse(Reason::SchemaDiffers, 4)
    }
}
