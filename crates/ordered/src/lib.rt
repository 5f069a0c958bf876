// Numbers of W octets of a message, 8 at most, in its order: as `octets` reads and stores them, least significant
// first, and turned if the order is big.
#![tactic(auto)]

ghost use Rattle.std.specs.Prelude.{◌≡◌, ◌+◌, ◌≤◌, length};
ghost use Rattle.std.proofs.lemmas.List.Edits.{sets};
ghost use Rattle.layout.specs.Octets.{octets_of};
ghost use Rattle.ordered.specs.Order.{InOrder, SpeltBy, Turned};

// The compiler makes one instruction of the loop.
#[tactic(auto, using(crate::proofs::Turns::turned_fits))]
fn turn<const W: usize>(x: u64) -> u64
    requires { W ≤ 8 }
    ensures { Turned W x result }
{
    let mut turned = 0;
    for i in 0..W {
        turned = turned * 0x100 + (x >> (8 * i)) % 0x100;
    }
    turned
}

// Here alone the order is asked.
fn order<const W: usize>(big: bool, x: u64) -> u64
    requires { W ≤ 8 }
    ensures { InOrder big W x result }
{
    if big {
        return turn::<W>(x);
    }
    x
}

pub fn get<const W: usize>(big: bool, s: &[u8], at: usize) -> u64
    requires { (W ≤ 8) × (at + W ≤ length s.now) }
    ensures { SpeltBy big W s.now at result }
{
    order::<W>(big, octets::get::<W>(s, at))
}

pub fn put<const W: usize>(big: bool, s: &mut [u8], at: usize, x: u64)
    requires { (W ≤ 8) × (at + W ≤ length s.old) }
    ensures { s.new ≡ sets s.old at (octets_of big W x) }
{
    octets::put::<W>(s, at, order::<W>(big, x));
}
