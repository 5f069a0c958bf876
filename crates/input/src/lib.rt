// Reading an input in whole parts, for the programs.
#![tactic(auto)]

ghost use Rattle.std.specs.Prelude.{◌≡◌, ℕ, ◌≤◌, List, IfSome, length, take};
ghost use Rattle.std.specs.Io.KnownBytes.{Consumes};
ghost use Rattle.layout.specs.Octets.{number_of};

use std::io::Read;

// Reads until `room` is full or the input ends, or fails, which counts as its end: how many octets came. They stand
// from the room's start, and are those that the input gave, where it is known what it gives.
pub fn read_full<R: Read>(input: &mut R, room: &mut [u8]) -> usize
    ensures in_bounds { result ≤ length room.new }
    ensures bytes { Consumes (R.remaining input.old) (R.remaining input.new) (take result room.new) }
{
    let mut came = 0;
    // A `while`, since how many octets a read gives is the input's to say.
    while came < room.len() {
        match input.read(&mut room[came..]) {
            Ok(0) => break,
            Ok(count) => came += count,
            Err(_) => break,
        }
    }
    came
}

// The count that is next, of two octets, the least significant first; nothing where the input ends within it.
pub fn read_count<R: Read>(input: &mut R) -> Option<usize>
    ensures { IfSome result (λ count. (octets : List ℕ) × (length octets ≡ 2) × (count ≡ number_of octets)
        × Consumes (R.remaining input.old) (R.remaining input.new) octets) }
{
    let mut count = [0u8; 2];
    if read_full(input, &mut count) < 2 {
        return None;
    }
    Some(octets::get::<2>(&count, 0) as usize)
}
