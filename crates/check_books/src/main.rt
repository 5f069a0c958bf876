// Reads schema books from standard input, each behind its octet count (two octets, little-endian), and writes a line
// for each: `accepted`, or `refused` with number and place. It ends with its input, or after 65,536 books. What cannot be
// written is passed over.
#![tactic(auto)]

use input::{read_count, read_full};
use std::io::{Read, Write};

fn show(output: &mut impl Write, book: &[u8]) {
    match book::check(book) {
        Ok(()) => {
            let _ = output.write_all(b"accepted\n");
        }
        Err(refusal) => {
            let _ = writeln!(output, "{refusal}");
        }
    }
}

// Whether there was another book: it is read into the room and answered.
fn answer_next(input: &mut impl Read, output: &mut impl Write, room: &mut [u8]) -> bool {
    match read_count(input) {
        Some(size) if size <= room.len() => {
            let n = read_full(input, &mut room[..size]);
            show(output, &room[..n]);
            true
        }
        _ => false,
    }
}

fn main(rt: HostRuntime) {
    let mut room = [0u8; 65536];
    for _ in 0..65536usize {
        if !answer_next(&mut rt.stdin(), &mut rt.stdout(), &mut room) {
            return;
        }
    }
}
