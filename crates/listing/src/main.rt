// Reads from standard input a schema book behind its octet count (two octets, little-endian), and a message, which is
// the rest. Writes a line for each of the message's records, its three numbers, or `refused` with number and place. What
// cannot be written is passed over.
#![tactic(auto)]

ghost use Rattle.std.specs.Prelude.{◌≡◌, ◌+◌, ◌≤◌, ◌++◌, [], length, decimal, OnOk};
ghost use Rattle.std.specs.Io.KnownBytes.{Appends};
ghost use Rattle.layout.specs.Reasons.{number_of};
ghost use Rattle.prepared.specs.Books.{IsPrepared};
ghost use Rattle.listing.specs.Lines.{record_line, refusal_line};

use arrayvec::ArrayString;
use input::{read_count, read_full};
use itoa::Buffer;
use layout::{Reason, Refusal};
use std::fmt::Write as _;
use std::io::{Read, Write};
use std::{fmt, io};

// As many octets as are gathered at most, so that a write has many lines.
const MOST_GATHERED: usize = 65536;

type Lines = ArrayString<MOST_GATHERED>;

// A record's line has three numbers of at most 20 digits, and an octet behind each.
const LONGEST_LINE: usize = 63;

// A refusal's has a word of eight octets before two such numbers.
const WORD: usize = 8;

const LONGEST_REFUSAL: usize = 50;

type Line = ArrayString<LONGEST_REFUSAL>;

// Puts a number's digits, at most 20, and an octet that ends them behind what is gathered.
fn put_number(lines: &mut Lines, number: u64, ending: &str)
    requires one { length ending.now ≡ 1 }
    requires fits { length lines.old.bytes + 21 ≤ MOST_GATHERED }
    ensures put { lines.new.bytes ≡ lines.old.bytes ++ (decimal number ++ ending.now) }
    ensures longest { length lines.new.bytes ≤ length lines.old.bytes + 21 }
{
    lines.push_str(Buffer::new().format(number));
    lines.push_str(ending);
}

// Puts a record's line behind what is gathered.
fn put_record(lines: &mut Lines, numbers: &[u64])
    requires in_bounds { 3 ≤ length numbers.now }
    requires fits { length lines.old.bytes + LONGEST_LINE ≤ MOST_GATHERED }
    ensures put { lines.new.bytes ≡ lines.old.bytes ++ record_line numbers.now }
    ensures longest { length lines.new.bytes ≤ length lines.old.bytes + LONGEST_LINE }
{
    put_number(lines, numbers[0], " ");
    put_number(lines, numbers[1], " ");
    put_number(lines, numbers[2], "\n");
}

// Puts a refusal's line behind what is there.
fn put_refusal(line: &mut Line, refusal: Refusal) -> fmt::Result
    ensures { OnOk result (line.new.bytes ≡ line.old.bytes ++ refusal_line (number_of refusal.reason) refusal.place) }
{
    writeln!(line, "{refusal}")
}

// Writes what is gathered.
fn send<W: Write>(output: &mut W, lines: &mut Lines) -> io::Result<()>
    ensures written { OnOk result (Appends (W.contents output.old) (W.contents output.new) lines.old.bytes) }
    ensures emptied { lines.new.bytes ≡ [] }
{
    let sent = output.write_all(lines.as_bytes());
    lines.clear();
    sent
}

// Writes `count` records from the room's start, and never more than the room has.
fn show_records(output: &mut impl Write, room: &[u64], count: usize) {
    let mut lines = Lines::new();
    for record in room.chunks_exact(3).take(count) {
        if lines.remaining_capacity() < LONGEST_LINE {
            let _ = send(output, &mut lines);
        }
        put_record(&mut lines, record);
    }
    let _ = send(output, &mut lines);
}

// Writes the word and then the numbers, each passed over by itself where it cannot be written.
fn show_refusal(output: &mut impl Write, refusal: Refusal) {
    let mut line = Line::new();
    let _ = put_refusal(&mut line, refusal);
    let (word, numbers) = line.as_bytes().split_at(line.len().min(WORD));
    let _ = output.write_all(word);
    let _ = output.write_all(numbers);
}

// Lists the message that is the rest of the input by a prepared book.
fn list_rest(input: &mut impl Read, output: &mut impl Write, p: &[u64])
    requires { IsPrepared p.now }
{
    // One octet more than a message may have, so that the library sees one that is too long.
    let mut message = [0u8; 65536];
    let size = read_full(input, &mut message);
    let mut room = [0u64; 6000];
    let m = &message[..size];
    match stream::list(&p, &m, &mut room) {
        Ok(count) => show_records(output, &room, count),
        Err(refusal) => show_refusal(output, refusal),
    }
}

// Lists the message by a book, which may be any octets.
fn list_by(input: &mut impl Read, output: &mut impl Write, book: &[u8]) {
    let mut numbers = [0u64; prepare::MOST];
    match prepare::prepare_octets(book, &mut numbers) {
        Ok(n) => list_rest(input, output, &numbers[..n]),
        Err(refusal) => show_refusal(output, refusal),
    }
}

// Lists the input's message by the input's book, which is read into the room.
fn list_input(input: &mut impl Read, output: &mut impl Write, room: &mut [u8]) {
    match read_count(input) {
        Some(size) if size <= room.len() => {
            let came = read_full(input, &mut room[..size]);
            list_by(input, output, &room[..came]);
        }
        // A book that is too long, or none at all.
        _ => {
            let refusal = Refusal {
                reason: Reason::BookSize,
                place: 0,
            };
            show_refusal(output, refusal);
        }
    }
}

fn main(rt: HostRuntime) {
    // As many octets as a book may have.
    let mut room = [0u8; 8192];
    list_input(&mut rt.stdin(), &mut rt.stdout(), &mut room);
}
