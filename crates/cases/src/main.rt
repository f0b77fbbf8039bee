// Reads each blob of the input and prints what is answered: a line with the blob's name, code, field, place, both numbers and the
// counts, and behind that of an accepted one a line with the words of each list that has entries.
// The input is a row of records: 32-bit little-endian numbers, which are the lengths of the name and of the blob and a capacity for each
// list; 80 bytes with the name; 512 bytes with the blob.
#![tactic(auto)]

ghost use Rattle.std.specs.Prelude.{◌+◌, ◌*◌, ◌≤◌, ◌<◌, length};
ghost use Rattle.format.specs.Area.{AREAS};

use format::Answer;
use format::list::{AREAS, EACH, List};
use std::array;

// Standard input and standard output, as the system numbers them. Printing by std would rest on two more functions of the C library.
const STDIN_FILENO: i32 = 0;

const STDOUT_FILENO: i32 = 1;

// Where a record's name and its blob start, and where it ends.
const NAME: usize = 8 + 4 * AREAS;

const BLOB: usize = NAME + 80;

const RECORD: usize = BLOB + 512;

// The lent words: an area of 64 entries for each list.
const WORDS: usize = 64 * EACH;

fn say(text: &[u8], n: u64) {
    io::write_all(STDOUT_FILENO, text);
    io::print_decimal(STDOUT_FILENO, n);
}

fn say_line_end() {
    io::write_all(STDOUT_FILENO, b"\n");
}

fn say_words(words: &[u32]) {
    for n in words {
        say(b" ", u64::from(*n));
    }
}

fn say_answer(name: &[u8], a: Answer) {
    io::write_all(STDOUT_FILENO, name);
    say(b": code ", u64::from(a.code));
    say(b" field ", u64::from(a.field));
    say(b" at ", a.place);
    say(b": ", a.first);
    say(b", ", a.second);
    io::write_all(STDOUT_FILENO, b"; counts");
    say_words(&a.counts);
    say_line_end();
}

// Prints the words of a list, where it has entries.
fn say_list(list: List, words: &[u32], n: [u32; AREAS], capacities: [u32; AREAS]) {
    let from = counts::area_at(capacities, list);
    let to = from + counts::words_of(n[list.row()], list);
    if from < to && to <= words.len() {
        say(b"  list ", u64::from(list.number()));
        io::write_all(STDOUT_FILENO, b":");
        say_words(&words[from..to]);
        say_line_end();
    }
}

fn say_lists(words: &[u32], n: [u32; AREAS], capacities: [u32; AREAS]) {
    for list in List::ALL {
        say_list(list, words, n, capacities);
    }
}

fn show(name: &[u8], blob: &[u8], capacities: [u32; AREAS]) {
    let mut words = [0u32; WORDS];
    let a = manifest::read(blob, &mut words, capacities);
    say_answer(name, a);
    if a.code == 0 {
        say_lists(&words, a.counts, capacities);
    }
}

fn capacities(row: &[u8]) -> [u32; AREAS]
    requires { 8 + 4 * AREAS ≤ length row.now }
{
    array::from_fn(|i| blob::word(row, 8 + 4 * i))
}

fn say_broken() {
    io::write_all(STDOUT_FILENO, b"a record is broken\n");
}

// One record; whether there may be more.
fn show_record(row: &[u8]) -> bool
    requires { 600 + 4 * AREAS ≤ length row.now }
{
    let name = blob::word(row, 0);
    let blob = blob::word(row, 4);
    if 80 < name {
        say_broken();
        return false;
    }
    if 512 < blob {
        say_broken();
        return false;
    }
    let name_end = NAME + (name as usize);
    let blob_end = BLOB + (blob as usize);
    show(&row[NAME..name_end], &row[BLOB..blob_end], capacities(row));
    true
}

fn step() -> bool {
    let mut record = [0u8; RECORD];
    let got = io::read_full(STDIN_FILENO, &mut record);
    if got == 0 {
        return false;
    }
    if got != RECORD {
        say_broken();
        return false;
    }
    show_record(&record)
}

// No contract says that the input ends, and a loop must be seen to end: so the records are counted, up to a number that no run reaches.
fn main() {
    for _ in 0..u64::MAX {
        if !step() {
            break;
        }
    }
}
