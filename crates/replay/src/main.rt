// Replays stored answers: each blob of the data is read again, and its answer and every lent word is held to what its record tells.
// The data is a row of records, 32-bit little-endian numbers throughout: the blob's length, its bytes (zeros behind them up to a multiple
// of four), code, field, place, first (low, high), second (low, high), a count for each list, and all words of the lists.
// Blobs, numbers of an answer and lent words are counted from 0.
#![tactic(auto)]

ghost use Rattle.std.specs.Prelude.{◌≡◌, ℕ, ◌+◌, ◌*◌, ◌≤◌, ◌<◌, length, map};
ghost use Rattle.format.specs.Area.{AREAS, WIDEST};
ghost use Rattle.replay.specs.Off.{off};

use format::list::{AREAS, List, WIDEST};
use std::array;

// Standard input and standard output, as the system numbers them. Printing by std would rest on two more functions of the C library.
const STDIN_FILENO: i32 = 0;

const STDOUT_FILENO: i32 = 1;

// The capacity of each list.
const CAPACITY: u32 = 64;

// The most words that a list has with that; and the lent words, as many for each list. What is behind the areas must be kept as well.
const LONGEST: usize = 64 * WIDEST;

const WORDS: usize = AREAS * LONGEST;

const BYTES: usize = 4 * LONGEST;

// The numbers of an answer, and the words of a record that tell them: code, field, place, first, second, and the counts.
const NUMBERS: usize = 5 + AREAS;

const TOLD: usize = 7 + AREAS;

// What the lent words hold before a blob is read.
const KEPT: u32 = 0xA5C3_5A3C;

// Puts as many little-endian words as are lent.
fn put(bytes: &[u8], to: &mut [u32])
    requires { 4 * length to.old ≤ length bytes.now }
{
    for (i, w) in to.iter_mut().enumerate() {
        *w = blob::word(bytes, 4 * i);
    }
}

// Room for the bytes of so many words.
fn buffer() -> [u8; BYTES]
    ensures { length result ≡ 4 * (64 * WIDEST) }
{
    [0; BYTES]
}

// Reads as many words as are lent; answers how many bytes of them there were.
fn fetch(to: &mut [u32]) -> usize
    requires { length to.old ≤ 64 * WIDEST }
{
    let mut buffer = buffer();
    let n = 4 * to.len();
    let got = io::read_full(STDIN_FILENO, &mut buffer[..n]);
    put(&buffer, to);
    got
}

// The words of so many entries of a list.
fn size(n: u32, list: List) -> usize
    requires { n ≤ 64 }
    ensures { result ≤ 64 * WIDEST }
{
    (n as usize) * list.width()
}

// Lays the words of n entries of a list into its area. False if the data ends before, or the area is too small.
fn fetch_list(words: &mut [u32], from: usize, n: u32, list: List) -> bool
    requires { from + 64 * WIDEST ≤ length words.old }
{
    if CAPACITY < n {
        return false;
    }
    let end = from + size(n, list);
    fetch(&mut words[from..end]) == 4 * (end - from)
}

// Lays all lists of a record.
fn fetch_lists(told: &[u32; TOLD], words: &mut [u32]) -> bool
    requires { AREAS * (64 * WIDEST) ≤ length words.old }
{
    let mut from = 0;
    for (i, list) in List::ALL.iter().enumerate() {
        if !fetch_list(words, from, told[7 + i], *list) {
            return false;
        }
        from += size(CAPACITY, *list);
    }
    true
}

// A number of two words.
fn wide(low: u32, high: u32) -> u64
    ensures { result ≡ low + 4294967296 * high }
{
    u64::from(low) + 4294967296 * u64::from(high)
}

// A number that a record tells: first and second are of two words each.
fn number(w: &[u32; TOLD], i: usize) -> u64
    requires { i < 5 + AREAS }
{
    if i < 3 {
        return wide(w[i], 0);
    }
    if i == 3 {
        return wide(w[3], w[4]);
    }
    if i == 4 {
        return wide(w[5], w[6]);
    }
    wide(w[i + 2], 0)
}

// All of them.
fn numbers(w: &[u32; TOLD]) -> [u64; NUMBERS] {
    array::from_fn(|i| number(w, i))
}

// A number that is held to another, whatever its width.
trait Unsigned: Copy {
    ghost value: { Self → ℕ };

    fn wide(self) -> u64
        ensures { result ≡ value self };
}

impl Unsigned for u32 {
    ghost value = { λ x. x };

    fn wide(self) -> u64 {
        u64::from(self)
    }
}

impl Unsigned for u64 {
    ghost value = { λ x. x };

    fn wide(self) -> u64 {
        self
    }
}

// The first place at which numbers are not right; how many there are if none is wrong.
fn first_off<T: Unsigned>(found: &[T], right: &[T]) -> usize
    requires { length found.now ≡ length right.now }
    ensures { result ≡ off (map T.value found.now) (map T.value right.now) (length found.now) 0 }
{
    for at in 0..found.len() {
        let a = found[at];
        let b = right[at];
        if a.wide() != b.wide() {
            return at;
        }
    }
    found.len()
}

// Says of which blob something is said.
fn say_blob(number: u64) {
    io::write_all(STDOUT_FILENO, b"blob ");
    io::print_decimal(STDOUT_FILENO, number);
}

// Says what differs: a number of the answer or a lent word, at its place, as it is and as it should be.
fn say(what: &[u8], place: usize, found: u64, right: u64) {
    io::write_all(STDOUT_FILENO, what);
    io::print_decimal(STDOUT_FILENO, place as u64);
    io::write_all(STDOUT_FILENO, b" is ");
    io::print_decimal(STDOUT_FILENO, found);
    io::write_all(STDOUT_FILENO, b", not ");
    io::print_decimal(STDOUT_FILENO, right);
    io::write_all(STDOUT_FILENO, b"\n");
}

// Says that the data has no whole record for a blob, or one that is too large.
fn say_broken(number: u64) {
    say_blob(number);
    io::write_all(STDOUT_FILENO, b": its record is broken\n");
}

// Says that all went well.
fn say_all(number: u64) {
    io::print_decimal(STDOUT_FILENO, number);
    io::write_all(STDOUT_FILENO, b" blobs, all as the oracle answers\n");
}

// Whether numbers of a blob are right; says of the first that is wrong what it is.
fn same<T: Unsigned>(number: u64, what: &[u8], found: &[T], right: &[T]) -> bool
    requires { length found.now ≡ length right.now }
{
    let at = first_off(found, right);
    if at < found.len() {
        say_blob(number);
        say(what, at, found[at].wide(), right[at].wide());
        return false;
    }
    true
}

// Whether a blob is read as the rest of its record tells.
fn replay_blob(number: u64, blob: &[u8]) -> bool {
    let mut told = [0u32; TOLD];
    let mut right = [KEPT; WORDS];
    if fetch(&mut told) != 4 * TOLD {
        say_broken(number);
        return false;
    }
    if !fetch_lists(&told, &mut right) {
        say_broken(number);
        return false;
    }
    let mut words = [KEPT; WORDS];
    let mut answer = [0u64; NUMBERS];
    ducatfeather::ducat_read(blob, &mut words, &[CAPACITY; AREAS], &mut answer);
    same(number, b": number ", &answer, &numbers(&told)) && same(number, b": word ", &words, &right)
}

// The bytes of a blob with the zeros behind it.
fn padded(n: u32) -> usize
    requires { n ≤ 4096 }
    ensures lower_bound { n ≤ result }
    ensures upper_bound { result ≤ 4096 }
{
    ((n as usize) + 3) / 4 * 4
}

// The same of a blob of n bytes that is yet to be fetched.
fn replay_record(number: u64, n: u32) -> bool {
    if 4096 < n {
        say_broken(number);
        return false;
    }
    let mut blob = io::buffer();
    let size = padded(n);
    if io::read_full(STDIN_FILENO, &mut blob[..size]) != size {
        say_broken(number);
        return false;
    }
    let end = n as usize;
    replay_blob(number, &blob[..end])
}

// One record; whether there may be more.
fn step(number: u64) -> bool {
    let mut length = [0u32; 1];
    let got = fetch(&mut length);
    if got == 0 {
        say_all(number);
        return false;
    }
    if got != 4 {
        say_broken(number);
        return false;
    }
    replay_record(number, length[0])
}

// Nothing says that the data ends, so the blobs are counted up to a number that no run reaches.
fn main() {
    for number in 0..u64::MAX {
        if !step(number) {
            break;
        }
    }
}
