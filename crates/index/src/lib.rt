// The event index, read back: all bytes are tested, then the words are given.
#![tactic(auto)]

ghost use Rattle.std.specs.Prelude.{◌≡◌, ◌+◌, ◌≤◌, length};
ghost use Rattle.blob.specs.Laid.{laid};
ghost use Rattle.format.specs.Answer.{too_small};
ghost use Rattle.number.specs.Number.{number_at};
ghost use Rattle.number.specs.Number as number;
ghost use Rattle.number.specs.Scan.{most};
ghost use Rattle.index.specs.Index as right;
ghost use Rattle.index.specs.Read as spec;

use blob::Refusal;
use number::Width;

// The index's number among the lists.
const INDEX: u32 = 15;

const EDITION: u32 = 1;

// The widths of a number by itself, and of an entry's numbers.
const ONE: [Width; 1] = [Width::Word];

const ENTRY: [Width; 9] = [
    Width::Word, // provider's number
    Width::Half, // identifier
    Width::Byte, // version
    Width::Byte, // channel
    Width::Byte, // level
    Width::Byte, // opcode
    Width::Half, // task
    Width::Long, // keywords
    Width::Word, // template offset
];

// A number of 32 bits, and the place behind it; or a count, and the place behind its rows.
#[derive(Clone, Copy)]
pub struct Word {
    pub value: u32,
    pub behind: usize,
}

// What an index has that was tested: the place behind its edition, how many providers, how many entries, the place behind them.
#[derive(Clone, Copy)]
pub struct Shape {
    pub at: usize,
    pub providers: u32,
    pub entries: u32,
    pub end: usize,
}

// Where reading and giving go on.
#[derive(Clone, Copy)]
pub struct Place {
    pub at: usize,
    pub to: usize,
}

// A fault, by its code and place.
fn fault(code: u8, at: usize) -> Refusal
    ensures { result ≡ number.fault code at }
{
    Refusal {
        code,
        field: 0,
        place: at as u64,
        first: 0,
        second: 0,
    }
}

// So few bytes or words are lent.
pub fn short(lent: usize) -> Refusal
    ensures { result ≡ too_small right.INDEX lent }
{
    Refusal {
        code: 9,
        field: 0,
        place: 0,
        first: INDEX as u64,
        second: lent as u64,
    }
}

// Passes the number at a place, of a width.
fn pass(bytes: &[u8], at: usize, width: Width) -> Result<usize, Refusal>
    ensures { result ≡ spec.behind_number (number_at (most width) bytes.now at) }
{
    match number::pass(bytes, at, width.most()) {
        Ok(next) => Ok(next),
        Err(f) => Err(fault(f.code(), at)),
    }
}

// The number of 32 bits at a place.
fn word_at(bytes: &[u8], at: usize) -> Result<Word, Refusal>
    ensures { result ≡ spec.word_read (number_at number.WORD bytes.now at) }
{
    pass(bytes, at, Width::Word)?;
    let n = number::read(bytes, at);
    Ok(Word {
        value: n.value as u32,
        behind: n.behind,
    })
}

// Passes a row of numbers of some widths.
fn pass_row(bytes: &[u8], at: usize, widths: &[Width]) -> Result<usize, Refusal>
    ensures { result ≡ spec.behind_row (right.row_at (spec.mosts widths.now) bytes.now at) }
{
    let mut to = at;
    for width in widths {
        to = pass(bytes, to, *width)?;
    }
    Ok(to)
}

// Passes n such rows.
fn pass_rows(bytes: &[u8], at: usize, widths: &[Width], n: u32) -> Result<usize, Refusal>
    ensures { result ≡ spec.behind_rows (right.rows_at n (spec.mosts widths.now) bytes.now at) }
{
    let mut to = at;
    for i in 0..n {
        to = pass_row(bytes, to, widths)?;
    }
    Ok(to)
}

// Passes a count and so many such rows behind it.
fn pass_counted(bytes: &[u8], at: usize, widths: &[Width]) -> Result<Word, Refusal>
    ensures { result ≡ spec.counted_read (spec.counted_at (spec.mosts widths.now) bytes.now at) }
{
    let count = word_at(bytes, at)?;
    let behind = pass_rows(bytes, count.behind, widths, count.value)?;
    Ok(Word {
        value: count.value,
        behind,
    })
}

// Tests the numbers of an index.
fn check(bytes: &[u8]) -> Result<Shape, Refusal>
    ensures { spec.Told bytes.now result }
{
    let edition = word_at(bytes, 0)?;
    if edition.value != EDITION {
        return Err(fault(17, 0));
    }
    let counts = pass_counted(bytes, edition.behind, &ONE)?;
    let entries = pass_counted(bytes, counts.behind, &ENTRY)?;
    Ok(Shape {
        at: edition.behind,
        providers: counts.value,
        entries: entries.value,
        end: entries.behind,
    })
}

// Gives a number's words: two for one of 64 bits, else one.
fn give_number(words: &mut [u32], to: usize, width: Width, number: u64) -> usize
    requires { spec.narrow (most width) number × (to + length (right.number_words (most width) number) ≤ length words.old) }
    ensures value { result ≡ to + length (right.number_words (most width) number) }
    ensures words_after { words.new ≡ laid words.old to (right.number_words (most width) number) }
{
    words[to] = (number % 4294967296) as u32;
    if let Width::Long = width {
        words[to + 1] = (number / 4294967296) as u32;
        return to + 2;
    }
    to + 1
}

// Gives the words of a row that was passed.
fn give_row(bytes: &[u8], at: usize, widths: &[Width], words: &mut [u32], to: usize) -> Place
    requires { spec.RowStands (spec.mosts widths.now) bytes.now at to (length words.old) }
    ensures { spec.RowGiven (spec.mosts widths.now) bytes.now at words.old to result words.new }
{
    let mut place = Place { at, to };
    for width in widths {
        let n = number::read(bytes, place.at);
        place = Place {
            at: n.behind,
            to: give_number(words, place.to, *width, n.value),
        };
    }
    place
}

// Gives those of n such rows.
fn give_rows(
    bytes: &[u8],
    at: usize,
    widths: &[Width],
    n: u32,
    words: &mut [u32],
    to: usize,
) -> Place
    requires { spec.RowsStand n (spec.mosts widths.now) bytes.now at to (length words.old) }
    ensures { spec.RowsGiven n (spec.mosts widths.now) bytes.now at words.old to result words.new }
{
    let mut place = Place { at, to };
    for i in 0..n {
        place = give_row(bytes, place.at, widths, words, place.to);
    }
    place
}

// Gives a count, and the words of so many rows behind it.
fn give_counted(
    bytes: &[u8],
    at: usize,
    widths: &[Width],
    n: u32,
    words: &mut [u32],
    to: usize,
) -> Place
    requires { spec.CountedStands n (spec.mosts widths.now) bytes.now at to (length words.old) }
    ensures { spec.CountedGiven (spec.mosts widths.now) bytes.now at words.old to result words.new }
{
    let place = give_rows(bytes, at, &ONE, 1, words, to);
    give_rows(bytes, place.at, widths, n, words, place.to)
}

// Gives all words of an index that was tested.
fn give(bytes: &[u8], words: &mut [u32], shape: Shape)
    requires { spec.Stands bytes.now shape (length words.old) }
    ensures { words.new ≡ laid words.old 0 (spec.words_of bytes.now) }
{
    let place = give_counted(bytes, shape.at, &ONE, shape.providers, words, 0);
    give_counted(bytes, place.at, &ENTRY, shape.entries, words, place.to);
}

// Reads an index: every number after the edition, into lent words.
pub fn read(bytes: &[u8], words: &mut [u32]) -> Result<usize, Refusal>
    ensures { right.AllowedRead bytes.now words.old result words.new }
{
    let shape = check(bytes)?;
    let needed = 2 + (shape.providers as usize) + 10 * (shape.entries as usize);
    if shape.end != bytes.len() {
        return Err(fault(18, shape.end));
    }
    if words.len() < needed {
        return Err(short(words.len()));
    }
    give(bytes, words, shape);
    Ok(needed)
}
