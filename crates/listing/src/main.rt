// Lists the block on standard input: one line for it, and one for each of its template entries.
#![tactic(auto)]

ghost use Rattle.std.specs.Prelude.{◌≡◌, ◌++◌, ◌+◌, ◌*◌, ◌≤◌, length};
ghost use Rattle.format.specs.Answer as spec;
ghost use Rattle.format.specs.Area.{PROVIDERS, EVENTS, TEMPLATES, width, of};
ghost use Rattle.format.specs.Listing.{listing, sixty_four as capacities};
ghost use Rattle.listing.specs.Rendered.{decimal, rendered, line as lineBytes};
ghost use Rattle.listing.specs.Put.{Put, fourfold, refusal_line, block_line, line_at, templates_at, lines_from, accepted_text, lent};

use format::Answer;
use format::entry::{
    TEMPLATE_LENGTH, TEMPLATE_OFFSET, TEMPLATE_PROVIDER, TEMPLATE_SIZE, TEMPLATE_START,
};
use format::list::{AREAS, EACH, List, row, width};

// Standard input and standard output, as the system numbers them.
const STDIN_FILENO: i32 = 0;

const STDOUT_FILENO: i32 = 1;

// The most bytes that are listed.
const MOST: usize = 65536;

// The entries of each list, and the words that their areas take.
const CAPACITY: u32 = 64;

const WORDS: usize = 64 * EACH;

// Room for the longest listing there can be: a line of at most 116 bytes, and 64 of at most 135.
const ROOM: usize = 9216;

// Puts some bytes at a place; hands back where they end.
fn put(bytes: &[u8], out: &mut [u8], at: usize) -> usize
    requires { at + length bytes.now ≤ length out.old }
    ensures { Put out.old at bytes.now result out.new }
{
    let end = at + bytes.len();
    out[at..end].copy_from_slice(bytes);
    end
}

// The same of a number in decimal.
fn put_decimal(n: u64, out: &mut [u8], at: usize) -> usize
    requires { at + 20 ≤ length out.old }
    ensures put { Put out.old at (decimal n) result out.new }
    ensures upper_bound { result ≤ at + 20 }
{
    let mut digits = [0u8; 20];
    let k = io::decimal(n, &mut digits);
    put(&digits[..k], out, at)
}

// The same of a text with a number behind it.
fn put_number(text: &[u8], n: u64, out: &mut [u8], at: usize) -> usize
    requires { at + length text.now + 20 ≤ length out.old }
    ensures put { Put out.old at (text.now ++ decimal n) result out.new }
    ensures upper_bound { result ≤ at + length text.now + 20 }
{
    let to = put(text, out, at);
    put_decimal(n, out, to)
}

// The same of a line of four numbers, each behind a text: such is the block's line, and a template's behind its offset.
fn put_line(
    a: &[u8],
    i: u64,
    b: &[u8],
    j: u64,
    c: &[u8],
    k: u64,
    d: &[u8],
    l: u64,
    out: &mut [u8],
    at: usize,
) -> usize
    requires { at + length a.now + length b.now + length c.now + length d.now + 81 ≤ length out.old }
    ensures put { Put out.old at (fourfold a.now i b.now j c.now k d.now l) result out.new }
    ensures upper_bound { result ≤ at + length a.now + length b.now + length c.now + length d.now + 81 }
{
    let to = put_number(a, i, out, at);
    let to = put_number(b, j, out, to);
    let to = put_number(c, k, out, to);
    let to = put_number(d, l, out, to);
    put(b"\n", out, to)
}

// The same of a refusal.
fn put_refusal(code: u64, place: u64, out: &mut [u8]) -> usize
    requires { 50 ≤ length out.old }
    ensures put { Put out.old 0 (lineBytes (refusal_line code place)) result out.new }
    ensures upper_bound { result ≤ 50 }
{
    let to = put_number(b"refused ", code, out, 0);
    let to = put_number(b" ", place, out, to);
    put(b"\n", out, to)
}

// The same of the line of an accepted block.
#[tactic(auto, unfolding(crate::specs::Rendered::line))]
fn put_block(size: u64, counts: [u32; AREAS], out: &mut [u8]) -> usize
    requires { 116 ≤ length out.old }
    ensures put { Put out.old 0 (lineBytes (block_line size (of PROVIDERS counts) (of EVENTS counts) (of TEMPLATES counts))) result out.new }
    ensures upper_bound { result ≤ 116 }
{
    put_line(
        b"crim ",
        size,
        b" providers ",
        counts[row::PROVIDERS] as u64,
        b" events ",
        counts[row::EVENTS] as u64,
        b" templates ",
        counts[row::TEMPLATES] as u64,
        out,
        0,
    )
}

// The same of the template entry that stands at a place of the words.
fn put_template(words: &[u32], from: usize, out: &mut [u8], at: usize) -> usize
    requires width_in_bounds { from + width TEMPLATES ≤ length words.now }
    requires at_in_bounds { at + 135 ≤ length out.old }
    ensures put { Put out.old at (lineBytes (line_at words.now from)) result out.new }
    ensures upper_bound { result ≤ at + 135 }
{
    let to = put_number(b"template ", words[from + TEMPLATE_OFFSET] as u64, out, at);
    put_line(
        b" provider ",
        words[from + TEMPLATE_PROVIDER] as u64,
        b" size ",
        words[from + TEMPLATE_SIZE] as u64,
        b" binxml ",
        words[from + TEMPLATE_START] as u64,
        b" ",
        words[from + TEMPLATE_LENGTH] as u64,
        out,
        to,
    )
}

// The same of n template entries, one behind the other.
#[tactic(auto, unfolding(format::specs::Answer::areas))]
fn put_templates(words: &[u32], n: u32, out: &mut [u8], at: usize) -> usize
    requires n_in_bounds { templates_at + width TEMPLATES * n ≤ length words.now }
    requires n_in_bounds_2 { at + 135 * n ≤ length out.old }
    ensures put { Put out.old at (rendered (lines_from words.now n templates_at)) result out.new }
    ensures upper_bound { result ≤ at + 135 * n }
{
    let from = counts::area_at([CAPACITY; AREAS], List::Templates);
    let mut to = at;
    for i in 0..n as usize {
        to = put_template(words, from + width::TEMPLATES * i, out, to);
    }
    to
}

// The same of all lines of an accepted block, by its answer and the words that it was read into.
fn put_accepted(a: Answer, words: &[u32], out: &mut [u8]) -> usize
    requires { (of TEMPLATES a.counts ≤ 64) × (lent ≤ length words.now) × (9216 ≤ length out.old) }
    ensures put { Put out.old 0 (accepted_text a words.now) result out.new }
    ensures upper_bound { result ≤ 9216 }
{
    let to = put_block(a.first, a.counts, out);
    put_templates(words, a.counts[row::TEMPLATES], out, to)
}

// Reads the block with 64 entries a list.
fn read(bytes: &[u8], words: &mut [u32]) -> Answer
    ensures { spec.Allowed bytes.now words.old capacities result words.new }
{
    manifest::read(bytes, words, [CAPACITY; AREAS])
}

// Puts the listing of some bytes; hands back where it ends. What the program promises is promised here: `main` only reads and writes.
fn list(bytes: &[u8], out: &mut [u8]) -> usize
    requires { 9216 ≤ length out.old }
    ensures put { Put out.old 0 (rendered (listing bytes.now)) result out.new }
    ensures upper_bound { result ≤ 9216 }
{
    if MOST < bytes.len() {
        return put(b"too long\n", out, 0);
    }
    let mut words = [0u32; WORDS];
    let a = read(bytes, &mut words);
    if a.code != 0 {
        return put_refusal(a.code as u64, a.place, out);
    }
    put_accepted(a, &words, out)
}

// One byte more than the most is read, so that input that is too long is seen to be.
fn main() {
    let mut bytes = [0u8; 65537];
    let n = io::read_full(STDIN_FILENO, &mut bytes);
    let mut out = [0u8; ROOM];
    let end = list(&bytes[..n], &mut out);
    io::write_all(STDOUT_FILENO, &out[..end]);
}
