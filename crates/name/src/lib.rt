// Sized names: the tests of the size word, then one pass over the text.
#![tactic(auto)]

ghost use Rattle.std.specs.Prelude.{◌≡◌, false, ◌&&◌, ◌+◌, ◌*◌, ◌≤◌, leb, ltb, length};
ghost use Rattle.blob.specs.Le.{le};
ghost use Rattle.blob.specs.Reading.{run, done, verdict};
ghost use Rattle.format.specs.Name.{text, sized, name_at};
ghost use Rattle.format.specs.Name as spec;
ghost use Rattle.format.specs.Region.{until};
ghost use Rattle.name.specs.Text.{pairs, below, lows, texted};

use blob::Refusal;
use format::Name;

// Whether a surrogate is a high one with a low one behind it; so many units are left, the surrogate among them.
fn paired(b: &[u8], at: usize, left: u32, unit: u32) -> bool
    requires { (at + 2 * left ≤ length b.now) × (unit ≡ le 2 b.now at) }
    ensures { result ≡ pairs b.now at left }
{
    if 0xDC00 <= unit {
        return false;
    }
    if left <= 1 {
        return false;
    }
    let next = blob::half(b, at + 2);
    if next < 0xDC00 {
        return false;
    }
    next < 0xE000
}

// One less than a unit. The zero unit gives more than all others together.
fn less(unit: u32) -> u64
    ensures { (result ≡ below unit) × (result ≤ 4294967295) }
{
    ((unit as u64) + 0xFFFFFFFF) % 0x100000000
}

// Whether four units are left whose sum is so low that none of them is zero or a surrogate: one comparison for all four.
fn four(b: &[u8], at: usize, left: u32) -> bool
    requires { at + 2 * left ≤ length b.now }
    ensures { result ≡ (leb 4 left && ltb (lows b.now at) 0xD7FF) }
{
    if left < 4 {
        return false;
    }
    let first = less(blob::half(b, at));
    let second = less(blob::half(b, at + 2));
    let third = less(blob::half(b, at + 4));
    let fourth = less(blob::half(b, at + 6));
    first + second + third + fourth < 0xD7FF
}

// How many of the n units behind the size word of a name stand before its zero unit, all where it has none; none where they are no UTF-16.
// First go low units, four at a time, then whatever is left, one at a time: an ordinary unit takes two comparisons; a high surrogate takes
// the unit behind it along, so that none waits from one turn to the next. So neither loop counts: a turn is one, two or four units.
fn units(b: &[u8], field: u8, offset: u32, n: u32) -> Option<u32>
    requires { (offset + 4 + 2 * n ≤ length b.now) × (length b.now ≤ 16777216) }
    ensures { run (text field offset n (offset + 4) 0 false) b.now ≡ texted field offset n result }
{
    let mut at = offset as usize + 4;
    let mut left = n;
    while four(b, at, left) {
        at += 8;
        left -= 4;
    }
    while 0 < left {
        let unit = blob::half(b, at);
        if unit < 0xD800 {
            if unit == 0 {
                return Some(n - left);
            }
        } else if unit < 0xE000 {
            if paired(b, at, left, unit) {
                at += 4;
                left -= 2;
                continue;
            }
            return None;
        }
        at += 2;
        left -= 1;
    }
    Some(n)
}

// No name.
pub fn absent() -> Name
    ensures { result ≡ spec.absent }
{
    Name {
        start: 0,
        units: 0,
        ended: false,
    }
}

// Whether the name at an offset that is not 0 is fine.
fn check_sized(b: &[u8], end: usize, field: u8, offset: u32) -> Result<(), Refusal>
    requires { (end ≤ length b.now) × (length b.now ≤ 16777216) }
    ensures { result ≡ verdict (run (sized (until end) field offset) b.now) }
{
    let at = offset as usize;
    if end < at {
        return Err(bounds::offset_out(end, field, at));
    }
    let room = end - at;
    if room < 4 {
        return Err(bounds::truncated(end, field, at, 4));
    }
    let size = blob::word(b, at);
    if size < 4 {
        return Err(bounds::size_out(field, at, size));
    }
    let needed = size as usize;
    if room < needed {
        return Err(bounds::truncated(end, field, at, needed));
    }
    if size % 2 != 0 {
        return Err(bounds::not_utf16(field, at));
    }
    let n = (size - 4) / 2;
    match units(b, field, offset, n) {
        Some(_) => Ok(()),
        None => Err(bounds::not_utf16(field, at)),
    }
}

// Whether the name at an offset is fine, in a region that ends at `end`. The callers test the blob's length first, so that a text's start
// fits 32 bits.
pub fn check(b: &[u8], end: usize, field: u8, offset: u32) -> Result<(), Refusal>
    requires { (end ≤ length b.now) × (length b.now ≤ 16777216) }
    ensures { result ≡ verdict (run (name_at (until end) field offset) b.now) }
{
    if offset == 0 {
        return Ok(());
    }
    check_sized(b, end, field, offset)
}

// The name at an offset that `check` found fine.
pub fn name_of(b: &[u8], end: usize, field: u8, offset: u32) -> Name
    requires end_in_bounds { (end ≤ length b.now) × (length b.now ≤ 16777216) }
    requires b_value { verdict (run (name_at (until end) field offset) b.now) ≡ Ok tt }
    ensures { run (name_at (until end) field offset) b.now ≡ done result }
{
    if offset == 0 {
        return absent();
    }
    let n = (blob::word(b, offset as usize) - 4) / 2;
    let found = units(b, field, offset, n).unwrap();
    Name {
        start: offset + 4,
        units: found,
        ended: found < n,
    }
}
