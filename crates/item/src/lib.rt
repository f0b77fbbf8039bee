// A TEMP's items: the check of all of them with their names, and the filler of list 12.
#![tactic(auto)]

ghost use Rattle.std.specs.Prelude.{◌≡◌, ◌+◌, ◌*◌, ◌≤◌, length};
ghost use Rattle.blob.specs.Reading.{run, done, many, verdict, values};
ghost use Rattle.blob.specs.Laid.{laid, flat};
ghost use Rattle.format.specs.Area.{ITEMS, width};
ghost use Rattle.format.specs.Definition.{step};
ghost use Rattle.format.specs.Item.{Item, item_name_at, item_at, items_start, items_from};
ghost use Rattle.format.specs.Lists.{item_words};

use blob::Refusal;
use format::field::{TEMPLATE_ITEM_DESCRIPTORS, TEMPLATE_ITEM_NAME, TEMPLATE_ITEM_NAME_OFFSET};
use format::list::width;

// Whether the name at an offset is fine, of an item of the TEMP that stands from `temp` to `end`.
fn check_name(b: &[u8], temp: u32, end: usize, offset: u32) -> Result<(), Refusal>
    requires { (end ≤ length b.now) × (length b.now ≤ 16777216) }
    ensures { result ≡ verdict (run (item_name_at temp end offset) b.now) }
{
    if offset < temp {
        if offset != 0 {
            return Err(bounds::offset_out(b.len(), TEMPLATE_ITEM_NAME_OFFSET, offset as usize));
        }
    }
    name::check(b, end, TEMPLATE_ITEM_NAME, offset)
}

// Whether n items stand one after another from a place on, each with its name.
fn check_row(b: &[u8], temp: u32, end: usize, start: usize, n: u32) -> Result<(), Refusal>
    requires { (start + 20 * n ≤ end) × (end ≤ length b.now) × (length b.now ≤ 16777216) }
    ensures { result ≡ verdict (run (many (item_at temp end) (step 20) n start) b.now) }
{
    for i in 0..n as usize {
        check_name(b, temp, end, blob::word(b, start + 20 * i + 16))?;
    }
    Ok(())
}

// Where the items of a TEMP start that ends at `end`.
fn items_start(end: usize, offset: u32) -> usize
    ensures { result ≡ items_start end offset }
{
    if offset == 0 {
        return end;
    }
    offset as usize
}

// Whether the n items of the TEMP from `temp` to `end` are fine, whose items offset lies in it.
pub fn check(b: &[u8], temp: u32, end: usize, n: u32, offset: u32) -> Result<(), Refusal>
    requires { (offset ≤ end) × (end ≤ length b.now) × (length b.now ≤ 16777216) }
    ensures { result ≡ verdict (run (items_from temp end n offset) b.now) }
{
    let start = items_start(end, offset);
    let needed = 20 * (n as usize);
    if end - start < needed {
        return Err(bounds::truncated(end, TEMPLATE_ITEM_DESCRIPTORS, start, needed));
    }
    check_row(b, temp, end, start, n)
}

// Stores the words of the item at a place, whose name is known to be fine; it is an item of the template with a number. Its two types
// stand as the entry has them, and so do count and length.
fn put(b: &[u8], temp: u32, end: usize, at: usize, number: u32, area: &mut [u32], to: usize)
    requires at_bound { (at + 20 ≤ end) × (end ≤ length b.now) × (length b.now ≤ 16777216) }
    requires b_value { verdict (run (item_at temp end at) b.now) ≡ Ok tt }
    requires width_in_bounds { to + width ITEMS ≤ length area.old }
    ensures { (i : Item) → run (item_at temp end at) b.now ≡ done i → area.new ≡ laid area.old to (item_words number i) }
{
    let offset = blob::word(b, at + 16);
    let name = name::name_of(b, end, TEMPLATE_ITEM_NAME, offset);
    let entry = [
        number,
        blob::word(b, at),
        blob::half(b, at + 4),
        blob::half(b, at + 6),
        blob::word(b, at + 8),
        blob::word(b, at + 12),
        offset,
        name.start,
        name.units,
        name.ended as u32,
    ];
    words::put(area, to, &entry);
}

// Stores the words of the items that `check` found fine from a place of the area on; they are those of the template with a number.
pub fn fill(
    b: &[u8],
    temp: u32,
    end: usize,
    n: u32,
    offset: u32,
    number: u32,
    area: &mut [u32],
    start: usize,
)
    requires end_in_bounds { (end ≤ length b.now) × (length b.now ≤ 16777216) }
    requires b_value { verdict (run (items_from temp end n offset) b.now) ≡ Ok tt }
    requires n_in_bounds { start + width ITEMS * n ≤ length area.old }
    ensures { area.new ≡ laid area.old start (flat (item_words number) (values (run (items_from temp end n offset) b.now))) }
{
    let at = items_start(end, offset);
    for i in 0..n as usize {
        let to = start + width::ITEMS * i;
        put(b, temp, end, at + 20 * i, number, area, to);
    }
}
