// TTBL's templates: the check of a table's TEMPs with their items, and the fillers of lists 9 and 12.
#![tactic(auto)]

ghost use Rattle.std.specs.Prelude.{◌≡◌, ◌+◌, ◌*◌, ◌≤◌, length, List};
ghost use Rattle.blob.specs.Le.{le};
ghost use Rattle.blob.specs.Reading.{run, many, verdict, values};
ghost use Rattle.blob.specs.Laid.{laid, flat};
ghost use Rattle.format.specs.Area.{TEMPLATES, ITEMS, width};
ghost use Rattle.format.specs.Field.{table_size};
ghost use Rattle.format.specs.Region.{until, end, region_at, end_read};
ghost use Rattle.format.specs.Table.{TTBL};
ghost use Rattle.format.specs.Template.{items_of, items_at, template_fields, template_at, next, templates_at};
ghost use Rattle.format.specs.Item.{Item};
ghost use Rattle.format.specs.Lists.{template_words, item_list};
ghost use Rattle.format.specs.Steps.Needs.{item_count, templates_read};
ghost use Rattle.template.specs.Temp.{binxml_length, template_of};

use blob::Refusal;
use format::field::{
    TEMP_HEADER, TEMP_ITEM_NAME_COUNT_EXPECTED_0, TEMP_SIZE, TEMP_TEMPLATE_ITEMS_OFFSET,
    TEMP_TEMPLATE_ITEMS_OFFSET_RELATIVE, TTBL_SIZE,
};
use format::list::width;
use format::signature::TEMP;
use format::{BlobPlace, Header, Items, TemplatePlace};
use words::guid_at;

// Where a TEMP's items stand, from the TEMP's place, its size and its items offset.
fn items_of(temp: BlobPlace, size: u32, offset: BlobPlace) -> Items
    ensures { result ≡ items_of temp size offset }
{
    if offset.0 == 0 {
        return Items::At(TemplatePlace(size));
    }
    if offset.0 < temp.0 {
        return Items::Before(offset);
    }
    let from = offset.0 - temp.0;
    if from <= size {
        return Items::At(TemplatePlace(from));
    }
    Items::Past(TemplatePlace(from))
}

// Whether the items of a TEMP of some size stand in it. One past its end is told from the TEMP's start, against its size.
fn items_at(b: &[u8], size: u32, items: Items) -> Result<(), Refusal>
    ensures { result ≡ verdict (run (items_at size items) b.now) }
{
    match items {
        Items::At(_) => Ok(()),
        Items::Before(p) => Err(bounds::offset_out(
            b.len(),
            TEMP_TEMPLATE_ITEMS_OFFSET,
            p.0 as usize,
        )),
        Items::Past(t) => Err(bounds::offset_out(
            size as usize,
            TEMP_TEMPLATE_ITEMS_OFFSET_RELATIVE,
            t.0 as usize,
        )),
    }
}

// Whether the counts and the items of a TEMP are right, whose size is.
fn check_fields(b: &[u8], at: usize, size: u32) -> Result<(), Refusal>
    requires { (at + 40 ≤ length b.now) × (at + size ≤ length b.now) × (length b.now ≤ 16777216) }
    ensures { result ≡ verdict (run (template_fields at size) b.now) }
{
    let descriptors = blob::word(b, at + 8);
    let names = blob::word(b, at + 12);
    if descriptors == 0 && names != 0 {
        return Err(bounds::count_out(TEMP_ITEM_NAME_COUNT_EXPECTED_0, at + 12, names));
    }
    let offset = blob::word(b, at + 16);
    let temp = at as u32;
    items_at(b, size, items_of(BlobPlace(temp), size, BlobPlace(offset)))?;
    // Without items nothing can be wrong with them: the call, which TEMPs in a row would notice, is not made.
    if descriptors == 0 {
        return Ok(());
    }
    item::check(b, temp, at + size as usize, descriptors, offset)
}

// Whether a TEMP of some size is right whose header stands in a region.
fn check_temp(b: &[u8], end: usize, at: usize, size: u32) -> Result<(), Refusal>
    requires at_bound { (at + 40 ≤ end) × (end ≤ length b.now) × (length b.now ≤ 16777216) }
    requires size_value { size ≡ le 4 b.now (at + 4) }
    ensures { result ≡ verdict (run (template_at (until end) at) b.now) }
{
    let found = blob::word(b, at);
    if found != TEMP {
        return Err(bounds::wrong_signature(at, TEMP, found));
    }
    if size < 40 {
        return Err(bounds::size_out(TEMP_SIZE, at, size));
    }
    if end - at < size as usize {
        return Err(bounds::size_out(TEMP_SIZE, at, size));
    }
    check_fields(b, at, size)
}

// Whether n TEMPs stand one after another from a place of a region on, and how many items they have. The step is the size of the TEMP
// before, where this one's is the same, so that the processor need not wait for the word that it reads; where not, it is the new one and
// the TEMP is looked at again. (With a `continue` for the `else`, the compiler steps by the word again. No
// `for`: where the next TEMP stands hangs on what was read.)
fn check_until(b: &[u8], end: usize, start: usize, n: u32) -> Result<u32, Refusal>
    requires { (start ≤ end) × (end ≤ length b.now) × (length b.now ≤ 16777216) }
    ensures { result ≡ templates_read (run (many (template_at (until end)) next n start) b.now) }
{
    let mut at = start;
    let mut left = n;
    let mut same = 0;
    let mut items = 0;
    while 0 < left {
        if end - at < 40 {
            return Err(bounds::truncated(end, TEMP_HEADER, at, 40));
        }
        let size = blob::word(b, at + 4);
        if size == same {
            check_temp(b, end, at, same)?;
            items = bounds::sum(items, blob::word(b, at + 8));
            at += same as usize;
            left -= 1;
        } else {
            same = size;
        }
    }
    Ok(items)
}

// Whether the TEMPs of the TTBL whose header stands at a place are right, and how many items they have, where it stops rising at 65,537.
pub fn check(b: &[u8], at: usize, h: Header) -> Result<u32, Refusal>
    requires { (at + 12 ≤ length b.now) × (length b.now ≤ 16777216) }
    ensures { result ≡ templates_read (run (templates_at at h) b.now) }
{
    let end = bounds::region_end(b, TTBL_SIZE, at, h.size, 12)?;
    check_until(b, end, at + 12, h.count)
}

// How long the BinXML of a TEMP is: from its start to the items, which stand at the TEMP's end where their offset is 0.
fn binxml(start: BlobPlace, size: u32, offset: BlobPlace) -> u32
    requires { 40 ≤ size }
    ensures { result ≡ binxml_length start.0 size offset.0 }
{
    if offset.0 == 0 {
        return size - 40;
    }
    if offset.0 < start.0 {
        return 0;
    }
    offset.0 - start.0
}

// Stores the words of a TEMP of some size that `check_temp` found fine, with its provider's number, from a place of the area on.
fn put(b: &[u8], at: usize, size: u32, provider: u32, area: &mut [u32], to: usize)
    requires at_in_bounds { (at + 40 ≤ length b.now) × (length b.now ≤ 16777216) × (40 ≤ size) }
    requires width_in_bounds { to + width TEMPLATES ≤ length area.old }
    ensures { (is : List Item) → area.new ≡ laid area.old to (template_words provider (template_of b.now at size is)) }
{
    let temp = at as u32;
    let start = temp + 40;
    let items = blob::word(b, at + 16);
    let g = guid_at(b, at + 24);
    let entry = [
        provider,
        temp,
        size,
        blob::word(b, at + 8),
        blob::word(b, at + 12),
        items,
        blob::word(b, at + 20),
        g.a,
        g.b,
        g.c,
        g.d,
        start,
        binxml(BlobPlace(start), size, BlobPlace(items)),
    ];
    words::put(area, to, &entry);
}

// Stores the words of n TEMPs that `check_until` found fine, of the provider with a number. It steps as that does: by the size that it
// reads, and a turn that takes a new size stores nothing, so that no count tells the turns.
fn fill_until(b: &[u8], end: usize, start: usize, n: u32, provider: u32, area: &mut [u32])
    requires start_le_end { (start ≤ end) × (end ≤ length b.now) × (length b.now ≤ 16777216) }
    requires n_in_bounds { width TEMPLATES * n ≤ length area.old }
    requires b_value { verdict (run (many (template_at (until end)) next n start) b.now) ≡ Ok tt }
    ensures { area.new ≡ laid area.old 0 (flat (template_words provider) (values (run (many (template_at (until end)) next n start) b.now))) }
{
    let mut at = start;
    let mut left = n;
    let mut same = 0;
    let mut to = 0;
    while 0 < left {
        let size = blob::word(b, at + 4);
        if size == same {
            put(b, at, same, provider, area, to);
            at += same as usize;
            left -= 1;
            to += width::TEMPLATES;
        } else {
            same = size;
        }
    }
}

// Where the region of a TTBL ends that `check` found fine.
fn region_of(b: &[u8], at: usize, h: Header) -> usize
    requires at_in_bounds { (at + 12 ≤ length b.now) × (length b.now ≤ 16777216) }
    requires b_value { verdict (run (templates_at at h) b.now) ≡ Ok tt }
    ensures { Ok result ≡ end_read (end (length b.now)) (run (region_at (table_size TTBL) at h.size 12) b.now) }
{
    bounds::region_end(b, TTBL_SIZE, at, h.size, 12).unwrap()
}

// Stores the words of the TEMPs of a TTBL that `check` found fine, of the provider with a number.
pub fn fill(b: &[u8], at: usize, h: Header, provider: u32, area: &mut [u32])
    requires at_in_bounds { (at + 12 ≤ length b.now) × (length b.now ≤ 16777216) }
    requires count_in_bounds { width TEMPLATES * h.count ≤ length area.old }
    requires b_value { verdict (run (templates_at at h) b.now) ≡ Ok tt }
    ensures { area.new ≡ laid area.old 0 (flat (template_words provider) (values (run (templates_at at h) b.now))) }
{
    fill_until(b, region_of(b, at, h), at + 12, h.count, provider, area);
}

// Stores the words of the items of n TEMPs that `check_until` found fine, the first of which is the template with a number; hands back how
// many words they are.
fn fill_items_until(
    b: &[u8],
    end: usize,
    start: usize,
    n: u32,
    first: u32,
    area: &mut [u32],
) -> usize
    requires start_le_end { (start ≤ end) × (end ≤ length b.now) × (length b.now ≤ 16777216) × (first + n ≤ 65536) }
    requires b_value { verdict (run (many (template_at (until end)) next n start) b.now) ≡ Ok tt }
    requires b_in_bounds { width ITEMS * item_count (values (run (many (template_at (until end)) next n start) b.now)) ≤ length area.old }
    ensures value { result ≡ width ITEMS * item_count (values (run (many (template_at (until end)) next n start) b.now)) }
    ensures area_after { area.new ≡ laid area.old 0 (flat (λ e. e) (item_list first (values (run (many (template_at (until end)) next n start) b.now)))) }
{
    let mut at = start;
    let mut to = 0;
    for number in first..first + n {
        let behind = at + blob::word(b, at + 4) as usize;
        let items = blob::word(b, at + 8);
        item::fill(
            b,
            at as u32,
            behind,
            items,
            blob::word(b, at + 16),
            number,
            area,
            to,
        );
        at = behind;
        to += width::ITEMS * (items as usize);
    }
    to
}

// Stores the words of the items of a TTBL that `check` found fine, the first of whose templates has a number.
pub fn fill_items(b: &[u8], at: usize, h: Header, first: u32, area: &mut [u32]) -> usize
    requires at_in_bounds { (at + 12 ≤ length b.now) × (length b.now ≤ 16777216) × (first + h.count ≤ 65536) }
    requires b_value { verdict (run (templates_at at h) b.now) ≡ Ok tt }
    requires b_in_bounds { width ITEMS * item_count (values (run (templates_at at h) b.now)) ≤ length area.old }
    ensures value { result ≡ width ITEMS * item_count (values (run (templates_at at h) b.now)) }
    ensures area_after { area.new ≡ laid area.old 0 (flat (λ e. e) (item_list first (values (run (templates_at at h) b.now)))) }
{
    fill_items_until(b, region_of(b, at, h), at + 12, h.count, first, area)
}
