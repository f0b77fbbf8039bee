// MAPS: the reader of a map, the check of a MAPS with its count of entries, and the fillers of lists 7 and 8.
#![tactic(auto)]

ghost use Rattle.std.specs.Prelude.{◌≡◌, ◌+◌, ◌-◌, ◌*◌, ◌≤◌, min, eqb, length};
ghost use Rattle.blob.specs.Laid.{laid, flat};
ghost use Rattle.blob.specs.Reading.{run, verdict, values, choose};
ghost use Rattle.format.specs.Area.{MAPS, ENTRIES, width};
ghost use Rattle.format.specs.Field.{VMAP_map_string};
ghost use Rattle.format.specs.Region.{blob_end, until};
ghost use Rattle.format.specs.Map.{value_map_at, other_map, map_at, maps_at, map_read};
ghost use Rattle.format.specs.Steps.Needs.{entry_count, maps_read};
ghost use Rattle.format.specs.Lists.{map_words, map_entry_words, map_list};
ghost use Rattle.format.specs.Name as name;
ghost use Rattle.format.specs.Name.{name_at};
ghost use Rattle.map.specs.Decides.{value_map, named_map, entry, entries};
ghost use Rattle.map.specs.Listed.{listed_at, listed};

use blob::Refusal;
use format::field::{
    MAPS_MAP_OFFSET, MAPS_MAP_SIGNATURE, MAPS_OFFSETS_ARRAY, MAPS_SIZE, VMAP_ENTRIES_ARRAY,
    VMAP_HEADER, VMAP_MAP_STRING, VMAP_SIZE, VMAP_SIZE_FIELD,
};
use format::kind::{BIT_MAP, OTHER_MAP, VALUE_MAP};
use format::list::width;
use format::signature::{BMAP, VMAP};
use format::{Header, Map, Name};
use name::absent;

// How many of so many bytes from a place on lie before an end.
fn cut(most: u32, at: usize, end: usize) -> u32
    ensures { result ≡ min most (end - at) }
{
    if end < at {
        return 0;
    }
    if end - at < most as usize {
        return (end - at) as u32;
    }
    most
}

// The one where two words are the same, else the other.
fn pick(x: u32, y: u32, one: u32, other: u32) -> u32
    ensures { result ≡ choose (eqb x y) one other }
{
    if x == y {
        return one;
    }
    other
}

// A VMAP whose entries its size holds.
fn value_map(at: usize, size: u32, string: u32, count: u32, name: Name) -> Map
    requires { (at + size ≤ 16777216) × (16 + 8 * count ≤ size) }
    ensures { result ≡ value_map at size string count name }
{
    let offset = at as u32;
    Map {
        kind: VALUE_MAP,
        signature: VMAP,
        offset,
        size,
        string,
        name,
        count,
        start: offset + 16 + 8 * count,
        length: size - (16 + 8 * count),
    }
}

// The same with the name that its string offset tells.
fn named_map(b: &[u8], at: usize, size: u32, string: u32, count: u32) -> Result<Map, Refusal>
    requires { (at + size ≤ length b.now) × (length b.now ≤ 16777216) × (16 + 8 * count ≤ size) }
    ensures { result ≡ named_map at size string count (run (name_at blob_end VMAP_map_string string) b.now) }
{
    name::check(b, b.len(), VMAP_MAP_STRING, string)?;
    let name = name::name_of(b, b.len(), VMAP_MAP_STRING, string);
    Ok(value_map(at, size, string, count, name))
}

// The VMAP at a place where a signature stands.
fn value_map_at(b: &[u8], end: usize, at: usize) -> Result<Map, Refusal>
    requires { (at + 4 ≤ length b.now) × (end ≤ length b.now) × (length b.now ≤ 16777216) }
    ensures { result ≡ map_read (run (value_map_at (until end) at) b.now) }
{
    if b.len() - at < 8 {
        return Err(bounds::truncated(b.len(), VMAP_SIZE_FIELD, at, 8));
    }
    let size = blob::word(b, at + 4);
    let bytes = cut(size, at, end);
    if bytes < 16 {
        return Err(Refusal {
            code: 1,
            field: VMAP_HEADER,
            place: at as u64,
            first: 16,
            second: bytes as u64,
        });
    }
    if bytes < size {
        return Err(bounds::size_out(VMAP_SIZE, at, size));
    }
    let string = blob::word(b, at + 8);
    let count = blob::word(b, at + 12);
    if (size as usize) < 16 + 8 * (count as usize) {
        return Err(bounds::size_out(VMAP_ENTRIES_ARRAY, at, size));
    }
    named_map(b, at, size, string, count)
}

// A map that is no VMAP.
fn other_map(end: usize, at: usize, signature: u32) -> Map
    requires { at ≤ 16777216 }
    ensures { result ≡ (other_map (until end) at signature).map }
{
    Map {
        kind: pick(signature, BMAP, BIT_MAP, OTHER_MAP),
        signature,
        offset: at as u32,
        size: 0,
        string: 0,
        name: absent(),
        count: 0,
        start: at as u32,
        length: cut(4, at, end),
    }
}

// The map at a place, in a region that ends at `end`.
fn map_at(b: &[u8], end: usize, at: usize) -> Result<Map, Refusal>
    requires { (end ≤ length b.now) × (length b.now ≤ 16777216) }
    ensures { result ≡ map_read (run (map_at (until end) at) b.now) }
{
    if b.len() < at {
        return Err(bounds::offset_out(b.len(), MAPS_MAP_OFFSET, at));
    }
    if b.len() - at < 4 {
        return Err(bounds::truncated(b.len(), MAPS_MAP_SIGNATURE, at, 4));
    }
    let signature = blob::word(b, at);
    if signature == VMAP {
        return value_map_at(b, end, at);
    }
    Ok(other_map(end, at, signature))
}

// The map whose offset word stands at a place. The offsets start behind a word that is not read: it stands for map 0, which comes first
// behind the offsets.
fn listed_at(b: &[u8], end: usize, start: usize, first: usize, place: usize) -> Result<Map, Refusal>
    requires { (end ≤ length b.now) × (place + 4 ≤ length b.now) × (length b.now ≤ 16777216) }
    ensures { result ≡ map_read (run (listed_at end start first place) b.now) }
{
    if place == start {
        return map_at(b, end, first);
    }
    map_at(b, end, blob::word(b, place) as usize)
}

// How many entries the maps have, n offsets from `start` on, the first of them that of map 0.
fn counted(b: &[u8], end: usize, start: usize, n: u32) -> Result<u32, Refusal>
    requires { (end ≤ length b.now) × (start + 4 * n ≤ length b.now) × (length b.now ≤ 16777216) }
    ensures { result ≡ maps_read (run (listed end start n) b.now) }
{
    let first = start + 4 * (n as usize);
    let mut entries = 0;
    for i in 0..n as usize {
        let m = listed_at(b, end, start, first, start + 4 * i)?;
        entries = bounds::sum(entries, m.count);
    }
    Ok(entries)
}

// Whether the MAPS whose header stands at a place is fine, and how many entries its maps have.
pub fn check(b: &[u8], at: usize, h: Header) -> Result<u32, Refusal>
    requires { (at + 16 ≤ length b.now) × (length b.now ≤ 16777216) }
    ensures { result ≡ maps_read (run (maps_at at h) b.now) }
{
    let end = bounds::region_end(b, MAPS_SIZE, at, h.size, 16)?;
    if b.len() < at + 12 + 4 * (h.count as usize) {
        return Err(bounds::size_out(MAPS_OFFSETS_ARRAY, at, h.size));
    }
    counted(b, end, at + 12, h.count)
}

// Stores a map's words from a place of the area on; so many entries were stored before its own.
fn put_map(area: &mut [u32], to: usize, before: u32, m: Map)
    requires { to + width MAPS ≤ length area.old }
    ensures { area.new ≡ laid area.old to (map_words before m) }
{
    let first = pick(m.kind, VALUE_MAP, before, 0);
    let entry = [
        m.kind,
        m.signature,
        m.offset,
        m.size,
        m.string,
        m.name.start,
        m.name.units,
        first,
        m.count,
        m.start,
        m.length,
        m.name.ended as u32,
    ];
    words::put(area, to, &entry);
}

// Stores the words of n maps; so many entries were stored before theirs, and so many with theirs.
fn put_maps(b: &[u8], end: usize, start: usize, n: u32, before: u32, area: &mut [u32]) -> u32
    requires end_in_bounds { (end ≤ length b.now) × (start + 4 * n ≤ length b.now) × (length b.now ≤ 16777216) }
    requires b_value { verdict (run (listed end start n) b.now) ≡ Ok tt }
    requires n_in_bounds { width MAPS * n ≤ length area.old }
    requires b_bound { before + entry_count (values (run (listed end start n) b.now)) ≤ 65536 }
    ensures value { result ≡ before + entry_count (values (run (listed end start n) b.now)) }
    ensures area_after { area.new ≡ laid area.old 0 (flat (λ e. e) (map_list before (values (run (listed end start n) b.now)))) }
{
    let first = start + 4 * (n as usize);
    let mut entries = before;
    for i in 0..n as usize {
        let m = listed_at(b, end, start, first, start + 4 * i).unwrap();
        put_map(area, width::MAPS * i, entries, m);
        entries += m.count;
    }
    entries
}

// Stores list 7's words of the maps of a MAPS that `check` found fine; so many entries were stored before theirs. Hands
// back how many were, with theirs.
pub fn fill_maps(b: &[u8], at: usize, h: Header, before: u32, area: &mut [u32]) -> u32
    requires at_in_bounds { (at + 16 ≤ length b.now) × (length b.now ≤ 16777216) }
    requires b_value { verdict (run (maps_at at h) b.now) ≡ Ok tt }
    requires count_in_bounds { width MAPS * h.count ≤ length area.old }
    requires b_bound { before + entry_count (values (run (maps_at at h) b.now)) ≤ 65536 }
    ensures value { result ≡ before + entry_count (values (run (maps_at at h) b.now)) }
    ensures area_after { area.new ≡ laid area.old 0 (flat (λ e. e) (map_list before (values (run (maps_at at h) b.now)))) }
{
    let end = bounds::region_end(b, MAPS_SIZE, at, h.size, 16).unwrap();
    put_maps(b, end, at + 12, h.count, before, area)
}

// Stores the words of the entry at a place.
fn put_entry(b: &[u8], at: usize, area: &mut [u32], to: usize)
    requires { (at + 8 ≤ length b.now) × (to + width ENTRIES ≤ length area.old) }
    ensures { area.new ≡ laid area.old to (map_entry_words (entry b.now at)) }
{
    let entry = [blob::word(b, at), blob::word(b, at + 4)];
    words::put(area, to, &entry);
}

// Stores the words of so many entries from a place on.
fn put_entries(b: &[u8], start: usize, n: u32, area: &mut [u32], from: usize)
    requires { (8 * n ≤ length b.now - start) × (from + width ENTRIES * n ≤ length area.old) }
    ensures { area.new ≡ laid area.old from (flat map_entry_words (values (run (entries n start) b.now))) }
{
    for i in 0..n as usize {
        put_entry(b, start + 8 * i, area, from + width::ENTRIES * i);
    }
}

// Stores the words of the entries of n maps; hands back how many words they are.
fn put_map_entries(b: &[u8], end: usize, start: usize, n: u32, area: &mut [u32]) -> usize
    requires end_in_bounds { (end ≤ length b.now) × (start + 4 * n ≤ length b.now) × (length b.now ≤ 16777216) }
    requires b_value { verdict (run (listed end start n) b.now) ≡ Ok tt }
    requires b_in_bounds { width ENTRIES * entry_count (values (run (listed end start n) b.now)) ≤ length area.old }
    ensures value { result ≡ width ENTRIES * entry_count (values (run (listed end start n) b.now)) }
    ensures area_after { area.new ≡ laid area.old 0 (flat (λ m. flat map_entry_words m.entries) (values (run (listed end start n) b.now))) }
{
    let first = start + 4 * (n as usize);
    let mut to = 0;
    for i in 0..n as usize {
        let m = listed_at(b, end, start, first, start + 4 * i).unwrap();
        put_entries(b, m.offset as usize + 16, m.count, area, to);
        to += width::ENTRIES * (m.count as usize);
    }
    to
}

// Stores list 8's words of the maps of a MAPS that `check` found fine; hands back how many words they are.
pub fn fill_entries(b: &[u8], at: usize, h: Header, area: &mut [u32]) -> usize
    requires at_in_bounds { (at + 16 ≤ length b.now) × (length b.now ≤ 16777216) }
    requires b_value { verdict (run (maps_at at h) b.now) ≡ Ok tt }
    requires b_in_bounds { width ENTRIES * entry_count (values (run (maps_at at h) b.now)) ≤ length area.old }
    ensures value { result ≡ width ENTRIES * entry_count (values (run (maps_at at h) b.now)) }
    ensures area_after { area.new ≡ laid area.old 0 (flat (λ m. flat map_entry_words m.entries) (values (run (maps_at at h) b.now))) }
{
    let end = bounds::region_end(b, MAPS_SIZE, at, h.size, 16).unwrap();
    put_map_entries(b, end, at + 12, h.count, area)
}
