// The fillers: what lists 2 to 10 and 12 have of a provider's descriptors, of its unknown2 words, of the tables that are kept, by kind, and
// of the elements of no known kind.
#![tactic(auto)]

ghost use Rattle.std.specs.Prelude.{◌≡◌, true, ◌+◌, ◌*◌, ◌≤◌, eqb, length};
ghost use Rattle.blob.specs.Reading.{run, number, many, verdict, values, choose};
ghost use Rattle.blob.specs.Laid.{laid, flat};
ghost use Rattle.format.specs.Table.{header_length, kind_of};
ghost use Rattle.format.specs.Kinds as kinds;
ghost use Rattle.format.specs.Definition.{step};
ghost use Rattle.format.specs.Provider.{descriptor_at, table_at, elements_from};
ghost use Rattle.format.specs.Lists.{descriptor_words, unknown2_words, kept, unknowns, unknown_words};
ghost use Rattle.format.specs.Steps.Parts as parts;
ghost use Rattle.fillers.specs.Unknown.{words_of};
ghost use Rattle.format.specs.Area as rows;
ghost use Rattle.format.specs.Area.{width};
ghost use Rattle.fillers.specs.Kinds.{headed, kept_at, Stands, has_any};
ghost use Rattle.fillers.specs.Rows.{only, holds_definitions, has_entries, trailing_of};

use element::{NONE, NUMBERS};
use format::kind::Kind;
use format::list::{AREAS, row, width};
use format::{Descriptor, Header, list};

// Stores the words of n descriptors that are fine; here and below it hands back how many words they are.
pub fn fill_descriptors(b: &[u8], start: usize, n: u32, area: &mut [u32]) -> usize
    requires n_in_bounds { start + 8 * n ≤ length b.now }
    requires n_in_bounds_2 { width rows.DESCRIPTORS * n ≤ length area.old }
    requires b_value { verdict (run (many descriptor_at (step 8) n start) b.now) ≡ Ok tt }
    ensures value { result ≡ width rows.DESCRIPTORS * n }
    ensures area_after { area.new ≡ laid area.old 0 (flat descriptor_words (values (run (many descriptor_at (step 8) n start) b.now))) }
{
    for i in 0..n as usize {
        let d = element::descriptor_of(b, start + 8 * i);
        let entry = [d.offset, d.unknown, d.signature];
        words::put(area, width::DESCRIPTORS * i, &entry);
    }
    width::DESCRIPTORS * (n as usize)
}

// Stores n unknown2 words.
pub fn fill_unknown2(b: &[u8], start: usize, n: u32, area: &mut [u32]) -> usize
    requires n_in_bounds { start + 4 * n ≤ length b.now }
    requires n_in_bounds_2 { width rows.UNKNOWN2 * n ≤ length area.old }
    ensures value { result ≡ width rows.UNKNOWN2 * n }
    ensures area_after { area.new ≡ laid area.old 0 (flat unknown2_words (values (run (many (number 4) (step 4) n start) b.now))) }
{
    for i in 0..n as usize {
        let entry = [blob::word(b, start + 4 * i)];
        words::put(area, width::UNKNOWN2 * i, &entry);
    }
    width::UNKNOWN2 * (n as usize)
}

// Whether tables of a kind have definitions.
fn holds_definitions(kind: Kind) -> bool
    ensures { result ≡ holds_definitions (kinds.number kind) }
{
    match kind {
        Kind::Evnt | Kind::Maps | Kind::Ttbl => false,
        _ => true,
    }
}

// Whether tables of a kind have entries in a list. (A number and no `List`, here and up to `fill_tables`: that one's promise speaks of any
// number, of those that are no list's too.)
fn has_entries(list: u32, kind: Kind) -> bool
    ensures { result ≡ has_entries list (kinds.number kind) }
{
    match list {
        list::TABLES => true,
        list::DEFINITIONS => holds_definitions(kind),
        list::EVENTS => matches!(kind, Kind::Evnt),
        list::MAPS => matches!(kind, Kind::Maps),
        list::ENTRIES => matches!(kind, Kind::Maps),
        _ => matches!(kind, Kind::Ttbl),
    }
}

// What an EVNT has beside its events: the extra word, and what trails them. Other tables have none of it.
#[derive(Clone, Copy)]
pub struct Trailing {
    pub extra: u32,
    pub start: u32,
    pub length: u32,
}

// The trailing part of a table of a kind that is known to be fine.
fn trailing_of(b: &[u8], kind: Kind, at: usize, h: Header) -> Trailing
    requires header_in_bounds { (at + header_length (kinds.number kind) ≤ length b.now) × (length b.now ≤ 16777216) }
    requires b_value { verdict (run (table_at (kinds.number kind) at h) b.now) ≡ Ok tt }
    ensures { result ≡ trailing_of (run (table_at (kinds.number kind) at h) b.now) }
{
    let Kind::Evnt = kind else {
        return Trailing {
            extra: 0,
            start: 0,
            length: 0,
        };
    };
    let start = at + 16 + 48 * (h.count as usize);
    let end = table::table_end(b, Kind::Evnt, at, h).unwrap();
    Trailing {
        extra: blob::word(b, at + 12),
        start: start as u32,
        length: (end - start) as u32,
    }
}

// Stores a table's words, list 4's; so many entries were written before in each list, and its own are counted with them.
fn put_table(
    b: &[u8],
    kind: Kind,
    at: usize,
    h: Header,
    number: u32,
    before: &mut [u32; AREAS],
    area: &mut [u32],
) -> usize
    requires header_in_bounds { (at + header_length (kinds.number kind) ≤ length b.now) × (length b.now ≤ 16777216) }
    requires b_value { verdict (run (table_at (kinds.number kind) at h) b.now) ≡ Ok tt }
    requires tables_room { parts.TablesRoom rows.TABLES number before.old (only (run (table_at (kinds.number kind) at h) b.now)) area.old }
    ensures { parts.TablesStored rows.TABLES number before.old (only (run (table_at (kinds.number kind) at h) b.now)) area.old result before.new area.new }
{
    let t = trailing_of(b, kind, at, h);
    let i = counts::list_of(kind).row();
    let first = before[i];
    let entry = [
        number,
        kind.number(),
        at as u32,
        h.size,
        t.extra,
        first,
        h.count,
        t.start,
        t.length,
    ];
    words::put(area, 0, &entry);
    before[i] = first + h.count;
    width::TABLES
}

// Stores what a list has of a table of a kind that has entries in it. List 7 counts the entries of its maps, list 12 the templates.
fn put_rows(
    b: &[u8],
    list: u32,
    kind: Kind,
    at: usize,
    h: Header,
    number: u32,
    before: &mut [u32; AREAS],
    area: &mut [u32],
) -> usize
    requires header_in_bounds { (at + header_length (kinds.number kind) ≤ length b.now) × (length b.now ≤ 16777216) }
    requires b_value { verdict (run (table_at (kinds.number kind) at h) b.now) ≡ Ok tt }
    requires kind_value { has_entries list (kinds.number kind) ≡ true }
    requires tables_room { parts.TablesRoom list number before.old (only (run (table_at (kinds.number kind) at h) b.now)) area.old }
    ensures { parts.TablesStored list number before.old (only (run (table_at (kinds.number kind) at h) b.now)) area.old result before.new area.new }
{
    let count = h.count as usize;
    match list {
        list::TABLES => put_table(b, kind, at, h, number, before, area),
        list::DEFINITIONS => {
            definition::fill_definitions(b, kind, at, h, area);
            width::DEFINITIONS * count
        }
        list::EVENTS => {
            event::fill_events(b, at + 16, h.count, area);
            width::EVENTS * count
        }
        list::MAPS => {
            before[row::ENTRIES] = map::fill_maps(b, at, h, before[row::ENTRIES], area);
            width::MAPS * count
        }
        list::ENTRIES => map::fill_entries(b, at, h, area),
        list::ITEMS => {
            let first = before[row::TEMPLATES];
            before[row::TEMPLATES] = first + h.count;
            template::fill_items(b, at, h, first, area)
        }
        _ => {
            template::fill(b, at, h, number, area);
            width::TEMPLATES * count
        }
    }
}

// The header of a table that is known to be fine.
fn header_of(b: &[u8], at: usize) -> Header
    requires { at + 12 ≤ length b.now }
    ensures { result ≡ headed b.now at }
{
    Header {
        size: blob::word(b, at + 4),
        count: blob::word(b, at + 8),
    }
}

// Whether a list has anything of the table of a kind that is kept at a place.
fn has_any(list: u32, kind: Kind, place: u32) -> bool
    ensures { result ≡ has_any list (kinds.number kind) place }
{
    if place == NONE {
        return false;
    }
    has_entries(list, kind)
}

// Stores what it has.
fn put_kind(
    b: &[u8],
    list: u32,
    kind: Kind,
    place: u32,
    number: u32,
    before: &mut [u32; AREAS],
    area: &mut [u32],
) -> usize
    requires b_len_bound { (length b.now ≤ 16777216) × Stands b.now (kinds.number kind) place }
    requires tables_room { parts.TablesRoom list number before.old (kept_at b.now (kinds.number kind) place) area.old }
    ensures { parts.TablesStored list number before.old (kept_at b.now (kinds.number kind) place) area.old result before.new area.new }
{
    if has_any(list, kind, place) {
        let at = place as usize;
        return put_rows(b, list, kind, at, header_of(b, at), number, before, area);
    }
    0
}

// Stores what a list has of the tables that n descriptors' elements keep, by kind.
pub fn fill_tables(
    b: &[u8],
    start: usize,
    n: u32,
    list: u32,
    number: u32,
    before: &mut [u32; AREAS],
    area: &mut [u32],
) -> usize
    requires n_in_bounds { (start + 8 * n ≤ length b.now) × (length b.now ≤ 16777216) }
    requires b_value { verdict (run (elements_from n start) b.now) ≡ Ok tt }
    requires tables_room { parts.TablesRoom list number before.old (kept (values (run (elements_from n start) b.now))) area.old }
    ensures { parts.TablesStored list number before.old (kept (values (run (elements_from n start) b.now))) area.old result before.new area.new }
{
    let mut places = [NONE; NUMBERS];
    element::place_tables(b, start, n, &mut places);
    let mut to = 0;
    for kind in Kind::ALL {
        let place = places[kind.number() as usize];
        to += put_kind(b, list, kind, place, number, before, &mut area[to..]);
    }
    to
}

// Stores the words of a descriptor's element if it is of no known kind; hands back where the next ones go.
fn put_unknown(b: &[u8], d: Descriptor, number: u32, area: &mut [u32], to: usize) -> usize
    requires { kind_of d.signature ≡ 0 → (d.offset + 8 ≤ length b.now) × (to + width rows.UNKNOWN ≤ length area.old) }
    ensures value { result ≡ choose (eqb (kind_of d.signature) 0) (to + width rows.UNKNOWN) to }
    ensures area_after { area.new ≡ laid area.old to (words_of b.now number d) }
{
    match element::kind_of(d.signature) {
        Some(_) => to,
        None => {
            let size = blob::word(b, d.offset as usize + 4);
            let entry = [number, d.signature, d.offset, size];
            words::put(area, to, &entry);
            to + width::UNKNOWN
        }
    }
}

// Stores the words of the elements of no known kind.
pub fn fill_unknown(b: &[u8], start: usize, n: u32, number: u32, area: &mut [u32]) -> usize
    requires n_in_bounds { (start + 8 * n ≤ length b.now) × (length b.now ≤ 16777216) }
    requires b_value { verdict (run (elements_from n start) b.now) ≡ Ok tt }
    requires b_in_bounds { width rows.UNKNOWN * length (unknowns (values (run (elements_from n start) b.now))) ≤ length area.old }
    ensures value { result ≡ width rows.UNKNOWN * length (unknowns (values (run (elements_from n start) b.now))) }
    ensures area_after { area.new ≡ laid area.old 0 (flat (unknown_words number) (unknowns (values (run (elements_from n start) b.now)))) }
{
    let mut to = 0;
    for i in 0..n as usize {
        let d = element::descriptor_of(b, start + 8 * i);
        to = put_unknown(b, d, number, area, to);
    }
    to
}
