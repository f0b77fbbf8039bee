// A provider's elements: each checked by its kind, where the last table of a kind stands, and what the kept tables need.
#![tactic(auto)]

ghost use Rattle.std.specs.Prelude.{◌≡◌, ◌+◌, ◌*◌, ◌≤◌, min, length};
ghost use Rattle.blob.specs.Reading.{run, done, verdict, values, many};
ghost use Rattle.format.specs.Definition.{step};
ghost use Rattle.format.specs.Table.{kind_of, header_length};
ghost use Rattle.format.specs.Kinds.{number, numbered};
ghost use Rattle.format.specs.Provider.{descriptor_at, unknown_at, events_at, table_at, element_of, elements_from};
ghost use Rattle.element.specs.Signatures as spec;
ghost use Rattle.element.specs.Places.{placed};
ghost use Rattle.element.specs.Counted.{elements_read, needed_for};
ghost use Rattle.format.specs.Steps.Needs.{element_read, table_read};

use blob::Refusal;
use format::field::{UNKNOWN_ELEMENT_END, UNKNOWN_ELEMENT_HEADER};
use format::kind::Kind;
use format::list::{AREAS, row};
use format::{Descriptor, Header, signature};

// The numbers of kinds, and 0, of none.
pub const NUMBERS: usize = 9;

// Where a provider keeps no table of a kind: no place of a blob. (As an Option each place would be two words, and two stores.)
pub const NONE: u32 = 4294967295;

// The one known signature that a signature can be: each has its own of eight cells. One comparison then tells those that name no kind.
#[tactic(auto, unfolding(crate::specs::Signatures::in_cell))]
fn named(signature: u32) -> u32
    ensures { result ≡ spec.named signature }
{
    let cell = (signature as u64) * 29 / 4194304 % 8;
    match cell {
        0 => signature::MAPS,
        1 => signature::TASK,
        2 => signature::OPCO,
        3 => signature::EVNT,
        4 => signature::KEYW,
        5 => signature::CHAN,
        6 => signature::TTBL,
        _ => signature::LEVL,
    }
}

// The kind that a signature names.
#[tactic(auto, unfolding(format::specs::Table::kind_in))]
pub fn kind_of(signature: u32) -> Option<Kind>
    ensures { numbered result ≡ kind_of signature }
{
    if signature != named(signature) {
        return None;
    }
    match signature {
        signature::CHAN => Some(Kind::Chan),
        signature::EVNT => Some(Kind::Evnt),
        signature::KEYW => Some(Kind::Keyw),
        signature::LEVL => Some(Kind::Levl),
        signature::MAPS => Some(Kind::Maps),
        signature::OPCO => Some(Kind::Opco),
        signature::TASK => Some(Kind::Task),
        signature::TTBL => Some(Kind::Ttbl),
        _ => None,
    }
}

// That kind's number; 0 for none.
fn number_of(signature: u32) -> usize
    ensures { (result ≡ kind_of signature) × (result ≤ 8) }
{
    match kind_of(signature) {
        Some(kind) => kind.number() as usize,
        None => 0,
    }
}

// A number as a refusal tells it, in 32 bits.
fn in_word(n: usize) -> usize
    ensures { result ≡ min n 4294967295 }
{
    if n < 4294967295 {
        return n;
    }
    4294967295
}

// Whether an element of no known kind is fine, whose signature lies in the blob.
fn check_unknown(b: &[u8], at: usize) -> Result<(), Refusal>
    requires { (at + 4 ≤ length b.now) × (length b.now ≤ 16777216) }
    ensures { result ≡ verdict (run (unknown_at at) b.now) }
{
    if b.len() - at < 8 {
        return Err(bounds::truncated(b.len(), UNKNOWN_ELEMENT_HEADER, at, 8));
    }
    let end = at + blob::word(b, at + 4) as usize;
    if b.len() < end {
        return Err(bounds::offset_out(b.len(), UNKNOWN_ELEMENT_END, in_word(end)));
    }
    Ok(())
}

// Whether an EVNT is fine whose header has been read: its events are never refused.
fn check_events(b: &[u8], at: usize, h: Header) -> Result<u32, Refusal>
    requires { (at + 16 ≤ length b.now) × (length b.now ≤ 16777216) }
    ensures { result ≡ table_read (run (events_at at h) b.now) }
{
    table::table_end(b, Kind::Evnt, at, h)?;
    Ok(0)
}

// Whether the table of a kind is fine whose header has been read, and how many entries its entries have.
fn check_table(b: &[u8], kind: Kind, at: usize, h: Header) -> Result<u32, Refusal>
    requires { (at + header_length (number kind) ≤ length b.now) × (length b.now ≤ 16777216) }
    ensures { result ≡ table_read (run (table_at (number kind) at h) b.now) }
{
    match kind {
        Kind::Evnt => check_events(b, at, h),
        Kind::Maps => map::check(b, at, h),
        Kind::Ttbl => template::check(b, at, h),
        _ => {
            definition::check_definitions(b, kind, at, h)?;
            Ok(0)
        }
    }
}

// Whether the element of a known kind at a place is fine, and how many entries its entries have.
fn check_element(b: &[u8], kind: Kind, at: usize) -> Result<u32, Refusal>
    requires { length b.now ≤ 16777216 }
    ensures { result ≡ element_read (run (element_of (number kind) at) b.now) }
{
    let h = table::header_at(b, kind, at)?;
    check_table(b, kind, at, h)
}

// The descriptor at a place where it is known to be fine.
pub fn descriptor_of(b: &[u8], at: usize) -> Descriptor
    requires at_in_bounds { at + 8 ≤ length b.now }
    requires b_value { verdict (run (descriptor_at at) b.now) ≡ Ok tt }
    ensures { run (descriptor_at at) b.now ≡ done result }
{
    let offset = blob::word(b, at);
    Descriptor {
        offset,
        unknown: blob::word(b, at + 4),
        signature: blob::word(b, offset as usize),
    }
}

// What going over a provider's elements finds: how many are of no known kind, how many entries the entries of the last table of each kind
// have, where the number stops rising at 65,537, and where that table stands.
#[derive(Clone, Copy)]
pub struct Elements {
    pub unknown: u32,
    pub entries: [u32; NUMBERS],
    pub places: [u32; NUMBERS],
}

// Whether the elements of n descriptors, themselves fine, are fine, in descriptor order.
fn check_elements(b: &[u8], start: usize, n: u32) -> Result<Elements, Refusal>
    requires n_in_bounds { (start + 8 * n ≤ length b.now) × (length b.now ≤ 16777216) }
    requires b_value { verdict (run (many descriptor_at (step 8) n start) b.now) ≡ Ok tt }
    ensures { result ≡ elements_read (run (elements_from n start) b.now) }
{
    let mut unknown = 0;
    let mut entries = [0; NUMBERS];
    let mut places = [NONE; NUMBERS];
    for i in 0..n as usize {
        let d = descriptor_of(b, start + 8 * i);
        match kind_of(d.signature) {
            Some(kind) => {
                let i = kind.number() as usize;
                entries[i] = check_element(b, kind, d.offset as usize)?;
                places[i] = d.offset;
            }
            None => {
                check_unknown(b, d.offset as usize)?;
                unknown += 1;
            }
        }
    }
    Ok(Elements {
        unknown,
        entries,
        places,
    })
}

// Where the tables of n descriptors' elements stand, by kind: of two of a kind the last. Elements of no known kind have the place of kind 0.
pub fn place_tables(b: &[u8], start: usize, n: u32, places: &mut [u32])
    requires n_in_bounds { (start + 8 * n ≤ length b.now) × (length places.old ≡ 9) }
    requires b_value { verdict (run (elements_from n start) b.now) ≡ Ok tt }
    ensures { places.new ≡ placed places.old (values (run (elements_from n start) b.now)) }
{
    for i in 0..n as usize {
        let d = descriptor_of(b, start + 8 * i);
        let kind = number_of(d.signature);
        places[kind] = d.offset;
    }
}

// Whether the elements of n descriptors, themselves fine, are fine, and what each list needs for them: each number stops rising at 65,537.
pub fn check(b: &[u8], start: usize, n: u32) -> Result<[u32; AREAS], Refusal>
    requires n_in_bounds { (start + 8 * n ≤ length b.now) × (length b.now ≤ 16777216) }
    requires b_value { verdict (run (many descriptor_at (step 8) n start) b.now) ≡ Ok tt }
    ensures { result ≡ needed_for (run (elements_from n start) b.now) }
{
    let e = check_elements(b, start, n)?;
    let places = e.places;
    let entries = e.entries;
    let mut tables = 0;
    let mut counts = [0; AREAS];
    for kind in Kind::ALL {
        let place = places[kind.number() as usize];
        if place != NONE {
            tables += 1;
            counts = counts::grow(counts, kind, blob::word(b, place as usize + 8));
        }
    }
    counts[row::TABLES] = tables;
    counts[row::ENTRIES] = entries[Kind::Maps.number() as usize];
    counts[row::ITEMS] = entries[Kind::Ttbl.number() as usize];
    counts[row::UNKNOWN] = bounds::sum(0, e.unknown);
    Ok(counts)
}
