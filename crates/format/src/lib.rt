// The types that the definition of the format speaks of, and that the code reads into. What is right stands in specs/.
#![tactic(auto)]

use list::AREAS;

pub mod entry;
pub mod field;
pub mod kind;
pub mod list;
pub mod signature;

// The longest lent bytes that are read.
pub const LONGEST: usize = 16777216;

// A GUID: its 16 bytes as little-endian words.
#[derive(Clone, Copy)]
pub struct Guid {
    pub a: u32,
    pub b: u32,
    pub c: u32,
    pub d: u32,
}

// A sized name: where its text starts, the text's units, and whether a zero unit ended it. An absent name's are 0, 0, false.
#[derive(Clone, Copy)]
pub struct Name {
    pub start: u32,
    pub units: u32,
    pub ended: bool,
}

// A table's size and count words.
#[derive(Clone, Copy)]
pub struct Header {
    pub size: u32,
    pub count: u32,
}

// A record of CHAN, KEYW, LEVL, OPCO or TASK, one entry type for all five. Its kind, as a map's below, is the number that the entry has: the
// definition makes these records, too.
#[derive(Clone, Copy)]
pub struct Definition {
    pub kind: u32,
    pub low: u32,
    pub high: u32,
    pub message: u32,
    pub offset: u32,
    pub name: Name,
    pub unknown: u32,
    pub mui: Guid,
}

// A record of EVNT: the fields of the original's EventDefinition, in order, keywords as low and high.
#[derive(Clone, Copy)]
pub struct Event {
    pub identifier: u32,
    pub version: u32,
    pub channel: u32,
    pub level: u32,
    pub opcode: u32,
    pub task: u32,
    pub low: u32,
    pub high: u32,
    pub message: u32,
    pub template: u32,
    pub opcode_offset: u32,
    pub level_offset: u32,
    pub task_offset: u32,
    pub unknown_count: u32,
    pub unknown_offset: u32,
    pub flags: u32,
}

// An offset from the blob's start.
#[derive(Clone, Copy)]
pub struct BlobPlace(pub u32);

// An offset from a template's start.
#[derive(Clone, Copy)]
pub struct TemplatePlace(pub u32);

// Where a template's items stand: at a place of the template, before it in the blob, or past its end.
#[derive(Clone, Copy)]
pub enum Items {
    At(TemplatePlace),
    Before(BlobPlace),
    Past(TemplatePlace),
}

// A map of a MAPS: a VMAP (kind 1), a BMAP (2) or another (3). For the last two size, string, name and count are 0.
#[derive(Clone, Copy)]
pub struct Map {
    pub kind: u32,
    pub signature: u32,
    pub offset: u32,
    pub size: u32,
    pub string: u32,
    pub name: Name,
    pub count: u32,
    pub start: u32,
    pub length: u32,
}

// An entry of a VMAP.
#[derive(Clone, Copy)]
pub struct MapEntry {
    pub identifier: u32,
    pub message: u32,
}

// A WEVT's header: size, message, and how many descriptors and unknown2 words follow.
#[derive(Clone, Copy)]
pub struct Wevt {
    pub size: u32,
    pub message: u32,
    pub descriptors: u32,
    pub unknown2: u32,
}

// A provider's element descriptor, with its element's signature.
#[derive(Clone, Copy)]
pub struct Descriptor {
    pub offset: u32,
    pub unknown: u32,
    pub signature: u32,
}

// An element of no known kind.
#[derive(Clone, Copy)]
pub struct Unknown {
    pub signature: u32,
    pub offset: u32,
    pub size: u32,
}

// The header of the CRIM block.
#[derive(Clone, Copy)]
pub struct CrimHeader {
    pub size: u32,
    pub major: u32,
    pub minor: u32,
    pub count: u32,
}

// The answer of a reading, with code 0 where it is accepted: the numbers that C is given, of which `Allowed` speaks.
#[derive(Clone, Copy)]
pub struct Answer {
    pub code: u8,
    pub field: u8,
    pub place: u64,
    pub first: u64,
    pub second: u64,
    pub counts: [u32; AREAS],
}

// What an event is looked up by.
#[derive(Clone, Copy)]
pub struct Key {
    pub guid: Guid,
    pub identifier: u32,
    pub version: u32,
    pub channel: u32,
    pub level: u32,
    pub opcode: u32,
    pub task: u32,
    pub low: u32,
    pub high: u32,
}
