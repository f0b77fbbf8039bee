ghost use Rattle.std.specs.Prelude.{◌≡◌, ◌<◌, ◌≤◌};
ghost use Rattle.format.specs.Area as area;
ghost use Rattle.format.specs.Named.{number_of};

// How many lists have an area in the lent words.
pub const AREAS: usize = 11;

// These lists, in the order of the areas. specs/Area.antt has a row for each.
#[derive(Clone, Copy)]
pub enum List {
    Providers,
    Descriptors,
    Unknown2,
    Tables,
    Definitions,
    Events,
    Maps,
    Entries,
    Templates,
    Unknown,
    Items,
}

impl List {
    pub const ALL: [List; AREAS] = [
        List::Providers,
        List::Descriptors,
        List::Unknown2,
        List::Tables,
        List::Definitions,
        List::Events,
        List::Maps,
        List::Entries,
        List::Templates,
        List::Unknown,
        List::Items,
    ];

    pub fn number(self) -> u32
        ensures { result ≡ number_of self }
    {
        match self {
            List::Providers => PROVIDERS,
            List::Descriptors => DESCRIPTORS,
            List::Unknown2 => UNKNOWN2,
            List::Tables => TABLES,
            List::Definitions => DEFINITIONS,
            List::Events => EVENTS,
            List::Maps => MAPS,
            List::Entries => ENTRIES,
            List::Templates => TEMPLATES,
            List::Unknown => UNKNOWN,
            List::Items => ITEMS,
        }
    }

    // Where its number stands among those of all lists.
    pub fn row(self) -> usize
        ensures { (result ≡ area.place (number_of self)) × (result < area.AREAS) }
    {
        match self {
            List::Providers => row::PROVIDERS,
            List::Descriptors => row::DESCRIPTORS,
            List::Unknown2 => row::UNKNOWN2,
            List::Tables => row::TABLES,
            List::Definitions => row::DEFINITIONS,
            List::Events => row::EVENTS,
            List::Maps => row::MAPS,
            List::Entries => row::ENTRIES,
            List::Templates => row::TEMPLATES,
            List::Unknown => row::UNKNOWN,
            List::Items => row::ITEMS,
        }
    }

    // The words of an entry.
    pub fn width(self) -> usize
        ensures { (result ≡ area.width (number_of self)) × (result ≤ area.WIDEST) }
    {
        match self {
            List::Providers => width::PROVIDERS,
            List::Descriptors => width::DESCRIPTORS,
            List::Unknown2 => width::UNKNOWN2,
            List::Tables => width::TABLES,
            List::Definitions => width::DEFINITIONS,
            List::Events => width::EVENTS,
            List::Maps => width::MAPS,
            List::Entries => width::ENTRIES,
            List::Templates => width::TEMPLATES,
            List::Unknown => width::UNKNOWN,
            List::Items => width::ITEMS,
        }
    }
}

// The numbers.
pub const PROVIDERS: u32 = 1;

pub const DESCRIPTORS: u32 = 2;

pub const UNKNOWN2: u32 = 3;

pub const TABLES: u32 = 4;

pub const DEFINITIONS: u32 = 5;

pub const EVENTS: u32 = 6;

pub const MAPS: u32 = 7;

pub const ENTRIES: u32 = 8;

pub const TEMPLATES: u32 = 9;

pub const UNKNOWN: u32 = 10;

pub const ITEMS: u32 = 12;

// Lent singly, and so without an area.
pub const GUIDS: u32 = 11;

// Which row is a list's: where its number stands among those of all lists.
pub mod row {
    pub const PROVIDERS: usize = 0;

    pub const DESCRIPTORS: usize = 1;

    pub const UNKNOWN2: usize = 2;

    pub const TABLES: usize = 3;

    pub const DEFINITIONS: usize = 4;

    pub const EVENTS: usize = 5;

    pub const MAPS: usize = 6;

    pub const ENTRIES: usize = 7;

    pub const TEMPLATES: usize = 8;

    pub const UNKNOWN: usize = 9;

    pub const ITEMS: usize = 10;
}

// The words of a list's entries.
pub mod width {
    pub const PROVIDERS: usize = 9;

    pub const DESCRIPTORS: usize = 3;

    pub const UNKNOWN2: usize = 1;

    pub const TABLES: usize = 9;

    pub const DEFINITIONS: usize = 13;

    pub const EVENTS: usize = 16;

    pub const MAPS: usize = 12;

    pub const ENTRIES: usize = 2;

    pub const TEMPLATES: usize = 13;

    pub const UNKNOWN: usize = 4;

    pub const ITEMS: usize = 10;
}

// No entry has more words.
pub const WIDEST: usize = width::EVENTS;

// The words of an entry of each list.
pub const EACH: usize = width::PROVIDERS
    + width::DESCRIPTORS
    + width::UNKNOWN2
    + width::TABLES
    + width::DEFINITIONS
    + width::EVENTS
    + width::MAPS
    + width::ENTRIES
    + width::TEMPLATES
    + width::UNKNOWN
    + width::ITEMS;

// The most entries that a list can be lent.
pub const MOST: u32 = 65536;
