// Where the words of an entry stand that lookups and programs ask for, by the names of specs/Entry.antt.
pub const TABLE_PROVIDER: usize = 0;

pub const TABLE_KIND: usize = 1;

pub const TABLE_FIRST: usize = 5;

pub const TABLE_COUNT: usize = 6;

pub const GUID: usize = 4;

pub const KEY: usize = 8;

pub const EVENT_TEMPLATE: usize = 9;

pub const TEMPLATE_PROVIDER: usize = 0;

pub const TEMPLATE_OFFSET: usize = 1;

pub const TEMPLATE_SIZE: usize = 2;

pub const TEMPLATE_GUID: usize = 7;

pub const TEMPLATE_START: usize = 11;

pub const TEMPLATE_LENGTH: usize = 12;
