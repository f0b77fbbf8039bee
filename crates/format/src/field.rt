// The field codes that refusals carry, by the names of specs/Field.antt; docs/FIELDS.md has their texts. A table's are those of kind 0:
// six times the kind is added.
pub const CRIM_SIGNATURE: u8 = 1;

pub const CRIM_SIZE: u8 = 2;

pub const CRIM_MAJOR_VERSION: u8 = 3;

pub const CRIM_MINOR_VERSION: u8 = 4;

pub const CRIM_PROVIDER_COUNT: u8 = 5;

pub const CRIM_PROVIDER_DESCRIPTOR_ARRAY: u8 = 6;

pub const WEVT_PROVIDER_OFFSET: u8 = 9;

pub const WEVT_HEADER: u8 = 10;

pub const WEVT_DESCRIPTOR_ARRAY: u8 = 16;

pub const WEVT_ELEMENT_OFFSET: u8 = 19;

pub const WEVT_ELEMENT_SIGNATURE: u8 = 20;

pub const WEVT_UNKNOWN2_ARRAY: u8 = 21;

pub const PROVIDER_ELEMENT_OFFSET: u8 = 23;

pub const UNKNOWN_ELEMENT_HEADER: u8 = 24;

pub const UNKNOWN_ELEMENT_END: u8 = 26;

pub const TABLE_OFFSET: u8 = 21;

pub const TABLE_HEADER: u8 = 22;

pub const TABLE_SIZE: u8 = 24;

pub const TABLE_ARRAY: u8 = 26;

pub const MAPS_SIZE: u8 = 54;

pub const TTBL_SIZE: u8 = 72;

pub const CHAN_NAME: u8 = 75;

pub const KEYW_DATA: u8 = 76;

pub const LEVL_DATA: u8 = 77;

pub const OPCO_DATA: u8 = 78;

pub const TASK_DATA: u8 = 79;

pub const TEMP_HEADER: u8 = 80;

pub const TEMP_SIZE: u8 = 82;

pub const TEMP_TEMPLATE_ITEMS_OFFSET: u8 = 85;

pub const TEMP_ITEM_NAME_COUNT_EXPECTED_0: u8 = 88;

pub const TEMP_TEMPLATE_ITEMS_OFFSET_RELATIVE: u8 = 89;

pub const MAPS_OFFSETS_ARRAY: u8 = 90;

pub const MAPS_MAP_OFFSET: u8 = 92;

pub const MAPS_MAP_SIGNATURE: u8 = 93;

pub const VMAP_SIZE_FIELD: u8 = 94;

pub const VMAP_HEADER: u8 = 95;

pub const VMAP_SIZE: u8 = 96;

pub const VMAP_ENTRIES_ARRAY: u8 = 99;

pub const VMAP_MAP_STRING: u8 = 102;

pub const TEMPLATE_ITEM_DESCRIPTORS: u8 = 137;

pub const TEMPLATE_ITEM_NAME_OFFSET: u8 = 146;

pub const TEMPLATE_ITEM_NAME: u8 = 149;
