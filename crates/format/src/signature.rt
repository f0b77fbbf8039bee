// Signatures, as little-endian numbers.
pub const CRIM: u32 = 0x4D495243;

pub const WEVT: u32 = 0x54564557;

pub const CHAN: u32 = 0x4E414843;

pub const EVNT: u32 = 0x544E5645;

pub const KEYW: u32 = 0x5759454B;

pub const LEVL: u32 = 0x4C56454C;

pub const MAPS: u32 = 0x5350414D;

pub const OPCO: u32 = 0x4F43504F;

pub const TASK: u32 = 0x4B534154;

pub const TTBL: u32 = 0x4C425454;

pub const TEMP: u32 = 0x504D4554;

pub const VMAP: u32 = 0x50414D56;

pub const BMAP: u32 = 0x50414D42;
