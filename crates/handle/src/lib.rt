// The reading handle, and the calls that show a template's BinXML.
#![tactic(auto)]

ghost use Rattle.std.specs.Prelude.{◌≡◌};
ghost use Rattle.format.specs.Handle.{AllowedPart};

// A blob beside its size.
#[derive(Clone, Copy)]
pub struct Handle<'a> {
    pub blob: &'a [u8],
    pub size: usize,
}

// The part of some bytes from a start on, or the empty part if size runs past the bytes or start plus length past size.
pub fn shown<'a>(bytes: &'a [u8], size: usize, start: u32, len: u32) -> &'a [u8]
    ensures { AllowedPart bytes.now size start len result.now }
{
    let from = start as usize;
    let to = from + len as usize;
    if bytes.len() < size {
        return &bytes[..0];
    }
    if size < to {
        return &bytes[..0];
    }
    &bytes[from..to]
}

pub fn new<'a>(blob: &'a [u8], size: usize) -> Handle<'a>
    ensures { (result.blob ≡ blob.entry) × (result.size ≡ size) }
{
    Handle { blob, size }
}

// The BinXML of a template, by the start and the length of its entry.
pub fn binxml<'a>(h: Handle<'a>, start: u32, len: u32) -> &'a [u8]
    ensures { AllowedPart h.entry.blob.now h.entry.size start len result.now }
{
    shown(h.blob, h.size, start, len)
}
