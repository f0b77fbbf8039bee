// The length checks and region ends, the refusals that they give, and the sum of what lists need.
#![tactic(auto)]

ghost use Rattle.std.specs.Prelude.{◌≡◌, ◌+◌, ◌≤◌, leb, length};
ghost use Rattle.blob.specs.Reading.{run, got, verdict};
ghost use Rattle.format.specs.Refuse as refuse;
ghost use Rattle.format.specs.Region as region;
ghost use Rattle.format.specs.Answer.{own, capped};

use blob::Refusal;

// So many bytes are needed from a place on, before an end.
pub fn truncated(end: usize, field: u8, at: usize, needed: usize) -> Refusal
    ensures { result ≡ (refuse.truncated field at needed).told end }
{
    Refusal {
        code: 1,
        field,
        place: at as u64,
        first: needed as u64,
        second: blob::have(end, at),
    }
}

// A structure starts with another signature.
pub fn wrong_signature(at: usize, expected: u32, found: u32) -> Refusal
    ensures { result ≡ (refuse.wrong_signature at expected found).told 0 }
{
    Refusal {
        code: 2,
        field: 0,
        place: at as u64,
        first: expected as u64,
        second: found as u64,
    }
}

// A size is too small, or runs past the blob.
pub fn size_out(field: u8, at: usize, size: u32) -> Refusal
    ensures { result ≡ (refuse.size_out field at size).told 0 }
{
    Refusal {
        code: 3,
        field,
        place: at as u64,
        first: size as u64,
        second: 0,
    }
}

// A count is refused.
pub fn count_out(field: u8, at: usize, count: u32) -> Refusal
    ensures { result ≡ (refuse.count_out field at count).told 0 }
{
    Refusal {
        code: 4,
        field,
        place: at as u64,
        first: count as u64,
        second: 0,
    }
}

// A place is past an end.
pub fn offset_out(end: usize, field: u8, at: usize) -> Refusal
    ensures { result ≡ (refuse.offset_out field at).told end }
{
    Refusal {
        code: 5,
        field,
        place: at as u64,
        first: end as u64,
        second: 0,
    }
}

// A name is no UTF-16.
pub fn not_utf16(field: u8, at: usize) -> Refusal
    ensures { result ≡ (refuse.not_utf16 field at).told 0 }
{
    Refusal {
        code: 6,
        field,
        place: at as u64,
        first: 0,
        second: 0,
    }
}

// A refusal of the port's own, which is about no byte.
pub fn own(code: u8) -> Refusal
    ensures { result ≡ own code }
{
    Refusal {
        code,
        field: 0,
        place: 0,
        first: 0,
        second: 0,
    }
}

// Whether so many bytes from a place on are in the blob. No sum is made of the two numbers, so none can wrap.
fn has_room(b: &[u8], at: usize, needed: usize) -> bool
    ensures { result ≡ leb (at + needed) (length b.now) }
{
    if b.len() < at {
        return false;
    }
    if b.len() - at < needed {
        return false;
    }
    true
}

// Whether so many bytes from a place on are wholly in the blob.
pub fn whole(b: &[u8], field: u8, at: usize, needed: usize) -> Result<(), Refusal>
    ensures { result ≡ verdict (run (refuse.whole field at needed (got (tt {0}))) b.now) }
{
    if has_room(b, at, needed) {
        return Ok(());
    }
    Err(truncated(b.len(), field, at, needed))
}

// Where a structure ends whose size, of at least so many bytes, is not 0.
pub fn bounded(b: &[u8], field: u8, at: usize, size: u32, least: u32) -> Result<usize, Refusal>
    ensures { result ≡ region.end_read (λ e. e) (run (region.bounded field at size least) b.now) }
{
    let bytes = size as usize;
    if least <= size {
        if has_room(b, at, bytes) {
            return Ok(at + bytes);
        }
    }
    Err(size_out(field, at, size))
}

// Where a structure's region ends: at the blob's end where its size is 0.
pub fn region_end(b: &[u8], field: u8, at: usize, size: u32, least: u32) -> Result<usize, Refusal>
    ensures { result ≡ region.end_read (region.end (length b.now)) (run (region.region_at field at size least) b.now) }
{
    if size == 0 {
        return Ok(b.len());
    }
    bounded(b, field, at, size, least)
}

// So many entries and some more, as far as anyone asks.
pub fn sum(entries: u32, more: u32) -> u32
    requires { entries ≤ 65537 }
    ensures { result ≡ capped (entries + more) }
{
    if 65537 - entries < more {
        return 65537;
    }
    entries + more
}
