// Table headers, and where a table of records ends.
#![tactic(auto)]

ghost use Rattle.std.specs.Prelude.{◌≡◌, ◌+◌, ◌*◌, ◌≤◌, length};
ghost use Rattle.blob.specs.Reading.{run};
ghost use Rattle.format.specs.Table as spec;
ghost use Rattle.format.specs.Kinds.{number, numbered};
ghost use Rattle.format.specs.Region.{end_read};

use blob::Refusal;
use format::field::{TABLE_ARRAY, TABLE_HEADER, TABLE_OFFSET, TABLE_SIZE};
use format::kind::Kind;
use format::{Header, signature};

// The signature of a kind.
fn signature(kind: Kind) -> u32
    ensures { result ≡ spec.signature (number kind) }
{
    match kind {
        Kind::Chan => signature::CHAN,
        Kind::Evnt => signature::EVNT,
        Kind::Keyw => signature::KEYW,
        Kind::Levl => signature::LEVL,
        Kind::Maps => signature::MAPS,
        Kind::Opco => signature::OPCO,
        Kind::Task => signature::TASK,
        Kind::Ttbl => signature::TTBL,
    }
}

// The bytes before a kind's first record.
pub fn header_length(kind: Kind) -> u32
    ensures { (result ≡ spec.header_length (number kind)) × (12 ≤ result) × (result ≤ 16) }
{
    match kind {
        Kind::Evnt => 16,
        Kind::Maps => 16,
        _ => 12,
    }
}

// The bytes of a kind's record; 0 where it has none.
pub fn stride(kind: Option<Kind>) -> u32
    ensures { (result ≡ spec.stride (numbered kind)) × (result ≤ 48) }
{
    match kind {
        Some(Kind::Chan) => 16,
        Some(Kind::Evnt) => 48,
        Some(Kind::Keyw) => 16,
        Some(Kind::Levl) => 12,
        Some(Kind::Opco) => 12,
        Some(Kind::Task) => 28,
        _ => 0,
    }
}

// The bytes of so many records of a kind.
fn records_length(kind: Kind, count: u32) -> usize
    ensures { (result ≡ spec.stride (number kind) * count) × (result ≤ 206158430208) }
{
    (stride(Some(kind)) as usize) * (count as usize)
}

// The field code of a kind's table.
fn field(first: u8, kind: Kind) -> u8
    requires { first ≤ 26 }
    ensures { result ≡ first + 6 * number kind }
{
    first + 6 * (kind.number() as u8)
}

// The header of the table of a kind at a place.
pub fn header_at(b: &[u8], kind: Kind, at: usize) -> Result<Header, Refusal>
    ensures { result ≡ spec.header_read (run (spec.header_at (number kind) at) b.now) }
{
    if b.len() < at {
        return Err(bounds::offset_out(b.len(), field(TABLE_OFFSET, kind), at));
    }
    let needed = header_length(kind) as usize;
    if b.len() - at < needed {
        return Err(bounds::truncated(b.len(), field(TABLE_HEADER, kind), at, needed));
    }
    let found = blob::word(b, at);
    let expected = signature(kind);
    if found != expected {
        return Err(bounds::wrong_signature(at, expected, found));
    }
    Ok(Header {
        size: blob::word(b, at + 4),
        count: blob::word(b, at + 8),
    })
}

// Where a table of records ends whose header has been read.
pub fn table_end(b: &[u8], kind: Kind, at: usize, h: Header) -> Result<usize, Refusal>
    requires header_in_bounds { at + spec.header_length (number kind) ≤ length b.now }
    requires b_len_bound { length b.now ≤ 16777216 }
    ensures { result ≡ end_read (λ e. e) (run (spec.table_end (number kind) at h) b.now) }
{
    let least = header_length(kind);
    let start = at + least as usize;
    let bytes = records_length(kind, h.count);
    if h.size == 0 {
        if b.len() - start < bytes {
            return Err(bounds::truncated(b.len(), field(TABLE_ARRAY, kind), start, bytes));
        }
        return Ok(start + bytes);
    }
    let end = bounds::bounded(b, field(TABLE_SIZE, kind), at, h.size, least)?;
    if end < start + bytes {
        return Err(bounds::size_out(field(TABLE_ARRAY, kind), at, h.size));
    }
    Ok(end)
}
