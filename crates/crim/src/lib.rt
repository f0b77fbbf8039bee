// The header of the CRIM block, read over the lent bytes.
#![tactic(auto)]

ghost use Rattle.std.specs.Prelude.{◌≡◌};
ghost use Rattle.blob.specs.Reading.{run};
ghost use Rattle.format.specs.Crim as spec;

use blob::Refusal;
use format::CrimHeader;
use format::field::{
    CRIM_MAJOR_VERSION, CRIM_MINOR_VERSION, CRIM_PROVIDER_COUNT, CRIM_SIGNATURE, CRIM_SIZE,
};
use format::signature::CRIM;

// Size, versions and provider count, field by field, all of them before size is tested.
pub fn header(b: &[u8]) -> Result<CrimHeader, Refusal>
    ensures { result ≡ spec.crim_read (run spec.header b.now) }
{
    if b.len() < 4 {
        return Err(bounds::truncated(b.len(), CRIM_SIGNATURE, 0, 4));
    }
    let found = blob::word(b, 0);
    if found != CRIM {
        return Err(bounds::wrong_signature(0, CRIM, found));
    }
    if b.len() < 8 {
        return Err(bounds::truncated(b.len(), CRIM_SIZE, 4, 4));
    }
    if b.len() < 10 {
        return Err(bounds::truncated(b.len(), CRIM_MAJOR_VERSION, 8, 2));
    }
    if b.len() < 12 {
        return Err(bounds::truncated(b.len(), CRIM_MINOR_VERSION, 10, 2));
    }
    if b.len() < 16 {
        return Err(bounds::truncated(b.len(), CRIM_PROVIDER_COUNT, 12, 4));
    }
    let size = blob::word(b, 4);
    if size < 16 {
        return Err(bounds::size_out(CRIM_SIZE, 0, size));
    }
    if b.len() < size as usize {
        return Err(bounds::size_out(CRIM_SIZE, 0, size));
    }
    Ok(CrimHeader {
        size,
        major: blob::half(b, 8),
        minor: blob::half(b, 10),
        count: blob::word(b, 12),
    })
}
