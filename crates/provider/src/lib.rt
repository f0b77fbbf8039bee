// A provider's WEVT: its header, its descriptors, its unknown2 words and its elements, checked and counted.
#![tactic(auto)]

ghost use Rattle.std.specs.Prelude.{◌≡◌, ◌+◌, ◌*◌, ◌≤◌, length};
ghost use Rattle.blob.specs.Reading.{run, many, verdict};
ghost use Rattle.format.specs.Definition.{step};
ghost use Rattle.format.specs.Provider as spec;
ghost use Rattle.format.specs.Crim.{described_at};
ghost use Rattle.format.specs.Steps.Needs.{modest, plus, provider_read};
ghost use Rattle.provider.specs.Wevt as wevt;
ghost use Rattle.provider.specs.Parts.{with_own};

use blob::Refusal;
use format::Wevt;
use format::field::{
    WEVT_DESCRIPTOR_ARRAY, WEVT_ELEMENT_OFFSET, WEVT_ELEMENT_SIGNATURE, WEVT_HEADER,
    WEVT_PROVIDER_OFFSET, WEVT_UNKNOWN2_ARRAY,
};
use format::list::{AREAS, row};
use format::signature::WEVT;

// The header of the WEVT at a place.
fn wevt_at(b: &[u8], at: usize) -> Result<Wevt, Refusal>
    ensures { result ≡ spec.wevt_read (run (spec.wevt_at at) b.now) }
{
    if b.len() < at {
        return Err(bounds::offset_out(b.len(), WEVT_PROVIDER_OFFSET, at));
    }
    if b.len() - at < 20 {
        return Err(bounds::truncated(b.len(), WEVT_HEADER, at, 20));
    }
    let found = blob::word(b, at);
    if found != WEVT {
        return Err(bounds::wrong_signature(at, WEVT, found));
    }
    Ok(Wevt {
        size: blob::word(b, at + 4),
        message: blob::word(b, at + 8),
        descriptors: blob::word(b, at + 12),
        unknown2: blob::word(b, at + 16),
    })
}

// The furthest element of the n descriptors from a place on.
fn furthest(b: &[u8], start: usize, n: u32) -> u32
    requires { start + 8 * n ≤ length b.now }
    ensures { result ≡ wevt.furthest b.now n start }
{
    let mut most = 0;
    for i in 0..n as usize {
        let place = blob::word(b, start + 8 * i);
        if most < place {
            most = place;
        }
    }
    most
}

// Whether the elements' signatures of the n descriptors from a place on lie in the blob: where the furthest does, all do.
fn check_descriptors(b: &[u8], start: usize, n: u32) -> Result<(), Refusal>
    requires { start + 8 * n ≤ length b.now }
    ensures { result ≡ verdict (run (many spec.descriptor_at (step 8) n start) b.now) }
{
    if furthest(b, start, n) as usize + 4 <= b.len() {
        return Ok(());
    }
    for i in 0..n as usize {
        let place = blob::word(b, start + 8 * i) as usize;
        if b.len() < place {
            return Err(bounds::offset_out(b.len(), WEVT_ELEMENT_OFFSET, place));
        }
        if b.len() - place < 4 {
            return Err(bounds::truncated(b.len(), WEVT_ELEMENT_SIGNATURE, place, 4));
        }
    }
    Ok(())
}

// What is needed with a provider that has such a header, and whose elements need so much.
fn with_own(needs: [u32; AREAS], elements: [u32; AREAS], w: Wevt) -> [u32; AREAS]
    requires { modest needs }
    ensures { result ≡ plus needs (with_own elements w) }
{
    let mut all = elements;
    all[row::PROVIDERS] = 1;
    all[row::DESCRIPTORS] = w.descriptors;
    all[row::UNKNOWN2] = w.unknown2;
    counts::add(needs, all)
}

// Whether the provider is fine whose descriptor in the block stands at a place, and what is needed with it.
pub fn check(b: &[u8], at: usize, needs: [u32; AREAS]) -> Result<[u32; AREAS], Refusal>
    requires { (at + 20 ≤ length b.now) × (length b.now ≤ 16777216) × modest needs }
    ensures { result ≡ provider_read needs (run (described_at at) b.now) }
{
    let offset = blob::word(b, at + 16) as usize;
    let w = wevt_at(b, offset)?;
    let start = offset + 20;
    bounds::whole(
        b,
        WEVT_DESCRIPTOR_ARRAY,
        start,
        8 * (w.descriptors as usize),
    )?;
    check_descriptors(b, start, w.descriptors)?;
    let words = start + 8 * (w.descriptors as usize);
    bounds::whole(b, WEVT_UNKNOWN2_ARRAY, words, 4 * (w.unknown2 as usize))?;
    let elements = element::check(b, start, w.descriptors)?;
    Ok(with_own(needs, elements, w))
}
