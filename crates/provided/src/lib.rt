// What each list has of a provider.
#![tactic(auto)]

ghost use Rattle.std.specs.Prelude.{◌≡◌, ◌+◌, ◌≤◌, length};
ghost use Rattle.blob.specs.Le.{le};
ghost use Rattle.blob.specs.Reading.{run, done, verdict};
ghost use Rattle.format.specs.Provider.{wevt_at};
ghost use Rattle.format.specs.Crim.{described_at};
ghost use Rattle.provided.specs.Provided.{ProviderRoom, ProviderStored};

use format::list::{AREAS, width};
use format::{Wevt, list};

// The header of the WEVT of a provider that is known to be fine, by the place of its descriptor in the block.
fn wevt_of(b: &[u8], at: usize) -> Wevt
    requires { (at + 20 ≤ length b.now) × (verdict (run (described_at at) b.now) ≡ Ok tt) }
    ensures { run (wevt_at (le 4 b.now (at + 16))) b.now ≡ done result }
{
    let place = blob::word(b, at + 16) as usize;
    Wevt {
        size: blob::word(b, place + 4),
        message: blob::word(b, place + 8),
        descriptors: blob::word(b, place + 12),
        unknown2: blob::word(b, place + 16),
    }
}

// Stores what a list has of the provider whose descriptor in the block stands at a place, and that is known to be fine: by its number, and
// by how many entries were written before in each list, with which its own are counted. Hands back how many words they are.
// The list is given by its number: the promise speaks of any.
pub fn fill(
    b: &[u8],
    at: usize,
    list: u32,
    number: u32,
    before: &mut [u32; AREAS],
    area: &mut [u32],
) -> usize
    requires at_in_bounds { (at + 20 ≤ length b.now) × (length b.now ≤ 16777216) × (verdict (run (described_at at) b.now) ≡ Ok tt) }
    requires provider_room { ProviderRoom list number before.old (run (described_at at) b.now) area.old }
    ensures { ProviderStored list number before.old (run (described_at at) b.now) area.old result before.new area.new }
{
    let v = wevt_of(b, at);
    let offset = blob::word(b, at + 16);
    let start = offset as usize + 20;
    match list {
        list::PROVIDERS => {
            let g = words::guid_at(b, at);
            let entry = [
                g.a,
                g.b,
                g.c,
                g.d,
                offset,
                v.size,
                v.message,
                v.descriptors,
                v.unknown2,
            ];
            words::put(area, 0, &entry);
            width::PROVIDERS
        }
        list::DESCRIPTORS => fillers::fill_descriptors(b, start, v.descriptors, area),
        list::UNKNOWN2 => {
            fillers::fill_unknown2(b, start + 8 * (v.descriptors as usize), v.unknown2, area)
        }
        list::UNKNOWN => fillers::fill_unknown(b, start, v.descriptors, number, area),
        _ => fillers::fill_tables(b, start, v.descriptors, list, number, before, area),
    }
}
