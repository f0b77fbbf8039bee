// Words that several structures share: a GUID's, read; and those of an entry, stored.
#![tactic(auto)]

ghost use Rattle.std.specs.Prelude.{◌≡◌, ◌+◌, ◌≤◌, length};
ghost use Rattle.blob.specs.Reading.{run, done};
ghost use Rattle.blob.specs.Laid.{laid};
ghost use Rattle.format.specs.Definition.{guid_at};

use format::Guid;

// A GUID's words.
pub fn guid_at(b: &[u8], at: usize) -> Guid
    requires { at + 16 ≤ length b.now }
    ensures { run (guid_at at) b.now ≡ done result }
{
    Guid {
        a: blob::word(b, at),
        b: blob::word(b, at + 4),
        c: blob::word(b, at + 8),
        d: blob::word(b, at + 12),
    }
}

// Stores an entry, of any number of words, from a place of the area on.
pub fn put(area: &mut [u32], to: usize, entry: &[u32])
    requires { to + length entry.now ≤ length area.old }
    ensures { area.new ≡ laid area.old to entry.now }
{
    area[to..to + entry.len()].copy_from_slice(entry);
}
