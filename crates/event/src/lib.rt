// The table of events: a record is read as it stands, so that none is refused; the words of records in a row.
#![tactic(auto)]

ghost use Rattle.std.specs.Prelude.{◌≡◌, ◌+◌, ◌*◌, ◌≤◌, length};
ghost use Rattle.blob.specs.Reading.{run, done, many, values};
ghost use Rattle.blob.specs.Laid.{laid, flat};
ghost use Rattle.format.specs.Area.{EVENTS, width};
ghost use Rattle.format.specs.Definition.{step};
ghost use Rattle.format.specs.Event.{event_at};
ghost use Rattle.format.specs.Lists.{event_words};

use format::Event;
use format::list::width;

// The event whose record stands at a place.
fn event_at(b: &[u8], at: usize) -> Event
    requires { at + 48 ≤ length b.now }
    ensures { run (event_at at) b.now ≡ done result }
{
    Event {
        identifier: blob::half(b, at),
        version: blob::byte(b, at + 2),
        channel: blob::byte(b, at + 3),
        level: blob::byte(b, at + 4),
        opcode: blob::byte(b, at + 5),
        task: blob::half(b, at + 6),
        low: blob::word(b, at + 8),
        high: blob::word(b, at + 12),
        message: blob::word(b, at + 16),
        template: blob::word(b, at + 20),
        opcode_offset: blob::word(b, at + 24),
        level_offset: blob::word(b, at + 28),
        task_offset: blob::word(b, at + 32),
        unknown_count: blob::word(b, at + 36),
        unknown_offset: blob::word(b, at + 40),
        flags: blob::word(b, at + 44),
    }
}

// Stores an event's words from a place of the area on.
fn put_event(area: &mut [u32], to: usize, e: Event)
    requires { to + width EVENTS ≤ length area.old }
    ensures { area.new ≡ laid area.old to (event_words e) }
{
    let entry = [
        e.identifier,
        e.version,
        e.channel,
        e.level,
        e.opcode,
        e.task,
        e.low,
        e.high,
        e.message,
        e.template,
        e.opcode_offset,
        e.level_offset,
        e.task_offset,
        e.unknown_count,
        e.unknown_offset,
        e.flags,
    ];
    words::put(area, to, &entry);
}

// Stores the words of n events whose records stand one after another from a place on. (Loops that store records look alike:
// docs/DECISIONS.md says why each stands by itself.)
pub fn fill_events(b: &[u8], at: usize, n: u32, area: &mut [u32])
    requires n_in_bounds { at + 48 * n ≤ length b.now }
    requires n_in_bounds_2 { width EVENTS * n ≤ length area.old }
    ensures { area.new ≡ laid area.old 0 (flat event_words (values (run (many event_at (step 48) n at) b.now))) }
{
    for i in 0..n as usize {
        put_event(area, width::EVENTS * i, event_at(b, at + 48 * i));
    }
}
