// Event structs against a key.
#![tactic(auto)]

ghost use Rattle.std.specs.Prelude.{◌≡◌, [], map, ◌<◌, length, get_or};
ghost use Rattle.format.specs.Lists.{event_words};
ghost use Rattle.format.specs.Lookup.{keyed};

use format::{Event, Key};

// Whether an event has a key, and a template offset.
pub fn has_key(e: Event, key: Key) -> bool
    ensures { result ≡ keyed key (event_words e) }
{
    (e.identifier == key.identifier)
        & (e.version == key.version)
        & (e.channel == key.channel)
        & (e.level == key.level)
        & (e.opcode == key.opcode)
        & (e.task == key.task)
        & (e.low == key.low)
        & (e.high == key.high)
        & (e.template != 0)
}

// The same of an event in a lent list.
pub fn has_key_at(events: &[Event], i: usize, key: Key) -> bool
    requires { i < length events.now }
    ensures { result ≡ keyed key (get_or (map event_words events.now) i []) }
{
    has_key(events[i], key)
}
