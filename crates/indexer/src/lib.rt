// The event index, written from the lists of a reading: first all is tested and measured, then the bytes are stored.
#![tactic(auto)]

ghost use Rattle.std.specs.Prelude.{◌≡◌, [], ◌∷◌, ◌+◌, ◌≤◌, length};
ghost use Rattle.blob.specs.Reading.{choose};
ghost use Rattle.blob.specs.Laid.{laid, flat};
ghost use Rattle.number.specs.Number.{form};
ghost use Rattle.format.specs.Area as area;
ghost use Rattle.format.specs.Lookup as lookup;
ghost use Rattle.lists.specs.Found as runs;
ghost use Rattle.lists.specs.Owners as owners;
ghost use Rattle.index.specs.Index as right;
ghost use Rattle.indexer.specs.Listed as spec;

use blob::Refusal;
use format::entry::EVENT_TEMPLATE;
use format::kind::Kind;
use format::list::{List, row, width};
use lists::{Fitted, Lists, NOBODY, Run, Together};

// The widths of an event's fields, each by the largest number that has it.
const BYTE: u32 = 255;

const HALF: u32 = 65535;

// How many numbers an entry has.
const ENTRY: usize = 9;

// Where a provider's unknown2 count stands in its entry.
const UNKNOWN2_COUNT: usize = 8;

const EDITION: u64 = 1;

// The template offset of an event that has none.
const NO_TEMPLATE: u32 = 0;

// A provider's number, and its templates.
#[derive(Clone, Copy)]
pub struct Known {
    pub provider: u32,
    pub templates: Run,
}

// How many entries there are, and the bytes that they take.
#[derive(Clone, Copy)]
pub struct Extent {
    pub entries: u32,
    pub bytes: usize,
}

// The bytes that some numbers take.
fn size_all(numbers: &[u64]) -> usize
    requires { length numbers.now ≤ spec.ENTRY }
    ensures { result ≡ length (flat form numbers.now) }
{
    let mut n = 0;
    for number in numbers {
        n += number::size(*number);
    }
    n
}

// Stores some numbers one behind the other, where there is room for them; hands back the place behind them.
fn put_all(bytes: &mut [u8], at: usize, numbers: &[u64]) -> usize
    requires { at + length (flat form numbers.now) ≤ length bytes.old }
    ensures value { result ≡ at + length (flat form numbers.now) }
    ensures bytes_after { bytes.new ≡ laid bytes.old at (flat form numbers.now) }
{
    let mut to = at;
    for number in numbers {
        to = number::put(bytes, to, *number);
    }
    to
}

// The bytes that the unknown2 counts of some providers take, of which the first stands at a place.
fn size_counts(words: &[u32], start: usize, count: u32) -> usize
    requires { spec.stand (area.width area.PROVIDERS) count start words.now }
    ensures { result ≡ length (spec.count_bytes words.now count start) }
{
    let mut n = 0;
    for i in 0..count as usize {
        let at = start + width::PROVIDERS * i;
        n += number::size(words[at + UNKNOWN2_COUNT] as u64);
    }
    n
}

// Stores them; hands back the place behind them.
fn put_counts(bytes: &mut [u8], from: usize, words: &[u32], start: usize, count: u32) -> usize
    requires stand { spec.stand (area.width area.PROVIDERS) count start words.now }
    requires room { from + length (spec.count_bytes words.now count start) ≤ length bytes.old }
    ensures value { result ≡ from + length (spec.count_bytes words.now count start) }
    ensures bytes_after { bytes.new ≡ laid bytes.old from (spec.count_bytes words.now count start) }
{
    let mut to = from;
    for i in 0..count as usize {
        let at = start + width::PROVIDERS * i;
        to = number::put(bytes, to, words[at + UNKNOWN2_COUNT] as u64);
    }
    to
}

// Whether none of an event's fields is past its width.
#[tactic(auto, unfolding(index::specs::Index::fit))]
fn within(identifier: u32, version: u32, channel: u32, level: u32, opcode: u32, task: u32) -> bool
    ensures { result ≡ right.fields_fit (identifier ∷ version ∷ channel ∷ level ∷ opcode ∷ task ∷ []) }
{
    identifier <= HALF
        && version <= BYTE
        && channel <= BYTE
        && level <= BYTE
        && opcode <= BYTE
        && task <= HALF
}

// The same of the event at a place.
fn fields_fit(words: &[u32], at: usize) -> bool
    requires { at + area.width area.EVENTS ≤ length words.now }
    ensures { result ≡ right.fields_fit (spec.event_at words.now at) }
{
    within(
        words[at],
        words[at + 1],
        words[at + 2],
        words[at + 3],
        words[at + 4],
        words[at + 5],
    )
}

// The same of each of some events, of which the first stands at a place.
fn all_fit(words: &[u32], start: usize, count: u32) -> bool
    requires { spec.stand (area.width area.EVENTS) count start words.now }
    ensures { result ≡ spec.all_fit (lookup.entries_from (area.width area.EVENTS) count start words.now) }
{
    for i in 0..count as usize {
        if !fields_fit(words, start + width::EVENTS * i) {
            return false;
        }
    }
    true
}

// A provider with its templates, where one is known.
fn templates_of(fitted: &Fitted, known: Known, provider: u32) -> Known
    requires { spec.Knows fitted.now.lists.words.now fitted.now.lists.capacities fitted.now.lists.counts known }
    ensures { result ≡ spec.known_of fitted.now.lists.words.now fitted.now.lists.capacities fitted.now.lists.counts provider }
{
    if known.provider == provider {
        return known;
    }
    let templates = fitted.owned(provider, Kind::Ttbl);
    Known {
        provider,
        templates,
    }
}

// Whether the event at a place has a template offset, and one of some templates stands there.
fn finds(words: &[u32], at: usize, templates: Run) -> bool
    requires { (at + area.width area.EVENTS ≤ length words.now) × runs.few (area.width area.TEMPLATES) templates words.now }
    ensures { result ≡ spec.finds_in (runs.entries (area.width area.TEMPLATES) templates words.now) (spec.event_at words.now at) }
{
    let offset = words[at + EVENT_TEMPLATE];
    offset != NO_TEMPLATE && lists::at_offset(words, templates, offset).is_some()
}

// An event's owner, or nobody.
fn kept(found: bool, owner: u32) -> u32
    ensures { result ≡ choose found owner owners.NOBODY }
{
    if found {
        return owner;
    }
    NOBODY
}

// Leaves each event to its owner where it has a found template, else to nobody, so that templates are looked for once. A provider's
// templates are worked out where its events begin, since these stand together.
fn resolve(together: &Together, owners: &mut [u32; 65536])
    ensures { owners.new ≡ spec.resolved together.now.fitted.lists.words.now together.now.fitted.lists.capacities together.now.fitted.lists.counts owners.old }
{
    let words = together.fitted.lists.words;
    let start = counts::area_at(together.fitted.lists.capacities, List::Events);
    let count = together.fitted.lists.counts[row::EVENTS];
    let mut known = Known {
        provider: 0,
        templates: together.fitted.owned(0, Kind::Ttbl),
    };
    for i in 0..count as usize {
        known = templates_of(&together.fitted, known, owners[i]);
        let found = finds(words, start + width::EVENTS * i, known.templates);
        owners[i] = kept(found, owners[i]);
    }
}

// The numbers of an event's entry.
fn entry_of(words: &[u32], at: usize, provider: u32) -> [u64; ENTRY]
    requires { at + area.width area.EVENTS ≤ length words.now }
    ensures { result ≡ spec.entry_at words.now at provider }
{
    [
        provider as u64,
        words[at] as u64,
        words[at + 1] as u64,
        words[at + 2] as u64,
        words[at + 3] as u64,
        words[at + 4] as u64,
        words[at + 5] as u64,
        (words[at + 6] as u64) + 4294967296 * (words[at + 7] as u64),
        words[at + EVENT_TEMPLATE] as u64,
    ]
}

// How many entries an event has: none where it is nobody's.
fn listed(owner: u32) -> u32
    ensures { result ≡ spec.one_of owner }
{
    u32::from(owner != NOBODY)
}

// The bytes that they take, of the event at a place.
fn size_entry(words: &[u32], at: usize, owner: u32) -> usize
    requires { at + area.width area.EVENTS ≤ length words.now }
    ensures { result ≡ length (spec.formed (spec.mine owner (spec.event_at words.now at))) }
{
    if owner == NOBODY {
        return 0;
    }
    let numbers = entry_of(words, at, owner);
    size_all(&numbers)
}

// Stores them; hands back the place behind them.
fn put_entry(bytes: &mut [u8], to: usize, words: &[u32], at: usize, owner: u32) -> usize
    requires events_in_bounds { at + area.width area.EVENTS ≤ length words.now }
    requires room { to + length (spec.formed (spec.mine owner (spec.event_at words.now at))) ≤ length bytes.old }
    ensures value { result ≡ to + length (spec.formed (spec.mine owner (spec.event_at words.now at))) }
    ensures bytes_after { bytes.new ≡ laid bytes.old to (spec.formed (spec.mine owner (spec.event_at words.now at))) }
{
    if owner == NOBODY {
        return to;
    }
    let numbers = entry_of(words, at, owner);
    put_all(bytes, to, &numbers)
}

// How many entries some events have, of which the first stands at a place, and the bytes that they take.
fn size_entries(words: &[u32], start: usize, count: u32, owners: &[u32; 65536]) -> Extent
    requires { spec.stand (area.width area.EVENTS) count start words.now }
    ensures { spec.Takes (spec.listed_at owners.now words.now 0 count start) result }
{
    let mut entries: u32 = 0;
    let mut bytes: usize = 0;
    for i in 0..count as usize {
        entries += listed(owners[i]);
        bytes += size_entry(words, start + width::EVENTS * i, owners[i]);
    }
    Extent { entries, bytes }
}

// Stores them.
fn put_entries(
    bytes: &mut [u8],
    from: usize,
    words: &[u32],
    start: usize,
    count: u32,
    owners: &[u32; 65536],
)
    requires stand { spec.stand (area.width area.EVENTS) count start words.now }
    requires room { from + length (spec.formed (spec.listed_at owners.now words.now 0 count start)) ≤ length bytes.old }
    ensures { bytes.new ≡ laid bytes.old from (spec.formed (spec.listed_at owners.now words.now 0 count start)) }
{
    let mut to = from;
    for i in 0..count as usize {
        to = put_entry(bytes, to, words, start + width::EVENTS * i, owners[i]);
    }
}

// How many entries the index of lists has, by the owners of their events, and the bytes that all of it takes.
fn size_index(fitted: &Fitted, owners: &[u32; 65536]) -> Extent
    ensures { (result.entries ≡ length (spec.listed fitted.now.lists.words.now fitted.now.lists.capacities fitted.now.lists.counts owners.now))
        × (result.bytes ≡ length (right.written (spec.index_by fitted.now.lists.words.now fitted.now.lists.capacities fitted.now.lists.counts owners.now))) }
{
    let Lists {
        words,
        capacities,
        counts,
    } = fitted.lists;
    let providers = counts::area_at(capacities, List::Providers);
    let events = counts::area_at(capacities, List::Events);
    let found = size_entries(words, events, counts[row::EVENTS], owners);
    let head = [EDITION, counts[row::PROVIDERS] as u64];
    let entries = [found.entries as u64];
    let size = size_all(&head)
        + size_counts(words, providers, counts[row::PROVIDERS])
        + size_all(&entries)
        + found.bytes;
    Extent {
        entries: found.entries,
        bytes: size,
    }
}

// Stores it.
fn put_index(fitted: &Fitted, owners: &[u32; 65536], found: u32, bytes: &mut [u8])
    requires found_value { found ≡ length (spec.listed fitted.now.lists.words.now fitted.now.lists.capacities fitted.now.lists.counts owners.now) }
    requires room { length (right.written (spec.index_by fitted.now.lists.words.now fitted.now.lists.capacities fitted.now.lists.counts owners.now)) ≤ length bytes.old }
    ensures { bytes.new ≡ laid bytes.old 0 (right.written (spec.index_by fitted.now.lists.words.now fitted.now.lists.capacities fitted.now.lists.counts owners.now)) }
{
    let Lists {
        words,
        capacities,
        counts,
    } = fitted.lists;
    let providers = counts::area_at(capacities, List::Providers);
    let events = counts::area_at(capacities, List::Events);
    let head = [EDITION, counts[row::PROVIDERS] as u64];
    let entries = [found as u64];
    let to = put_all(bytes, 0, &head);
    let behind = put_counts(bytes, to, words, providers, counts[row::PROVIDERS]);
    let last = put_all(bytes, behind, &entries);
    put_entries(bytes, last, words, events, counts[row::EVENTS], owners);
}

// Stores it, and tells how many bytes it has; 9, and nothing is stored, where the lent bytes are too few.
fn give(fitted: &Fitted, owners: &[u32; 65536], bytes: &mut [u8]) -> Result<usize, Refusal>
    ensures value { result ≡ right.given (right.with_room bytes.old (right.written (spec.index_by fitted.now.lists.words.now fitted.now.lists.capacities fitted.now.lists.counts owners.now))) }
    ensures bytes_after { bytes.new ≡ right.held bytes.old (right.with_room bytes.old (right.written (spec.index_by fitted.now.lists.words.now fitted.now.lists.capacities fitted.now.lists.counts owners.now))) }
{
    let whole = size_index(fitted, owners);
    if bytes.len() < whole.bytes {
        return Err(index::short(bytes.len()));
    }
    put_index(fitted, owners, whole.entries, bytes);
    Ok(whole.bytes)
}

// Writes the index of the lists of a reading: 8 and 10 as a lookup by key gives them, 10 for an event of no provider or of two or with a
// field past its width, then 9.
pub fn write(lists: &Lists, bytes: &mut [u8]) -> Result<usize, Refusal>
    ensures { right.AllowedWrite lists.now.words.now lists.now.capacities lists.now.counts bytes.old result bytes.new }
{
    let together = lists.fit_together()?;
    let mut owners = [NOBODY; 65536];
    if !together.owners(&mut owners) {
        return Err(bounds::own(10));
    }
    let events = together.fitted.lists.run_of(List::Events);
    if !all_fit(together.fitted.lists.words, events.start, events.count) {
        return Err(bounds::own(10));
    }
    resolve(&together, &mut owners);
    give(&together.fitted, &owners, bytes)
}
