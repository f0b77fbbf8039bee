// Finding a template in the lists of a reading: by its offset, or by an event's key. Nothing is kept but a mark for each template.
#![tactic(auto)]

ghost use Rattle.std.specs.Prelude.{◌≡◌, true, ◌+◌, ◌*◌, ◌/◌, ◌≤◌, ◌<◌, min, length};
ghost use Rattle.blob.specs.Laid.{laid, flat};
ghost use Rattle.format.specs.Area as area;
ghost use Rattle.format.specs.Entry as entry;
ghost use Rattle.format.specs.Lookup as right;
ghost use Rattle.lists.specs.Found as runs;
ghost use Rattle.lookup.specs.Given as spec;

use blob::Refusal;
use format::entry::{EVENT_TEMPLATE, GUID, TEMPLATE_GUID, TEMPLATE_PROVIDER};
use format::kind::Kind;
use format::list::{List, MOST, row, width};
use format::{Key, list};
use lists::{Lists, Run, Together};

// Where the lookup by key stands: the events that are left of a provider, the templates that they are resolved in, and the providers
// behind it.
#[derive(Clone, Copy)]
pub struct Walk {
    pub events: Run,
    pub templates: Run,
    pub providers: Run,
}

// The number in list 9 of the lowest template entry in a range whose provider and offset are equal.
pub fn template_at(
    lists: &Lists,
    provider: u32,
    first: u32,
    count: u32,
    offset: u32,
) -> Result<Option<u32>, Refusal>
    ensures { right.AllowedAt lists.now.words.now lists.now.capacities lists.now.counts provider first count offset result }
{
    lists.fits()?;
    if (lists.counts[row::TEMPLATES] as u64) < (first as u64) + (count as u64) {
        return Err(bounds::own(10));
    }
    let start = counts::area_at(lists.capacities, List::Templates);
    let range = Run {
        start,
        first,
        count,
    };
    let key = [provider, offset];
    Ok(lists::find(lists.words, range, List::Templates, TEMPLATE_PROVIDER, &key))
}

// The number of the template that an event gives, where its GUID was not given before: of the lowest at the event's offset, where its key
// is equal and it has an offset.
fn fresh(
    words: &[u32],
    at: usize,
    templates: Run,
    key: &[u32],
    marks: &[bool; 65536],
) -> Option<u32>
    requires events_in_bounds { (at + area.width area.EVENTS ≤ length words.now) × (length key.now ≡ entry.KEY) }
    requires few { runs.few (area.width area.TEMPLATES) templates words.now }
    ensures { result ≡ spec.unmarked marks.now (runs.found (spec.number_at words.now templates key.now at)) }
{
    if !lists::same(words, at, key) {
        return None;
    }
    let offset = words[at + EVENT_TEMPLATE];
    if offset == 0 {
        return None;
    }
    let n = lists::at_offset(words, templates, offset)?;
    if marks[n as usize] {
        return None;
    }
    Some(n)
}

// The GUID of a template, by its number in list 9.
fn guid_of<'a>(words: &'a [u32], list: Run, n: u32) -> &'a [u32]
    requires { spec.Listed list words.now × (n < list.count) }
    ensures { result.now ≡ spec.guid_of words.now list n }
{
    let from = lists::entry_at(list.start, List::Templates, n) + TEMPLATE_GUID;
    let to = from + GUID;
    &words[from..to]
}

// Marks those of all templates that have a GUID.
fn mark(words: &[u32], list: Run, guid: &[u32], marks: &mut [bool; 65536])
    requires { spec.Listed list words.now × (length guid.now ≡ entry.GUID) }
    ensures { marks.new ≡ spec.marked words.now list guid.now marks.old }
{
    for i in 0..list.count as usize {
        let at = list.start + width::TEMPLATES * i;
        let given = lists::same(words, at + TEMPLATE_GUID, guid);
        marks[i] = given || marks[i];
    }
}

// The next of some events that gives a GUID which is not marked; of all templates, those that have it are marked then. (Never inlined:
// within `advance` no register was left for the offset that is looked for.)
#[inline(never)]
fn next_new(
    words: &[u32],
    events: Run,
    templates: Run,
    list: Run,
    key: &[u32],
    marks: &mut [bool; 65536],
) -> Option<(u32, Run)>
    requires few { runs.few (area.width area.EVENTS) events words.now × (length key.now ≡ entry.KEY) }
    requires part { spec.Part list templates words.now }
    ensures tells { spec.Tells words.now list templates key.now marks.old events marks.new result }
    ensures behind { spec.behind events list result }
{
    for number in events.first..events.first + events.count {
        let at = lists::entry_at(events.start, List::Events, number);
        if let Some(n) = fresh(words, at, templates, key, marks) {
            mark(words, list, guid_of(words, list, n), marks);
            return Some((n, lists::behind(events, number)));
        }
    }
    None
}

// Where the lookup stands when it comes to the first of some providers that has a GUID: that one's events, its templates, and those of the
// providers that are behind it.
fn next_provider(together: &Together, providers: Run, guid: &[u32]) -> Option<Walk>
    requires guid_len { (length guid.now ≡ entry.GUID) × runs.few (area.width area.PROVIDERS) providers together.now.fitted.lists.words.now }
    ensures value { result ≡ spec.next_provider together.now.fitted.lists.words.now together.now.fitted.lists.capacities together.now.fitted.lists.counts guid.now providers }
    ensures arrived { spec.arrived together.now.fitted.lists.words.now (runs.run_of together.now.fitted.lists.capacities together.now.fitted.lists.counts (area.place area.TEMPLATES)) providers result }
{
    let p = lists::find(
        together.fitted.lists.words,
        providers,
        List::Providers,
        0,
        guid,
    )?;
    let events = together.fitted.owned(p, Kind::Evnt);
    let templates = together.fitted.owned(p, Kind::Ttbl);
    let behind = lists::behind(providers, p);
    Some(Walk {
        events,
        templates,
        providers: behind,
    })
}

// The next of the events that are left, of all providers with a GUID in their order, that gives a GUID which is not marked.
fn advance(
    together: &Together,
    walk: Walk,
    guid: &[u32],
    key: &[u32],
    marks: &mut [bool; 65536],
) -> Option<(u32, Walk)>
    requires guid_len { (length guid.now ≡ entry.GUID) × (length key.now ≡ entry.KEY) }
    requires stands { spec.Stands together.now.fitted.lists.words.now (runs.run_of together.now.fitted.lists.capacities together.now.fitted.lists.counts (area.place area.TEMPLATES)) walk }
    ensures walk_after { spec.new_of together.now.fitted.lists.words.now together.now.fitted.lists.capacities together.now.fitted.lists.counts guid.now key.now marks.old walk
        ≡ spec.stepped together.now.fitted.lists.words.now together.now.fitted.lists.capacities together.now.fitted.lists.counts guid.now key.now marks.new result }
    ensures onward { spec.onward together.now.fitted.lists.words.now (runs.run_of together.now.fitted.lists.capacities together.now.fitted.lists.counts (area.place area.TEMPLATES)) result }
{
    let words = together.fitted.lists.words;
    let list = together.fitted.lists.run_of(List::Templates);
    let mut at = walk;
    // No count: a turn ends it or comes to a provider behind.
    loop {
        if let Some((n, events)) = next_new(words, at.events, at.templates, list, key, marks) {
            return Some((n, Walk { events, ..at }));
        }
        at = next_provider(together, at.providers, guid)?;
    }
}

// How many GUIDs the events that are left give, each once; one more than the most that are asked for, where there are more.
fn count(together: &Together, walk: Walk, guid: &[u32], key: &[u32], most: u32) -> u32
    requires guid_len { (length guid.now ≡ entry.GUID) × (length key.now ≡ entry.KEY) × (most ≤ 65536) }
    requires stands { spec.Stands together.now.fitted.lists.words.now (runs.run_of together.now.fitted.lists.capacities together.now.fitted.lists.counts (area.place area.TEMPLATES)) walk }
    ensures { result ≡ min (length (spec.new_of together.now.fitted.lists.words.now together.now.fitted.lists.capacities together.now.fitted.lists.counts guid.now key.now spec.unset walk)) (most + 1) }
{
    let mut marks = [false; 65536];
    let mut at = walk;
    for n in 0..most + 1 {
        let Some((_, behind)) = advance(together, at, guid, key, &mut marks) else {
            return n;
        };
        at = behind;
    }
    most + 1
}

// Stores the GUIDs that they give, each once: so many.
fn fill(together: &Together, walk: Walk, guid: &[u32], key: &[u32], n: u32, guids: &mut [u32])
    requires guid_len { (length guid.now ≡ entry.GUID) × (length key.now ≡ entry.KEY) }
    requires stands { spec.Stands together.now.fitted.lists.words.now (runs.run_of together.now.fitted.lists.capacities together.now.fitted.lists.counts (area.place area.TEMPLATES)) walk }
    requires n_value { (n ≡ length (spec.new_of together.now.fitted.lists.words.now together.now.fitted.lists.capacities together.now.fitted.lists.counts guid.now key.now spec.unset walk)) × (entry.GUID * n ≤ length guids.old) }
    ensures { guids.new ≡ laid guids.old 0 (flat (spec.guid_of together.now.fitted.lists.words.now (runs.run_of together.now.fitted.lists.capacities together.now.fitted.lists.counts (area.place area.TEMPLATES)))
        (spec.new_of together.now.fitted.lists.words.now together.now.fitted.lists.capacities together.now.fitted.lists.counts guid.now key.now spec.unset walk)) }
{
    let list = together.fitted.lists.run_of(List::Templates);
    let mut marks = [false; 65536];
    let mut at = walk;
    for i in 0..n as usize {
        let Some((t, behind)) = advance(together, at, guid, key, &mut marks) else {
            return;
        };
        words::put(
            guids,
            GUID * i,
            guid_of(together.fitted.lists.words, list, t),
        );
        at = behind;
    }
}

// Stores the GUIDs that the events with a key give, from where the lookup stands, each once, and tells how many; 9, and nothing is stored,
// where the lent list is too short.
fn give(
    together: &Together,
    walk: Walk,
    guid: &[u32],
    k: Key,
    guids: &mut [u32],
) -> Result<u32, Refusal>
    requires guid_len { (length guid.now ≡ entry.GUID) × (length guids.old / entry.GUID ≤ 65536) }
    requires stands { spec.Stands together.now.fitted.lists.words.now (runs.run_of together.now.fitted.lists.capacities together.now.fitted.lists.counts (area.place area.TEMPLATES)) walk }
    ensures value { result ≡ right.guids_found (spec.room_for guids.old (spec.guids_from together.now.fitted.lists.words.now together.now.fitted.lists.capacities together.now.fitted.lists.counts guid.now (right.key_words k) walk)) }
    ensures guids_after { guids.new ≡ right.guids_held guids.old (spec.room_for guids.old (spec.guids_from together.now.fitted.lists.words.now together.now.fitted.lists.capacities together.now.fitted.lists.counts guid.now (right.key_words k) walk)) }
{
    let fields = [
        k.identifier,
        k.version,
        k.channel,
        k.level,
        k.opcode,
        k.task,
        k.low,
        k.high,
    ];
    let capacity = (guids.len() / GUID) as u32;
    let n = count(together, walk, guid, &fields, capacity);
    if capacity < n {
        return Err(Refusal {
            code: 9,
            field: 0,
            place: 0,
            first: list::GUIDS as u64,
            second: capacity as u64,
        });
    }
    if n == 0 {
        return Ok(0);
    }
    fill(together, walk, guid, &fields, n, guids);
    Ok(n)
}

// The GUIDs of the templates of the events with a key, each once, in first-seen order, into a lent list.
pub fn templates_for(lists: &Lists, key: Key, guids: &mut [u32]) -> Result<u32, Refusal>
    ensures { right.AllowedFor lists.now.words.now lists.now.capacities lists.now.counts key guids.old result guids.new }
{
    if (MOST as usize) < guids.len() / GUID {
        return Err(bounds::own(8));
    }
    let together = lists.fit_together()?;
    let g = key.guid;
    let guid = [g.a, g.b, g.c, g.d];
    let providers = together.fitted.lists.run_of(List::Providers);
    let Some(walk) = next_provider(&together, providers, &guid) else {
        return Ok(0);
    };
    give(&together, walk, &guid, key, guids)
}
