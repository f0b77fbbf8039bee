// Lists that were read, over the lent words, capacities and counts of a reading: whether they fit together, where an entry stands, what
// is found among entries, and which provider an event belongs to. Nothing here knows the bytes that were read.
#![tactic(auto)]

ghost use Rattle.std.specs.Prelude.{◌≡◌, true, ◌&&◌, [], ◌∷◌, ◌+◌, ◌*◌, ◌≤◌, ◌<◌, leb, ltb, length, take, drop, MatchResult, Ok, Err};
ghost use Rattle.format.specs.Area as area;
ghost use Rattle.format.specs.Named.{number_of};
ghost use Rattle.format.specs.Answer as answer;
ghost use Rattle.format.specs.Table.{kind_list};
ghost use Rattle.format.specs.Kinds as kinds;
ghost use Rattle.format.specs.Lookup as right;
ghost use Rattle.format.specs.Owner.{events_owned};
ghost use Rattle.lists.specs.Found as spec;
ghost use Rattle.lists.specs.Owners as owner;

use blob::Refusal;
use format::entry::{
    TABLE_COUNT, TABLE_FIRST, TABLE_KIND, TABLE_PROVIDER, TEMPLATE_OFFSET, TEMPLATE_PROVIDER,
};
use format::kind::Kind;
use format::list::{AREAS, List, MOST, row, width};

// The lists of a reading, as they are lent.
#[derive(Clone, Copy)]
pub struct Lists<'a> {
    pub words: &'a [u32],
    pub capacities: [u32; AREAS],
    pub counts: [u32; AREAS],
}

// Lists whose entries stand in the words.
#[derive(Clone, Copy)]
pub struct Fitted<'a> {
    pub lists: Lists<'a>,
    pub ghost fits: { spec.Fit lists.words.now lists.capacities lists.counts },
}

// Such lists whose tables name what is there.
#[derive(Clone, Copy)]
pub struct Together<'a> {
    pub fitted: Fitted<'a>,
    pub ghost tables_fit: { right.tables_fit fitted.lists.counts (right.entries_of fitted.lists.words.now fitted.lists.capacities fitted.lists.counts area.TABLES) ≡ true },
}

// Entries of a list, one behind the other: where in the lent words the list starts, the number of the first of them in the list, and
// how many they are. (A slice of the words would lose the number.)
#[derive(Clone, Copy)]
pub struct Run {
    pub start: usize,
    pub first: u32,
    pub count: u32,
}

// Whether the words from a place on are some others.
pub fn same(words: &[u32], at: usize, key: &[u32]) -> bool
    requires { at + length key.now ≤ length words.now }
    ensures { result ≡ right.alike (take (length key.now) (drop at words.now)) key.now }
{
    // As slices, by `==`, they were compared at half the speed: a call for a few words.
    for (i, word) in key.iter().enumerate() {
        if words[at + i] != *word {
            return false;
        }
    }
    true
}

// Where an entry stands, by its number, in a list that starts at a place.
pub fn entry_at(start: usize, list: List, number: u32) -> usize
    requires { start + area.width (number_of list) * number < 18446744073709551616 }
    ensures { result ≡ start + area.width (number_of list) * number }
{
    start + counts::words_of(number, list)
}

// The lowest of some entries of a list that has some words from its word `from` on.
pub fn find(words: &[u32], run: Run, list: List, from: usize, key: &[u32]) -> Option<u32>
    requires key_in_entry { from + length key.now ≤ area.width (number_of list) }
    requires few { spec.few (area.width (number_of list)) run words.now }
    ensures { result ≡ spec.found (right.position (spec.has from key.now) run.first (spec.entries (area.width (number_of list)) run words.now)) }
{
    let width = list.width();
    for number in run.first..run.first + run.count {
        let at = run.start + width * (number as usize);
        if same(words, at + from, key) {
            return Some(number);
        }
    }
    None
}

// The lowest of some templates at an offset.
pub fn at_offset(words: &[u32], templates: Run, offset: u32) -> Option<u32>
    requires { spec.few (area.width area.TEMPLATES) templates words.now }
    ensures { result ≡ spec.found (spec.lowest words.now templates offset) }
{
    let key = [offset];
    find(words, templates, List::Templates, TEMPLATE_OFFSET, &key)
}

// Those of some entries that are behind one of them, by its number.
pub fn behind(run: Run, n: u32) -> Run
    requires { (n < run.first + run.count) × (run.first + run.count ≤ 65536) }
    ensures { result ≡ spec.behind run n }
{
    Run {
        start: run.start,
        first: n + 1,
        count: run.first + run.count - (n + 1),
    }
}

// Whether no count is over its capacity.
pub fn counts_fit(c: [u32; AREAS], capacities: [u32; AREAS]) -> bool
    ensures { result ≡ right.counts_fit c capacities }
{
    counts::room(capacities, c).is_ok()
}

impl<'a> Lists<'a> {
    // A whole list.
    pub fn run_of(&self, list: List) -> Run
        ensures { result ≡ spec.run_of self.now.capacities self.now.counts (area.place (number_of list)) }
    {
        let start = counts::area_at(self.capacities, list);
        Run {
            start,
            first: 0,
            count: self.counts[list.row()],
        }
    }

    // 8, and 10 for a count over its capacity.
    pub fn fits(&self) -> Result<(), Refusal>
        ensures { result ≡ spec.fit self.now.words.now self.now.capacities self.now.counts }
    {
        if !counts::lent_enough(self.capacities, self.words.len()) {
            return Err(bounds::own(8));
        }
        if !counts_fit(self.counts, self.capacities) {
            return Err(bounds::own(10));
        }
        Ok(())
    }

    // The same, and hands on what was tested.
    pub fn fit(&self) -> Result<Fitted<'a>, Refusal>
        ensures { MatchResult result (λ f. (f.lists ≡ self.now) × (spec.fit self.now.words.now self.now.capacities self.now.counts ≡ Ok tt))
            (λ r. spec.fit self.now.words.now self.now.capacities self.now.counts ≡ Err r) }
    {
        self.fits()?;
        Ok(Fitted { lists: *self })
    }

    // 8, and 10 for a count over its capacity, for a table that names what is not there, or for a TTBL with a template of another provider.
    pub fn fit_together(&self) -> Result<Together<'a>, Refusal>
        ensures { MatchResult result (λ t. (t.fitted.lists ≡ self.now) × (spec.fit_together self.now.words.now self.now.capacities self.now.counts ≡ Ok tt))
            (λ r. spec.fit_together self.now.words.now self.now.capacities self.now.counts ≡ Err r) }
    {
        let fitted = self.fit()?;
        if !fitted.tables_fit() {
            return Err(bounds::own(10));
        }
        Ok(Together { fitted })
    }
}

// Whether a provider is there, a word is a kind's number, and a range is one of the kind's list. (A number, since the lent word may be none.)
fn in_lists(c: [u32; AREAS], provider: u32, kind: u32, first: u32, count: u32) -> bool
    ensures { result ≡ (ltb provider (area.of area.PROVIDERS c) && (leb 1 kind && (leb kind 8 && leb (first + count) (area.of (kind_list kind) c)))) }
{
    if c[row::PROVIDERS] <= provider {
        return false;
    }
    let Some(kind) = Kind::of(kind) else {
        return false;
    };
    let list = counts::list_of(kind);
    (first as u64) + (count as u64) <= (c[list.row()] as u64)
}

// A word of the table entry at a place.
fn table_word(words: &[u32], at: usize, i: usize) -> u32
    requires { (at + area.width area.TABLES ≤ length words.now) × (i < area.width area.TABLES) }
    ensures { result ≡ right.word_of i (take (area.width area.TABLES) (drop at words.now)) }
{
    words[at + i]
}

// Whether a table entry names such.
fn table_fits(words: &[u32], at: usize, c: [u32; AREAS]) -> bool
    requires { at + area.width area.TABLES ≤ length words.now }
    ensures { result ≡ right.table_fits c (take (area.width area.TABLES) (drop at words.now)) }
{
    in_lists(
        c,
        table_word(words, at, TABLE_PROVIDER),
        table_word(words, at, TABLE_KIND),
        table_word(words, at, TABLE_FIRST),
        table_word(words, at, TABLE_COUNT),
    )
}

// The entries that a table has, by where it stands, in a list that starts at a place.
fn range_at(words: &[u32], at: usize, start: usize) -> Run
    requires { at + area.width area.TABLES ≤ length words.now }
    ensures { result ≡ spec.range_in start (take (area.width area.TABLES) (drop at words.now) ∷ []) }
{
    Run {
        start,
        first: table_word(words, at, TABLE_FIRST),
        count: table_word(words, at, TABLE_COUNT),
    }
}

// Whether all of some templates are a provider's.
fn all_of(words: &[u32], templates: Run, provider: u32) -> bool
    requires { spec.few (area.width area.TEMPLATES) templates words.now }
    ensures { result ≡ right.all_of provider (spec.entries (area.width area.TEMPLATES) templates words.now) }
{
    for number in templates.first..templates.first + templates.count {
        let at = templates.start + width::TEMPLATES * (number as usize);
        if words[at + TEMPLATE_PROVIDER] != provider {
            return false;
        }
    }
    true
}

// Whether a table entry that fits, if it is a TTBL's, has its own provider's templates alone, of all of them.
fn table_owns(words: &[u32], at: usize, templates: Run) -> bool
    requires tables_in_bounds { (at + area.width area.TABLES ≤ length words.now) × spec.few (area.width area.TEMPLATES) templates words.now }
    requires first_value { (templates.first ≡ 0) × spec.range_within (take (area.width area.TABLES) (drop at words.now)) templates }
    ensures { result ≡ right.table_owns (spec.entries (area.width area.TEMPLATES) templates words.now) (take (area.width area.TABLES) (drop at words.now)) }
{
    if table_word(words, at, TABLE_KIND) != Kind::Ttbl.number() {
        return true;
    }
    let provider = table_word(words, at, TABLE_PROVIDER);
    all_of(words, range_at(words, at, templates.start), provider)
}

impl<'a> Fitted<'a> {
    // Whether each table entry names what is there, and each TTBL's has its own provider's templates. Where ranges do not overlap, as those
    // of a reading's lists, no template is looked at twice.
    fn tables_fit(&self) -> bool
        ensures { result ≡ spec.tables_hold self.now.lists.counts (right.entries_of self.now.lists.words.now self.now.lists.capacities self.now.lists.counts area.TEMPLATES)
            (right.entries_of self.now.lists.words.now self.now.lists.capacities self.now.lists.counts area.TABLES) }
    {
        let words = self.lists.words;
        let templates = self.lists.run_of(List::Templates);
        let tables = self.lists.run_of(List::Tables);
        for i in 0..tables.count as usize {
            let at = tables.start + width::TABLES * i;
            if !table_fits(words, at, self.lists.counts) {
                return false;
            }
            if !table_owns(words, at, templates) {
                return false;
            }
        }
        true
    }

    // The entries that a provider's first table of a kind has in the kind's list; none where it has no such table. (Never inlined: within
    // the loop over events, the loop over the tables took half as long again where it came to lie badly.)
    #[inline(never)]
    pub fn owned(&self, provider: u32, kind: Kind) -> Run
        ensures { result ≡ spec.owned self.now.lists.words.now self.now.lists.capacities self.now.lists.counts provider (kinds.number kind) }
    {
        let words = self.lists.words;
        let start = counts::area_at(self.lists.capacities, counts::list_of(kind));
        let tables = self.lists.run_of(List::Tables);
        let key = [provider, kind.number()];
        let Some(n) = find(words, tables, List::Tables, TABLE_PROVIDER, &key) else {
            return Run {
                start,
                first: 0,
                count: 0,
            };
        };
        range_at(words, entry_at(tables.start, List::Tables, n), start)
    }
}

// What is stored for an event that belongs to no provider: no provider's number, since a list has no more entries. (An Option would
// take twice the memory for each event.)
pub const NOBODY: u32 = MOST;

// Gives the events of a range to a provider; false, at the first that belongs to one already.
fn take_events(owners: &mut [u32; 65536], first: u32, count: u32, provider: u32) -> bool
    requires { (length owners.old ≡ 65536) × (first + count ≤ 65536) × (provider < owner.NOBODY) }
    ensures { owner.EventsTaken owners.old first (first + count) provider owners.new result }
{
    for at in first as usize..(first + count) as usize {
        if owners[at] != NOBODY {
            return false;
        }
        owners[at] = provider;
    }
    true
}

// Gives the events of a table's range to its provider, where it is the provider's first EVNT; false, where one belongs to one already.
fn take_table(words: &[u32], at: usize, seen: &mut [bool; 65536], owners: &mut [u32; 65536]) -> bool
    requires tables_in_bounds { (at + area.width area.TABLES ≤ length words.now) × (length owners.old ≡ 65536) }
    requires bounded { owner.Bounded (take (area.width area.TABLES) (drop at words.now)) }
    ensures { owner.TableTaken owners.old seen.old (take (area.width area.TABLES) (drop at words.now)) owners.new seen.new result }
{
    if table_word(words, at, TABLE_KIND) != Kind::Evnt.number() {
        return true;
    }
    let provider = table_word(words, at, TABLE_PROVIDER);
    let i = provider as usize;
    if seen[i] {
        return true;
    }
    seen[i] = true;
    take_events(
        owners,
        table_word(words, at, TABLE_FIRST),
        table_word(words, at, TABLE_COUNT),
        provider,
    )
}

// Whether each of the first n events belongs to a provider.
fn all_owned(owners: &[u32; 65536], n: u32) -> bool
    requires { n ≤ 65536 }
    ensures { owner.AllOwned owners.now n result }
{
    for i in 0..n as usize {
        if owners[i] == NOBODY {
            return false;
        }
    }
    true
}

impl<'a> Together<'a> {
    // Stores for each event the number of the provider that it belongs to; false, where one is in no provider's EVNT range or in two. Each
    // table is looked at once, and each event twice at most.
    pub fn owners(&self, owners: &mut [u32; 65536]) -> bool
        requires { owners.old ≡ owner.nobodys }
        ensures value { result ≡ events_owned self.now.fitted.lists.words.now self.now.fitted.lists.capacities self.now.fitted.lists.counts }
        ensures owns { owner.Owns (right.entries_of self.now.fitted.lists.words.now self.now.fitted.lists.capacities self.now.fitted.lists.counts area.TABLES) (area.of area.EVENTS self.now.fitted.lists.counts) owners.new result }
    {
        let tables = self.fitted.lists.run_of(List::Tables);
        let mut seen = [false; 65536];
        for i in 0..tables.count as usize {
            let at = tables.start + width::TABLES * i;
            if !take_table(self.fitted.lists.words, at, &mut seen, owners) {
                return false;
            }
        }
        all_owned(owners, self.fitted.lists.counts[row::EVENTS])
    }
}
