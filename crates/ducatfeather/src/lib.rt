// `read`, `needs`, the lookups and the index over lent runs of numbers. The crate ducatfeather_c hands the public functions to C.
#![tactic(auto)]

ghost use Rattle.std.specs.Prelude.{◌≡◌, ◌<◌, length, get_or};
ghost use Rattle.format.specs.Area.{AREAS};
ghost use Rattle.format.specs.Answer as spec;
ghost use Rattle.format.specs.Lookup as right;
ghost use Rattle.format.specs.Call as call;
ghost use Rattle.format.specs.Call.{called as called_block};
ghost use Rattle.index.specs.Index as index;
ghost use Rattle.index.specs.Call as called;

use blob::Refusal;
use format::list::AREAS;
use format::{Answer, Guid, Key, LONGEST};
use lists::Lists;

// The numbers of an answer: code, field, place, first, second, and the counts.
const NUMBERS: usize = 5 + AREAS;

// The lent numbers of the lists, as an array.
fn for_lists(numbers: &[u32]) -> [u32; AREAS]
    requires { length numbers.now ≡ AREAS }
    ensures { result ≡ numbers.now }
{
    let mut all = [0; AREAS];
    all.copy_from_slice(numbers);
    all
}

// The lent lists of a reading.
fn lent<'a>(words: &'a [u32], capacities: &[u32], counts: &[u32]) -> Lists<'a>
    requires { (length capacities.now ≡ AREAS) × (length counts.now ≡ AREAS) }
    ensures { (result.words.now ≡ words.now) × (result.capacities ≡ capacities.now) × (result.counts ≡ counts.now) }
{
    Lists {
        words,
        capacities: for_lists(capacities),
        counts: for_lists(counts),
    }
}

// The answer where there is another number of capacities, or of numbers for the answer.
fn refusal(blob: &[u8]) -> Answer
    ensures { result ≡ spec.answer (call.misfit blob.now) }
{
    if LONGEST < blob.len() {
        return manifest::refuse(bounds::own(7));
    }
    manifest::refuse(bounds::own(8))
}

// The answer, with n numbers to store it in.
#[tactic(auto, unfolding(format::specs::Call::called))]
fn read(blob: &[u8], words: &mut [u32], capacities: &[u32], n: usize) -> Answer
    ensures value { result ≡ spec.answer (called_block blob.now words.old capacities.now n) }
    ensures words_after { words.new ≡ spec.held words.old capacities.now (called_block blob.now words.old capacities.now n) }
{
    if capacities.len() != AREAS {
        return refusal(blob);
    }
    if n != NUMBERS {
        return refusal(blob);
    }
    manifest::read(blob, words, for_lists(capacities))
}

// The numbers of an answer.
fn numbers(a: Answer) -> [u64; NUMBERS]
    ensures { result ≡ call.numbers a }
{
    let mut all = [0; NUMBERS];
    all[0] = a.code as u64;
    all[1] = a.field as u64;
    all[2] = a.place;
    all[3] = a.first;
    all[4] = a.second;
    for i in 0..AREAS {
        all[5 + i] = a.counts[i] as u64;
    }
    all
}

// Stores an answer's numbers where as many are lent; hands back the first, its code.
#[tactic(auto, unfolding(format::specs::Call::told))]
fn tell(lent: &mut [u64], told: &[u64]) -> u32
    requires { (0 < length told.now) × (get_or told.now 0 0 < 4294967296) }
    ensures code { result ≡ get_or told.now 0 0 }
    ensures lent_after { lent.new ≡ call.told lent.old told.now }
{
    if lent.len() == told.len() {
        lent.copy_from_slice(told);
    }
    told[0] as u32
}

// Reads the block in a lent blob into lent words; include/ducatfeather.h says it in C.
pub fn ducat_read(blob: &[u8], words: &mut [u32], capacities: &[u32], answer: &mut [u64]) -> u32
    ensures { call.AllowedRead blob.now words.old capacities.now answer.old result words.new answer.new }
{
    let a = read(blob, words, capacities, answer.len());
    tell(answer, &numbers(a))
}

// What each list needs, with n numbers to store the answer in.
#[tactic(auto, unfolding(format::specs::Call::called_needs))]
fn needs(blob: &[u8], n: usize) -> Answer
    ensures { result ≡ spec.needing (call.called_needs blob.now n) }
{
    if n == NUMBERS {
        return manifest::needs(blob);
    }
    refusal(blob)
}

// Says what each list needs for the block in a lent blob.
pub fn ducat_needs(blob: &[u8], answer: &mut [u64]) -> u32
    ensures { call.AllowedNeeds blob.now answer.old result answer.new }
{
    let a = needs(blob, answer.len());
    tell(answer, &numbers(a))
}

// Whether there are a capacity and a count for each row.
fn each_row(capacities: &[u32], counts: &[u32]) -> bool
    ensures { result ≡ call.each_row capacities.now counts.now }
{
    capacities.len() == AREAS && counts.len() == AREAS
}

// A provider's template at an offset, with n numbers to store the answer in.
#[tactic(auto, unfolding(format::specs::Call::called_at))]
fn template_at(
    words: &[u32],
    capacities: &[u32],
    counts: &[u32],
    provider: u32,
    first: u32,
    count: u32,
    offset: u32,
    n: usize,
) -> Result<Option<u32>, Refusal>
    ensures { result ≡ call.called_at words.now capacities.now counts.now provider first count offset n }
{
    if !each_row(capacities, counts) {
        return Err(bounds::own(8));
    }
    if n != 6 {
        return Err(bounds::own(8));
    }
    lookup::template_at(
        &lent(words, capacities, counts),
        provider,
        first,
        count,
        offset,
    )
}

// Its six numbers.
fn template_numbers(f: Result<Option<u32>, Refusal>) -> [u64; 6]
    ensures numbers { result ≡ call.template_numbers f }
    ensures code { get_or result 0 0 < 4294967296 }
{
    match f {
        Ok(Some(n)) => [0, 0, 0, 0, 1, n as u64],
        Ok(None) => [0, 0, 0, 0, 0, 0],
        Err(r) => [r.code as u64, r.place, r.first, r.second, 0, 0],
    }
}

// Finds a provider's lowest template at an offset in a range of list 9.
pub fn ducat_template_at(
    words: &[u32],
    capacities: &[u32],
    counts: &[u32],
    provider: u32,
    first: u32,
    count: u32,
    offset: u32,
    answer: &mut [u64],
) -> u32
    ensures { call.AllowedTemplate words.now capacities.now counts.now provider first count offset answer.old result answer.new }
{
    let f = template_at(
        words,
        capacities,
        counts,
        provider,
        first,
        count,
        offset,
        answer.len(),
    );
    tell(answer, &template_numbers(f))
}

// A key of twelve words.
fn key_of(numbers: &[u32]) -> Key
    requires { length numbers.now ≡ 12 }
    ensures { result ≡ call.key_of numbers.now }
{
    Key {
        guid: Guid {
            a: numbers[0],
            b: numbers[1],
            c: numbers[2],
            d: numbers[3],
        },
        identifier: numbers[4],
        version: numbers[5],
        channel: numbers[6],
        level: numbers[7],
        opcode: numbers[8],
        task: numbers[9],
        low: numbers[10],
        high: numbers[11],
    }
}

// The GUIDs of the templates for a key, with n numbers to store the answer in.
#[tactic(auto, unfolding(format::specs::Call::called_for))]
fn templates_for(
    words: &[u32],
    capacities: &[u32],
    counts: &[u32],
    key: &[u32],
    guids: &mut [u32],
    n: usize,
) -> Result<u32, Refusal>
    ensures value { result ≡ right.guids_found (call.called_for words.now capacities.now counts.now key.now guids.old n) }
    ensures guids_after { guids.new ≡ right.guids_held guids.old (call.called_for words.now capacities.now counts.now key.now guids.old n) }
{
    if !each_row(capacities, counts) {
        return Err(bounds::own(8));
    }
    if key.len() != 12 {
        return Err(bounds::own(8));
    }
    if n != 5 {
        return Err(bounds::own(8));
    }
    lookup::templates_for(&lent(words, capacities, counts), key_of(key), guids)
}

// The five numbers of an answer that gives so many of something.
fn given_numbers(given: Result<u64, Refusal>) -> [u64; 5]
    ensures numbers { result ≡ call.guid_numbers given }
    ensures code { get_or result 0 0 < 4294967296 }
{
    match given {
        Ok(n) => [0, 0, 0, 0, n],
        Err(r) => [r.code as u64, r.place, r.first, r.second, 0],
    }
}

// Gives the GUIDs of the templates of the events with a key, each once.
pub fn ducat_templates_for(
    words: &[u32],
    capacities: &[u32],
    counts: &[u32],
    key: &[u32],
    guids: &mut [u32],
    answer: &mut [u64],
) -> u32
    ensures { call.AllowedGuids words.now capacities.now counts.now key.now guids.old answer.old result guids.new answer.new }
{
    let given = templates_for(words, capacities, counts, key, guids, answer.len());
    tell(answer, &given_numbers(given.map(|n| n as u64)))
}

// The words of an index, with n numbers to store the answer in.
#[tactic(auto, unfolding(index::specs::Call::called_read))]
fn index_read(bytes: &[u8], numbers: &mut [u32], n: usize) -> Result<usize, Refusal>
    ensures value { result ≡ index.given (called.called_read bytes.now numbers.old n) }
    ensures numbers_after { numbers.new ≡ index.held numbers.old (called.called_read bytes.now numbers.old n) }
{
    if n == 5 {
        return index::read(bytes, numbers);
    }
    Err(bounds::own(8))
}

// The bytes of the index of lists, with n numbers to store the answer in.
#[tactic(auto, unfolding(index::specs::Call::called_write))]
fn index_write(
    words: &[u32],
    capacities: &[u32],
    counts: &[u32],
    bytes: &mut [u8],
    n: usize,
) -> Result<usize, Refusal>
    ensures value { result ≡ index.given (called.called_write words.now capacities.now counts.now bytes.old n) }
    ensures bytes_after { bytes.new ≡ index.held bytes.old (called.called_write words.now capacities.now counts.now bytes.old n) }
{
    if !each_row(capacities, counts) {
        return Err(bounds::own(8));
    }
    if n != 5 {
        return Err(bounds::own(8));
    }
    indexer::write(&lent(words, capacities, counts), bytes)
}

// Reads an index back: its numbers, as words.
pub fn ducat_index_read(bytes: &[u8], numbers: &mut [u32], answer: &mut [u64]) -> u32
    ensures { called.AllowedCall (called.called_read bytes.now numbers.old (length answer.old)) numbers.old answer.old result numbers.new answer.new }
{
    let given = index_read(bytes, numbers, answer.len());
    tell(answer, &given_numbers(given.map(|n| n as u64)))
}

// Writes the index of the lists of a reading.
pub fn ducat_index_write(
    words: &[u32],
    capacities: &[u32],
    counts: &[u32],
    bytes: &mut [u8],
    answer: &mut [u64],
) -> u32
    ensures { called.AllowedCall (called.called_write words.now capacities.now counts.now bytes.old (length answer.old)) bytes.old answer.old result bytes.new answer.new }
{
    let given = index_write(words, capacities, counts, bytes, answer.len());
    tell(answer, &given_numbers(given.map(|n| n as u64)))
}
