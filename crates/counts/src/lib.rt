// Numbers of entries, one for each list that has an area, in the order of the rows: what the lists need, added up and held against what
// the caller lends.
#![tactic(auto)]

ghost use Rattle.std.specs.Prelude.{◌≡◌, ◌&&◌, ◌*◌, ◌≤◌, leb, take};
ghost use Rattle.format.specs.Area as area;
ghost use Rattle.format.specs.Named.{number_of};
ghost use Rattle.format.specs.Answer as answer;
ghost use Rattle.format.specs.Steps.Needs as needs;
ghost use Rattle.format.specs.Table.{kind_list};
ghost use Rattle.format.specs.Kinds.{number};
ghost use Rattle.counts.specs.Short.{short};

use blob::Refusal;
use format::kind::Kind;
use format::list::{AREAS, List, MOST};

// Which list has the entries of a kind's tables.
pub fn list_of(kind: Kind) -> List
    ensures { number_of result ≡ kind_list (number kind) }
{
    match kind {
        Kind::Evnt => List::Events,
        Kind::Maps => List::Maps,
        Kind::Ttbl => List::Templates,
        _ => List::Definitions,
    }
}

// With so many more in the list of a kind's entries, as far as anyone asks.
pub fn grow(ns: [u32; AREAS], kind: Kind, n: u32) -> [u32; AREAS]
    requires { needs.modest ns }
    ensures { result ≡ needs.grown (kind_list (number kind)) n ns }
{
    let i = list_of(kind).row();
    let mut out = ns;
    out[i] = bounds::sum(out[i], n);
    out
}

// What is needed with some more, as far as anyone asks.
pub fn add(all: [u32; AREAS], more: [u32; AREAS]) -> [u32; AREAS]
    requires { needs.modest all }
    ensures { result ≡ needs.plus all more }
{
    let mut sums = all;
    for i in 0..AREAS {
        sums[i] = bounds::sum(sums[i], more[i]);
    }
    sums
}

// The words of so many entries of a list.
pub fn words_of(entries: u32, list: List) -> usize
    ensures { (result ≡ entries * area.width (number_of list)) × (result ≤ area.WIDEST * 4294967295) }
{
    (entries as usize) * list.width()
}

// Whether the capacities, and so many lent words, will do.
pub fn lent_enough(c: [u32; AREAS], words: usize) -> bool
    ensures { result ≡ (answer.moderate c && leb (answer.areas area.rows c) words) }
{
    let mut sum = 0;
    for (i, list) in List::ALL.iter().enumerate() {
        if MOST < c[i] {
            return false;
        }
        sum += words_of(c[i], *list);
    }
    sum <= words
}

// Where the area of a list starts: those before it end there.
pub fn area_at(c: [u32; AREAS], list: List) -> usize
    ensures { (result ≡ answer.areas area.rows (take (area.place (number_of list)) c)) × (result ≤ area.AREAS * (area.WIDEST * 4294967295)) }
{
    let mut sum = 0;
    for (i, before) in List::ALL[..list.row()].iter().enumerate() {
        sum += words_of(c[i], *before);
    }
    sum
}

// Whether each list has room for what it needs; else 9, for the lowest-numbered list that has not.
pub fn room(c: [u32; AREAS], needs: [u32; AREAS]) -> Result<(), Refusal>
    ensures { result ≡ short area.rows c needs }
{
    for (i, list) in List::ALL.iter().enumerate() {
        if c[i] < needs[i] {
            return Err(Refusal {
                code: 9,
                field: 0,
                place: 0,
                first: list.number() as u64,
                second: c[i] as u64,
            });
        }
    }
    Ok(())
}
