// The second pass over a block whose providers are fine: each list stored in its area, list after list, by a walk over the providers.
#![tactic(auto)]

ghost use Rattle.std.specs.Prelude.{◌≡◌, true, [], ◌+◌, ◌*◌, ◌-◌, ◌≤◌, length};
ghost use Rattle.blob.specs.Reading.{run, verdict};
ghost use Rattle.blob.specs.Laid.{laid};
ghost use Rattle.format.specs.Answer as spec;
ghost use Rattle.format.specs.Area.{rows, none};
ghost use Rattle.format.specs.Named.{number_of};
ghost use Rattle.format.specs.Lists.{lists};
ghost use Rattle.format.specs.Steps.Needs as need;
ghost use Rattle.format.specs.Steps.Parts as parts;
ghost use Rattle.areas.specs.Areas.{providers, providers_in, roomy};

use format::list::{AREAS, List};

// Where a walk over the providers stands, if it keeps no number: the place of the next one's descriptor, and how many are left.
#[derive(Clone, Copy)]
pub struct Position {
    pub at: usize,
    pub left: u32,
}

impl Position {
    // Before the first of n providers.
    pub fn first(n: u32) -> Position
        ensures { (result.at ≡ 16) × (result.left ≡ n) }
    {
        Position { at: 16, left: n }
    }

    // Behind the next one.
    pub fn next(self) -> Position
        requires { (self.at ≤ 16777216) × (1 ≤ self.left) }
        ensures { (result.at ≡ self.at + 20) × (result.left ≡ self.left - 1) }
    {
        Position {
            at: self.at + 20,
            left: self.left - 1,
        }
    }
}

// Stores what a list, given by its number as to `provided::fill`, has of n providers that are fine.
fn fill(b: &[u8], n: u32, list: u32, area: &mut [u32])
    requires n_in_bounds { (16 + 20 * n ≤ length b.now) × (length b.now ≤ 16777216) }
    requires b_value { verdict (run (providers n) b.now) ≡ Ok tt }
    requires room { parts.Room (parts.parts list 0 none (providers_in n b.now)) (parts.passed_all list none (providers_in n b.now)) area.old }
    ensures { area.new ≡ laid area.old 0 (parts.parts list 0 none (providers_in n b.now)) }
{
    let mut before = [0; AREAS];
    let mut to = 0;
    for number in 0..n {
        let at = 16 + 20 * (number as usize);
        to += provided::fill(b, at, list, number, &mut before, &mut area[to..]);
    }
}

// Stores a list in its area, a part of the lent words that starts in their middle, of so many of them; hands back where it ends. A list
// that needs nothing is not walked over.
fn fill_area(
    b: &[u8],
    n: u32,
    list: u32,
    words: &mut [u32],
    from: usize,
    size: usize,
    need: u32,
) -> usize
    requires n_in_bounds { (16 + 20 * n ≤ length b.now) × (length b.now ≤ 16777216) }
    requires b_value { verdict (run (providers n) b.now) ≡ Ok tt }
    requires size_in_bounds { from + size ≤ length words.old }
    requires b_len_bound { (length (parts.parts list 0 none (providers_in n b.now)) ≤ size) × parts.Counted (parts.passed_all list none (providers_in n b.now)) }
    requires b_value_2 { need ≡ 0 → parts.parts list 0 none (providers_in n b.now) ≡ [] }
    ensures value { result ≡ from + size }
    ensures words_after { words.new ≡ laid words.old from (parts.parts list 0 none (providers_in n b.now)) }
{
    let to = from + size;
    if need == 0 {
        return to;
    }
    fill(b, n, list, &mut words[from..to]);
    to
}

// Stores the lists of n providers that are fine, each in its area, which starts where the one before ends.
pub fn fill_areas(
    b: &[u8],
    n: u32,
    needs: [u32; AREAS],
    capacities: [u32; AREAS],
    words: &mut [u32],
)
    requires n_in_bounds { (16 + 20 * n ≤ length b.now) × (length b.now ≤ 16777216) }
    requires b_value { verdict (run (providers n) b.now) ≡ Ok tt }
    requires needs_value { (needs ≡ need.needs_all none (providers_in n b.now)) × (spec.lent_enough capacities words.old ≡ true) }
    requires roomy { roomy capacities (providers_in n b.now) }
    ensures { words.new ≡ spec.filled words.old 0 rows capacities (lists (providers_in n b.now)) }
{
    let mut to = 0;
    for (i, list) in List::ALL.iter().enumerate() {
        let size = counts::words_of(capacities[i], *list);
        to = fill_area(b, n, list.number(), words, to, size, needs[i]);
    }
}
