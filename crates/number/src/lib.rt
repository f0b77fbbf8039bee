// Numbers in seven-bit groups: one coder for all widths.
#![tactic(auto)]

ghost use Rattle.std.specs.Prelude.{◌≡◌, true, ◌+◌, ◌≤◌, length};
ghost use Rattle.blob.specs.Reading.{done};
ghost use Rattle.blob.specs.Laid.{laid};
ghost use Rattle.number.specs.Number as right;
ghost use Rattle.number.specs.Scan as spec;

// The most bytes that a number has.
const LONGEST: usize = 10;

// How wide a number is: 8, 16, 32 or 64 bits.
#[derive(Clone, Copy)]
pub enum Width {
    Byte,
    Half,
    Word,
    Long,
}

impl Width {
    // The largest number that has it.
    pub fn most(self) -> u64
        ensures { result ≡ spec.most self }
    {
        match self {
            Width::Byte => 255,
            Width::Half => 65535,
            Width::Word => 4294967295,
            Width::Long => 18446744073709551615,
        }
    }
}

// Why no number stands at a place: the bytes run out before its last one, or it is longer than shortest or past its width.
#[derive(Clone, Copy)]
pub enum Fault {
    Cut,
    Wrong,
}

impl Fault {
    // The code that it is refused with.
    pub fn code(self) -> u8
        ensures { result ≡ spec.code self }
    {
        match self {
            Fault::Cut => 15,
            Fault::Wrong => 16,
        }
    }
}

// A number, and the place behind it.
#[derive(Clone, Copy)]
pub struct Number {
    pub value: u64,
    pub behind: usize,
}

// Whether a last byte is one: not past what its width leaves for it, and not zero behind others.
fn last(byte: u8, limit: u64, first: bool) -> bool
    ensures { result ≡ spec.last byte limit first }
{
    u64::from(byte) <= limit && (first || byte != 0)
}

// The place behind the number at a place, if it is one of a width, told by the largest number that has it. No value is worked out: the groups
// before the last can't take it past a width of ones only. (By that number and no `Width`: it answers for every width of ones.)
pub fn pass(bytes: &[u8], at: usize, most: u64) -> Result<usize, Fault>
    requires { spec.ones right.LONGEST most ≡ true }
    ensures { result ≡ spec.passed (right.number_at most bytes.now at) }
{
    let mut limit = most;
    for k in 0..LONGEST {
        let i = at + k;
        if bytes.len() <= i {
            return Err(Fault::Cut);
        }
        let byte = bytes[i];
        if byte < 128 {
            if last(byte, limit, i == at) {
                return Ok(i + 1);
            }
            return Err(Fault::Wrong);
        }
        limit = limit / 128;
    }
    Err(Fault::Wrong)
}

// The number at a place where one of any width stands.
pub fn read(bytes: &[u8], at: usize) -> Number
    requires { spec.Stands bytes.now at }
    ensures { right.number_at right.LONG bytes.now at ≡ done result }
{
    let mut value: u64 = 0;
    let mut scale: u64 = 1;
    let mut i = at;
    // No count: the last byte says that it is one.
    loop {
        let byte = bytes[i];
        if byte < 128 {
            return Number {
                value: value + (byte as u64) * scale,
                behind: i + 1,
            };
        }
        value += (byte % 128) as u64 * scale;
        scale = scale * 128;
        i += 1;
    }
}

// How many bytes a number takes.
pub fn size(number: u64) -> usize
    ensures { result ≡ length (right.form number) }
{
    let mut rest = number;
    let mut n: usize = 1;
    // No count: it steps by what is left of the number.
    while 128 <= rest {
        rest = rest / 128;
        n += 1;
    }
    n
}

// Stores a number at a place, where there is room for it; hands back the place behind it.
pub fn put(bytes: &mut [u8], at: usize, number: u64) -> usize
    requires { at + length (right.form number) ≤ length bytes.old }
    ensures value { result ≡ at + length (right.form number) }
    ensures bytes_after { bytes.new ≡ laid bytes.old at (right.form number) }
{
    let mut rest = number;
    let mut i = at;
    // No count, as in `size`.
    while 128 <= rest {
        bytes[i] = 128 + (rest % 128) as u8;
        rest = rest / 128;
        i += 1;
    }
    bytes[i] = rest as u8;
    i + 1
}
