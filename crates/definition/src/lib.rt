// The tables of definitions: a record by its kind, then its name; their check and their words.
#![tactic(auto)]

ghost use Rattle.std.specs.Prelude.{◌≡◌, ◌+◌, ◌*◌, ◌≤◌, length};
ghost use Rattle.blob.specs.Reading.{run, done, verdict, values};
ghost use Rattle.blob.specs.Laid.{laid, flat};
ghost use Rattle.format.specs.Area.{DEFINITIONS, width};
ghost use Rattle.format.specs.Table.{header_length, stride};
ghost use Rattle.format.specs.Kinds.{number};
ghost use Rattle.format.specs.Definition.{channel_fields, keyword_fields, task_fields, plain_fields, fields_at, name_field, named, definition_at, definitions_at};
ghost use Rattle.format.specs.Lists.{definition_words};
ghost use Rattle.definition.specs.Records.{rows, name_place};

use blob::Refusal;
use format::field::{CHAN_NAME, KEYW_DATA, LEVL_DATA, OPCO_DATA, TASK_DATA};
use format::kind::Kind;
use format::list::width;
use format::{Definition, Guid, Header, Name};
use name::absent;
use table::{header_length, stride, table_end};
use words::guid_at;

// The field of a kind's names; 0 where it has none. (A match, here and in `table`: a constant array is made anew wherever it is read.)
fn name_field(kind: Kind) -> u8
    ensures { result ≡ name_field (number kind) }
{
    match kind {
        Kind::Chan => CHAN_NAME,
        Kind::Keyw => KEYW_DATA,
        Kind::Levl => LEVL_DATA,
        Kind::Opco => OPCO_DATA,
        Kind::Task => TASK_DATA,
        _ => 0,
    }
}

// No GUID, of a kind that has none.
fn none() -> Guid
    ensures { result ≡ record { a = 0; b = 0; c = 0; d = 0 } }
{
    Guid {
        a: 0,
        b: 0,
        c: 0,
        d: 0,
    }
}

// CHAN: identifier, name offset, unknown, message. Here and below the name is still to be read. (A function for each: a table of places by
// kind would not show what a record holds.)
fn channel(b: &[u8], at: usize) -> Definition
    requires { at + 16 ≤ length b.now }
    ensures { run (channel_fields at) b.now ≡ done result }
{
    Definition {
        kind: Kind::Chan.number(),
        low: blob::word(b, at),
        high: 0,
        message: blob::word(b, at + 12),
        offset: blob::word(b, at + 4),
        name: absent(),
        unknown: blob::word(b, at + 8),
        mui: none(),
    }
}

// KEYW: identifier, message, name offset.
fn keyword(b: &[u8], at: usize) -> Definition
    requires { at + 16 ≤ length b.now }
    ensures { run (keyword_fields at) b.now ≡ done result }
{
    Definition {
        kind: Kind::Keyw.number(),
        low: blob::word(b, at),
        high: blob::word(b, at + 4),
        message: blob::word(b, at + 8),
        offset: blob::word(b, at + 12),
        name: absent(),
        unknown: 0,
        mui: none(),
    }
}

// TASK: identifier, message, GUID, name offset.
fn task(b: &[u8], at: usize) -> Definition
    requires { at + 28 ≤ length b.now }
    ensures { run (task_fields at) b.now ≡ done result }
{
    Definition {
        kind: Kind::Task.number(),
        low: blob::word(b, at),
        high: 0,
        message: blob::word(b, at + 4),
        offset: blob::word(b, at + 24),
        name: absent(),
        unknown: 0,
        mui: guid_at(b, at + 8),
    }
}

// LEVL and OPCO: identifier, message, name offset.
fn plain(b: &[u8], kind: Kind, at: usize) -> Definition
    requires { at + 12 ≤ length b.now }
    ensures { run (plain_fields (number kind) at) b.now ≡ done result }
{
    Definition {
        kind: kind.number(),
        low: blob::word(b, at),
        high: 0,
        message: blob::word(b, at + 4),
        offset: blob::word(b, at + 8),
        name: absent(),
        unknown: 0,
        mui: none(),
    }
}

// A record's own fields, by its kind.
#[tactic(auto, unfolding(format::specs::Definition::fields_at))]
fn fields_at(b: &[u8], kind: Kind, at: usize) -> Definition
    requires { (12 ≤ stride (number kind)) × (at + stride (number kind) ≤ length b.now) }
    ensures { run (fields_at (number kind) at) b.now ≡ done result }
{
    match kind {
        Kind::Chan => channel(b, at),
        Kind::Keyw => keyword(b, at),
        Kind::Task => task(b, at),
        _ => plain(b, kind, at),
    }
}

// A definition with its name.
fn with_name(d: Definition, n: Name) -> Definition
    ensures { result ≡ named d n }
{
    let mut out = d;
    out.name = n;
    out
}

// Where the name offset stands in a kind's record.
fn name_place(kind: Kind) -> usize
    requires { 12 ≤ stride (number kind) }
    ensures { (result ≡ name_place (number kind)) × (result + 4 ≤ stride (number kind)) }
{
    match kind {
        Kind::Chan => 4,
        Kind::Keyw => 12,
        Kind::Task => 24,
        _ => 8,
    }
}

// Whether n records of a kind stand one after another from a place on, each with its name.
fn check_records(b: &[u8], kind: Kind, start: usize, n: u32) -> Result<(), Refusal>
    requires kind_bound { (12 ≤ stride (number kind)) × (start + stride (number kind) * n ≤ length b.now) }
    requires b_len_bound { length b.now ≤ 16777216 }
    ensures { result ≡ verdict (run (rows (number kind) (stride (number kind)) n start) b.now) }
{
    let bytes = stride(Some(kind)) as usize;
    let field = name_field(kind);
    let place = name_place(kind);
    for i in 0..n as usize {
        let offset = blob::word(b, start + bytes * i + place);
        name::check(b, b.len(), field, offset)?;
    }
    Ok(())
}

// Whether the table of definitions at a place is right, whose header has been read.
pub fn check_definitions(b: &[u8], kind: Kind, at: usize, h: Header) -> Result<(), Refusal>
    requires kind_bound { (12 ≤ stride (number kind)) × (at + header_length (number kind) ≤ length b.now) }
    requires b_len_bound { length b.now ≤ 16777216 }
    ensures { result ≡ verdict (run (definitions_at (number kind) at h) b.now) }
{
    table_end(b, kind, at, h)?;
    check_records(b, kind, at + header_length(kind) as usize, h.count)
}

// The definition whose record stands at a place, and whose name is known to be fine.
fn definition_of(b: &[u8], kind: Kind, at: usize) -> Definition
    requires kind_bound { (12 ≤ stride (number kind)) × (at + stride (number kind) ≤ length b.now) }
    requires b_len_bound { length b.now ≤ 16777216 }
    requires b_value { verdict (run (definition_at (number kind) at) b.now) ≡ Ok tt }
    ensures { run (definition_at (number kind) at) b.now ≡ done result }
{
    let d = fields_at(b, kind, at);
    with_name(d, name::name_of(b, b.len(), name_field(kind), d.offset))
}

// Stores a definition's words from a place of the area on.
fn put_definition(area: &mut [u32], to: usize, d: Definition)
    requires { to + width DEFINITIONS ≤ length area.old }
    ensures { area.new ≡ laid area.old to (definition_words d) }
{
    let entry = [
        d.kind,
        d.low,
        d.high,
        d.message,
        d.offset,
        d.name.start,
        d.name.units,
        d.unknown,
        d.mui.a,
        d.mui.b,
        d.mui.c,
        d.mui.d,
        d.name.ended as u32,
    ];
    words::put(area, to, &entry);
}

// Stores the words of n records that `check_records` found fine.
fn fill_records(b: &[u8], kind: Kind, start: usize, n: u32, area: &mut [u32])
    requires kind_bound { (12 ≤ stride (number kind)) × (start + stride (number kind) * n ≤ length b.now) }
    requires b_len_bound { length b.now ≤ 16777216 }
    requires b_value { verdict (run (rows (number kind) (stride (number kind)) n start) b.now) ≡ Ok tt }
    requires n_in_bounds { width DEFINITIONS * n ≤ length area.old }
    ensures { area.new ≡ laid area.old 0 (flat definition_words (values (run (rows (number kind) (stride (number kind)) n start) b.now))) }
{
    let bytes = stride(Some(kind)) as usize;
    for i in 0..n as usize {
        let d = definition_of(b, kind, start + bytes * i);
        put_definition(area, width::DEFINITIONS * i, d);
    }
}

// Stores the words of a table of definitions that `check_definitions` found fine.
pub fn fill_definitions(b: &[u8], kind: Kind, at: usize, h: Header, area: &mut [u32])
    requires kind_bound { (12 ≤ stride (number kind)) × (at + header_length (number kind) ≤ length b.now) }
    requires b_len_bound { length b.now ≤ 16777216 }
    requires b_value { verdict (run (definitions_at (number kind) at h) b.now) ≡ Ok tt }
    requires count_in_bounds { width DEFINITIONS * h.count ≤ length area.old }
    ensures { area.new ≡ laid area.old 0 (flat definition_words (values (run (definitions_at (number kind) at h) b.now))) }
{
    fill_records(b, kind, at + header_length(kind) as usize, h.count, area);
}
