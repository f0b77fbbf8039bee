ghost use Rattle.std.specs.Prelude.{◌≡◌, ◌≤◌, ◌<◌, ◌⊎◌, MatchOption};
ghost use Rattle.format.specs.Kinds as kinds;

// The kinds of tables, by their numbers.
#[derive(Clone, Copy)]
pub enum Kind {
    Chan = 1,
    Evnt = 2,
    Keyw = 3,
    Levl = 4,
    Maps = 5,
    Opco = 6,
    Task = 7,
    Ttbl = 8,
}

impl Kind {
    // In the order of their numbers.
    pub const ALL: [Kind; 8] = [
        Kind::Chan,
        Kind::Evnt,
        Kind::Keyw,
        Kind::Levl,
        Kind::Maps,
        Kind::Opco,
        Kind::Task,
        Kind::Ttbl,
    ];

    // From 1 to 8.
    pub fn number(self) -> u32
        ensures { (result ≡ kinds.number self) × (1 ≤ result) × (result ≤ 8) }
    {
        self as u32
    }

    // The kind with a number.
    pub fn of(number: u32) -> Option<Kind>
        ensures { MatchOption result ((number < 1) ⊎ (8 < number)) (λ k. kinds.number k ≡ number) }
    {
        match number {
            1 => Some(Kind::Chan),
            2 => Some(Kind::Evnt),
            3 => Some(Kind::Keyw),
            4 => Some(Kind::Levl),
            5 => Some(Kind::Maps),
            6 => Some(Kind::Opco),
            7 => Some(Kind::Task),
            8 => Some(Kind::Ttbl),
            _ => None,
        }
    }
}

// Kinds of maps.
pub const VALUE_MAP: u32 = 1;

pub const BIT_MAP: u32 = 2;

pub const OTHER_MAP: u32 = 3;
