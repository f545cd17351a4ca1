// The network that every call is given: its limits, the refusals, and checks 2 to 5.
//
// Its contracts cite specs/Numbers.antt and specs/Inside.antt.
#![tactic(auto)]

pub mod chains;
pub mod copies;

ghost use Rattle.std.specs.Prelude.{◌≡◌, ◌+◌, ◌*◌, ◌/◌, ◌<◌};
ghost use Rattle.network.specs.Numbers.{Numbers, number_of, oversize, odd, astray, mispaired, Sifted};
ghost use Rattle.network.specs.Inside.{Names, Paired};

// The most vertices, and the most ends (two to a line), that a network may have.
pub const VERTICES: usize = 512;

pub const ENDS: usize = 4096;

// What a line is, in the tables of the search. (Constants and no enum: such a table is copied as it stands into the bytes that C lends orient.)
#[derive(Drop)]
pub struct Kind {}

impl Kind {
    pub const TREE: u8 = 0;

    pub const BACK: u8 = 1;
    // Not used yet. (2 is kept for lines that are out of service.)
    pub const UNUSED: u8 = 3;
}

// What a table has where there is nothing. (A mark and no Option: memory is fixed, and a table of Options is twice as long.)
#[derive(Drop)]
pub struct Absent {}

impl Absent {
    pub const ENTRY: u16 = 65535;
}

// What an entry of a table names: nothing where the mark stands.
pub fn named(entry: u16) -> Option<usize>
    ensures { Names entry result }
{
    if entry == Absent::ENTRY {
        None
    } else {
        Some(entry as usize)
    }
}

// Why a call did not do its work: each with its number in the rules (`refusal_number`, specs/Numbers.antt).
#[derive(Clone, Copy, PartialEq, Eq)]
pub enum Refusal {
    Formless,
    Oversize,
    Cramped,
    Astray,
    Mispaired,
    Apart,
    // No choice is legal, and a ring of so many lines is written.
    Ringed(usize),
    Unaligned,
    Last,
    Unbalanced,
}

impl From<Refusal> for u8 {
    ghost from_gives = { Numbers };

    fn from(refusal: Refusal) -> u8 {
        match refusal {
            Refusal::Formless => 1,
            Refusal::Oversize => 2,
            Refusal::Cramped => 3,
            Refusal::Astray => 4,
            Refusal::Mispaired => 5,
            Refusal::Apart => 6,
            Refusal::Ringed(_) => 7,
            Refusal::Unaligned => 8,
            Refusal::Last => 9,
            Refusal::Unbalanced => 10,
        }
    }
}

// Check 2: too few or too many vertices, or too many ends.
pub fn is_oversize(vertices: usize, ends: usize) -> bool
    ensures { result ≡ oversize vertices ends }
{
    if vertices == 0 {
        return true;
    }
    if VERTICES < vertices {
        return true;
    }
    ENDS < ends
}

// Check 3 of a given list: an end without its partner.
pub fn is_odd(ends: usize) -> bool
    ensures { result ≡ odd ends }
{
    ends % 2 == 1
}

// The first of checks 2 to 5 that the network meets by itself.
pub fn sift(vertices: usize, ends: &[u16]) -> Result<(), Refusal>
    ensures { Sifted vertices ends.now (number_of result) }
{
    if is_oversize(vertices, ends.len()) {
        return Err(Refusal::Oversize);
    }
    if is_odd(ends.len()) {
        return Err(Refusal::Cramped);
    }
    if is_astray(vertices, ends) {
        return Err(Refusal::Astray);
    }
    if is_mispaired(ends) {
        return Err(Refusal::Mispaired);
    }
    Ok(())
}

// Check 4: an end is no vertex.
fn is_astray(vertices: usize, ends: &[u16]) -> bool
    ensures { result ≡ astray vertices ends.now }
{
    for end in ends {
        if vertices <= *end as usize {
            return true;
        }
    }
    false
}

// Check 5: a line has equal ends, or joins a pair that was seen before. A byte for each pair of vertices says which were.
fn is_mispaired(ends: &[u16]) -> bool
    requires { Paired ends.now }
    ensures { result ≡ mispaired ends.now }
{
    let mut seen = [0u8; 262144];
    let lines = ends.len() / 2;
    for k in 0..lines {
        let a = ends[2 * k] as usize;
        let b = ends[2 * k + 1] as usize;
        if a == b {
            return true;
        }
        if seen[512 * a + b] == 1 {
            return true;
        }
        seen[512 * a + b] = 1;
        seen[512 * b + a] = 1;
    }
    false
}
