// A chain of different lines, closed by one more constraint, read as a ring: from its lowest line on, to the lower neighbour first.
//
// Its contracts cite specs/Rings.antt.
ghost use Rattle.std.specs.Prelude.{◌≡◌, ◌+◌, ◌-◌, ◌%◌, ◌≤◌, ◌<◌};
ghost use Rattle.laws.specs.Lists.{at};
ghost use Rattle.side.specs.Sides.{code};
ghost use Rattle.groups.specs.Groups.{columns};
ghost use Rattle.rings.specs.Rings.{LowestPlace, wrap, kind_of, Spot, StepPlace, Upward, Readable, RingRoom, Written};

use groups::Groups;
use side::Wants;

// Writes the ring that a chain gives.
pub(crate) fn write(
    n: usize,
    kind: Wants,
    groups: &Groups,
    chain: &[u16; 2048],
    ring: &mut [u16],
    kinds: &mut [u8],
)
    requires { RingRoom n chain.now ring.old kinds.old }
    ensures { Written (columns groups.now).parity (at chain.now) n (code kind)
        ring.old kinds.old ring.new kinds.new }
{
    let m = lowest(n, chain);
    let up = goes_up(n, m, kind, groups, chain);
    for j in 0..n {
        ring[j] = chain[spot(n, m, up, j)];
        kinds[j] = u8::from(kind_at(n, link(n, m, up, j), kind, groups, chain));
    }
}

// The place of the lowest of the n lines.
fn lowest(n: usize, chain: &[u16; 2048]) -> usize
    requires { (0 < n) × (n ≤ 2048) }
    ensures { LowestPlace n (at chain.now) result }
{
    let mut m = 0;
    for i in 1..n {
        if chain[i] < chain[m] {
            m = i;
        }
    }
    m
}

// A place round the circle of n.
fn around(n: usize, i: usize) -> usize
    ensures { result ≡ wrap n i }
{
    if i < n {
        return i;
    }
    i - n
}

// The kind of a joining between x and y, which agrees with the parities.
fn kind_between(x: usize, y: usize, groups: &Groups) -> Wants
    requires { (x < 2048) × (y < 2048) }
    ensures { code result ≡ ((columns groups.now).parity x + (columns groups.now).parity y) % 2 }
{
    if (groups.parity[x] as u16 + groups.parity[y] as u16) % 2 == 0 {
        return Wants::Same;
    }
    Wants::Different
}

// The kind of the step from place i of the chain.
fn kind_at(n: usize, i: usize, kind: Wants, groups: &Groups, chain: &[u16; 2048]) -> Wants
    requires { Readable n chain.now × (i < n) }
    ensures { code result ≡ kind_of (columns groups.now).parity (at chain.now) n (code kind) i }
{
    if i + 1 == n {
        return kind;
    }
    kind_between(chain[i] as usize, chain[i + 1] as usize, groups)
}

// Whether the ring goes up the chain from its lowest line.
fn goes_up(n: usize, m: usize, kind: Wants, groups: &Groups, chain: &[u16; 2048]) -> bool
    requires { Readable n chain.now × (m < n) }
    ensures { Upward n (kind_of (columns groups.now).parity (at chain.now) n (code kind) m)
        (at chain.now (wrap n (m + 1))) (at chain.now (wrap n (m + n - 1))) result }
{
    if n == 2 {
        return kind_at(n, m, kind, groups, chain) == Wants::Same;
    }
    chain[around(n, m + 1)] <= chain[around(n, m + n - 1)]
}

// The place in the chain of the ring's place j, which is again the first where j is n.
fn spot(n: usize, m: usize, up: bool, j: usize) -> usize
    requires { (m < n) × (j ≤ n) × (n ≤ 2048) }
    ensures { Spot n m up j result }
{
    if up {
        return around(n, m + j);
    }
    around(n, m + n - j)
}

// The place in the chain of the step from the ring's place j: where the ring goes down the chain, the step stands at its far end.
fn link(n: usize, m: usize, up: bool, j: usize) -> usize
    requires { (m < n) × (j < n) × (n ≤ 2048) }
    ensures { StepPlace n m up j result }
{
    if up {
        return spot(n, m, up, j);
    }
    spot(n, m, up, j + 1)
}
