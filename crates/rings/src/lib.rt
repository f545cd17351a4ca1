// The ring that shows a conflict. A flood from one line of the constraint along the constraints that joined groups goes on until it reaches the
// other; the way back is a chain of different lines, and the constraint itself closes it. It is written from its lowest line on, to the lower
// neighbour first.
//
// The flood looks only along the joinings of the lines that it reaches, and along each once a direction, so its time grows with the lines.
//
// Its contracts cite specs/Rings.antt and specs/Flooding.antt.
#![tactic(auto)]

mod circle; // a chain of lines read as a ring
mod flood; // the flood along half-steps
mod steps; // half-steps, chained by the lines that they leave

ghost use Rattle.laws.specs.Lists.{at};
ghost use Rattle.side.specs.Sides.{code};
ghost use Rattle.groups.specs.Groups.{columns};
ghost use Rattle.rings.specs.Flooding.{Climbable, Trail, SimpleWay, Reachable};
ghost use Rattle.rings.specs.Rings.{Showing, Shown};

use groups::Groups;
use network::chains::Chains;
use side::Wants;

// Writes the ring that the constraint between b and d closes, its lines and their kinds, and answers how many lines it has.
pub fn show(
    lines: usize,
    groups: &Groups,
    b: usize,
    d: usize,
    kind: Wants,
    ring: &mut [u16],
    kinds: &mut [u8],
) -> usize
    requires { Showing lines b d (code kind) groups.now ring.old kinds.old }
    ensures { Shown lines (columns groups.now) b d (code kind) result
        ring.old kinds.old ring.new kinds.new }
{
    let mut chain = [0u16; 2048];
    let n = find_chain(lines, b, d, groups, &mut chain);
    circle::write(n, kind, groups, &chain, ring, kinds);
    n
}

// Writes different lines from d to b, each with a joining to the next, and answers how many there are.
fn find_chain(lines: usize, b: usize, d: usize, groups: &Groups, chain: &mut [u16; 2048]) -> usize
    requires { Reachable lines b d groups.now chain.old }
    ensures { SimpleWay lines b d (columns groups.now) result (at chain.new) }
{
    let none = (2 * lines) as u16;
    let mut chains = Chains {
        heads: [none; 2048],
        nexts: [none; 4096],
    };
    steps::link_all(lines, groups, &mut chains);
    let mut via = [lines as u16; 2048];
    flood::flood(lines, b, d, groups, &chains, &mut via);
    climb(lines, b, d, &via, chain)
}

// Writes the lines from d back to b, each the one that the line before was reached from, and answers how many there are.
fn climb(lines: usize, b: usize, d: usize, via: &[u16; 2048], chain: &mut [u16; 2048]) -> usize
    requires { Climbable lines b d via.now chain.old }
    ensures { Trail lines b d (at via.now) result chain.new }
{
    chain[0] = d as u16;
    let mut x = d;
    let mut n = 1;
    while x != b {
        x = via[x] as usize;
        chain[n] = x as u16;
        n += 1;
    }
    n
}
