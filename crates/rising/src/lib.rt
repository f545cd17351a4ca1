// The walk by rising ends: it finds the bottom of each tree line, and ties the lowest returns of each.
//
// A back line goes down from its source and becomes the bottom of each tree line without one; it stops at the first that has one. The lines that came
// before end as low or lower, so that whatever it would pass further down has a bottom too. Where the bottom that stopped it ends as low as it does,
// the two are tied.
#![tactic(auto)]

ghost use Rattle.std.specs.Prelude.{◌+◌, ◌≢◌, IfSome};
ghost use Rattle.network.specs.Marks.{absent};
ghost use Rattle.tree.specs.Returns.{end};
ghost use Rattle.tree.specs.Tree.{Tree};
ghost use Rattle.links.specs.Inside.{Outcome};
ghost use Rattle.rising.specs.Inside.{Rising, Risen, Raised, Sinkable, Sunk, marked, Settleable};

use fork::Forks;
use groups::Groups;
use links::Tear;
use network::chains::Chains;
use network::named;
use side::Wants;
use spans::Jumps;

// Takes the back lines by rising ends, and those of one end by rising numbers.
pub fn rise(
    vertices: usize,
    heights: &[u16; 512],
    jumps: &Jumps,
    chains: &Chains<513, 2048>,
    forks: &Forks,
    bottoms: &mut [u16; 512],
    groups: &mut Groups,
) -> Result<(), Tear>
    ghost S: { Tree }
    requires { Rising S vertices heights.now jumps.now chains.now.heads chains.now.nexts forks.now bottoms.old groups.old }
    ensures { Outcome S groups.old groups.new (Risen S bottoms.new groups.new) result }
{
    if vertices == 0 {
        return Ok(());
    }
    // no back line ends as high as the highest vertex can stand: that chain is empty, and has the mark that ends every chain
    let none = chains.heads[vertices - 1] as usize;
    for x in 0..vertices {
        let mut b = chains.heads[x] as usize;
        while b < none {
            settle(b, heights, jumps, forks, bottoms, groups)?;
            b = chains.nexts[b] as usize;
        }
    }
    Ok(())
}

// Takes back line b: it is made a bottom, and tied to the bottom that stopped it, if that ends as low.
fn settle(
    b: usize,
    heights: &[u16; 512],
    jumps: &Jumps,
    forks: &Forks,
    bottoms: &mut [u16; 512],
    groups: &mut Groups,
) -> Result<(), Tear>
    ghost S: { Tree }
    requires { Settleable S b heights.now jumps.now forks.now bottoms.old groups.old }
    ensures { Outcome S groups.old groups.new (Raised S (end S b) (b + 1) bottoms.new groups.new) result }
{
    let Some(c) = sink(b, heights, jumps, forks, bottoms) else {
        return Ok(());
    };
    if forks.stop[c] != forks.stop[b] {
        return Ok(());
    }
    links::take(b, c, Wants::Same, groups)
}

// Makes b the bottom of each tree line on its way down that has none, as far as the first that has one, and answers with the bottom of that one.
fn sink(
    b: usize,
    heights: &[u16; 512],
    jumps: &Jumps,
    forks: &Forks,
    bottoms: &mut [u16; 512],
) -> Option<usize>
    ghost S: { Tree }
    requires { Sinkable S b heights.now jumps.now forks.now bottoms.old }
    ensures sunk { Sunk S b bottoms.old bottoms.new (marked result) }
    ensures met { IfSome result (λ c. c ≢ absent) }
{
    let limit = forks.stop[b] + 1;
    let mut v = forks.source[b] as usize;
    while limit < heights[v] {
        if let Some(c) = named(bottoms[v]) {
            return Some(c);
        }
        bottoms[v] = b as u16;
        v = jumps.onward[v] as usize;
    }
    None
}
