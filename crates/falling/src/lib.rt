// The walk by falling ends: it finds the top of each tree line, and ties each return that a tree line holds to its top, and the tops of lines that overlap
// at a fork apart.
//
// A back line b that ends at the height x comes down from its source, over the vertices higher than x + 1: those whose lines it is a return of. The first
// to come to a tree line is its top, for the lines that end higher have come before, and so have those that end level and have lower numbers. The line
// then meets its fork. Where others have come before, b is tied to the line's top if the line holds it.
//
// The way has jumps, so that few lines are looked at. From each vertex v a jump goes down over lines that were all passed before; it has the least of their
// rivals, and the top of one that has it. Rivals below x are those of lines that hold b: their tops are all tied to that one already, so that one tie does
// for all of them; and where the least is x or higher, none of them holds anything that is still to come. After b has passed two jumps in a row, they may
// be made one: b is tied to the top of each, as far as it counts.
#![tactic(auto)]

mod jumps;

ghost use Rattle.std.specs.Prelude.{◌≡◌, suc, ◌+◌};
ghost use Rattle.laws.specs.Lists.{at};
ghost use Rattle.network.specs.Marks.{absent};
ghost use Rattle.tree.specs.Tree.{Tree};
ghost use Rattle.links.specs.Inside.{Outcome};
ghost use Rattle.falling.specs.Inside.{Falling, Fallen};
ghost use Rattle.falling.specs.Down.{Midway, Coming, Sinking, Landing, Passed, Crowned, Markable};

use crate::jumps::lengthen;
use fork::Forks;
use groups::Groups;
use links::Tear;
use meeting::{Kept, Pairs, keep, meet};
use network::chains::Chains;
use network::{Absent, named};
use side::Wants;
use spans::Jumps;

// No line ends as high as this: the chain of this height is empty, and begins with the number of lines.
const NO_END: usize = 511;

// Takes the back lines by falling ends, and those of one end by rising numbers.
pub fn fall(
    vertices: usize,
    heights: &[u16; 512],
    parents: &[u16; 512],
    chains: &Chains<513, 2048>,
    jumps: &mut Jumps,
    forks: &mut Forks,
    groups: &mut Groups,
) -> Result<(), Tear>
    ghost S: { Tree }
    requires { Falling S vertices heights.now parents.now chains.now.heads chains.now.nexts jumps.old forks.old groups.old }
    ensures { Outcome S groups.old groups.new (Fallen S forks.new groups.new) result }
{
    let lines = chains.heads[NO_END] as usize;
    let nothing = Kept {
        low: Absent::ENTRY,
        top: Absent::ENTRY,
    };
    let mut pairs = Pairs {
        first: [nothing; 512],
        second: [nothing; 512],
    };
    for x in (0..vertices).rev() {
        let mut b = chains.heads[x] as usize;
        while b < lines {
            come_down(
                b, x as u16, heights, parents, jumps, &mut pairs, forks, groups,
            )?;
            b = chains.nexts[b] as usize;
        }
    }
    Ok(())
}

// Back line b, which ends at the height x, meets the fork that it leaves, and comes down.
fn come_down(
    b: usize,
    x: u16,
    heights: &[u16; 512],
    parents: &[u16; 512],
    jumps: &mut Jumps,
    pairs: &mut Pairs,
    forks: &mut Forks,
    groups: &mut Groups,
) -> Result<(), Tear>
    ghost S: { Tree }
    requires { Coming S b x heights.now parents.now jumps.old pairs.old forks.old groups.old }
    ensures { Outcome S groups.old groups.new
        (Midway S x (suc b) 512 (suc b) jumps.new pairs.new forks.new groups.new) result }
{
    meet(b, x, x, forks.source[b] as usize, forks, pairs, groups)?;
    go_down(b, x, heights, parents, jumps, pairs, forks, groups)
}

// It passes the tree lines on its way, jump by jump. The jump from its source goes on to where it stops; and from the fifth on the jump before each goes on
// over that one too, so that long ways get short.
fn go_down(
    b: usize,
    x: u16,
    heights: &[u16; 512],
    parents: &[u16; 512],
    jumps: &mut Jumps,
    pairs: &mut Pairs,
    forks: &mut Forks,
    groups: &mut Groups,
) -> Result<(), Tear>
    ghost S: { Tree }
    requires { Sinking S b x heights.now parents.now jumps.old pairs.old forks.old groups.old }
    ensures { Outcome S groups.old groups.new
        (Midway S x (suc b) 512 (suc b) jumps.new pairs.new forks.new groups.new) result }
{
    let s = forks.source[b] as usize;
    let mut p = s;
    let mut v = s;
    let mut steps = 0;
    while x + 1 < heights[v] {
        pass(b, x, v, parents, jumps, pairs, forks, groups)?;
        lengthen(s, p, v, steps, jumps);
        steps += 1;
        p = v;
        v = jumps.onward[v] as usize;
    }
    Ok(())
}

// It passes the lines from v down to where the jump goes.
fn pass(
    b: usize,
    x: u16,
    v: usize,
    parents: &[u16; 512],
    jumps: &mut Jumps,
    pairs: &mut Pairs,
    forks: &mut Forks,
    groups: &mut Groups,
) -> Result<(), Tear>
    ghost S: { Tree }
    requires { Landing S b x v parents.now jumps.old pairs.old forks.old groups.old }
    ensures { Outcome S groups.old groups.new
        (Passed S b x v jumps.old jumps.new pairs.new forks.new groups.new) result }
{
    let Some(held) = named(jumps.held[v]) else {
        return crown(b, x, v, parents, jumps, pairs, forks, groups);
    };
    if x <= jumps.least[v] {
        return Ok(());
    }
    links::take(b, held, Wants::Same, groups)
}

// It is the first to pass the line up to v, and so the top of that line, which meets its fork.
fn crown(
    b: usize,
    x: u16,
    v: usize,
    parents: &[u16; 512],
    jumps: &mut Jumps,
    pairs: &mut Pairs,
    forks: &mut Forks,
    groups: &mut Groups,
) -> Result<(), Tear>
    ghost S: { Tree }
    requires landing { Landing S b x v parents.now jumps.old pairs.old forks.old groups.old }
    requires none_held { at jumps.old.held v ≡ absent }
    ensures { Outcome S groups.old groups.new
        (Passed S b x v jumps.old jumps.new pairs.new forks.new groups.new) result }
{
    let f = parents[v] as usize;
    let l = forks.low[f];
    let u = jumps.onward[v] as usize;
    meet(b, x, l, u, forks, pairs, groups)?;
    keep(b, l, u, pairs);
    mark(b, x, f, v, jumps, forks);
    Ok(())
}

// Writes down that b is the top of the line f up to v.
fn mark(b: usize, x: u16, f: usize, v: usize, jumps: &mut Jumps, forks: &mut Forks)
    requires { Markable b f v forks.old jumps.old }
    ensures { Crowned b x f v forks.old forks.new jumps.old jumps.new }
{
    jumps.held[v] = b as u16;
    forks.top[f] = b as u16;
    forks.high[f] = x;
}
