// The groups of a tree's back lines: every link taken in, or the first that tears.
//
// A back line comes down from its source along the tree, and is a return of the tree lines that it passes. Two walks take the back lines by their ends:
// the one by rising ends ties the lowest returns of each tree line (`rising`), the one by falling ends those that a tree line holds, and the tops of
// lines that overlap at a fork (`falling`). Between them come the lows and the rivals, which the first makes known and the second goes by (`lows`).
#![tactic(auto)]

ghost use Rattle.std.specs.Prelude.{◌≡◌};
ghost use Rattle.tree.specs.Tree.{Tree, tree_of};
ghost use Rattle.fork.specs.Inside.{Known, LongForks};
ghost use Rattle.descents.specs.Inside.{Walkable, Tied, Grouping};

use fork::Forks;
use groups::Groups;
use links::Tear;
use network::Absent;
use network::chains::Chains;
use spans::Jumps;

// Groups the back lines of the tree of a finished search, and fills the table of forks. (Where a link tears, nothing is said of that table.)
pub fn group(
    vertices: usize,
    lines: usize,
    ends: &[u16],
    kinds: &[u8; 2048],
    heights: &[u16; 512],
    parents: &[u16; 512],
    forks: &mut Forks,
    groups: &mut Groups,
) -> Result<(), Tear>
    ghost S: { Tree }
    requires tree { S ≡ tree_of vertices lines ends.now kinds.now heights.now parents.now }
    requires known { Known vertices lines ends.now kinds.now heights.now parents.now }
    requires lent { LongForks forks.old }
    ensures { Grouping S forks.new groups.new result }
{
    spans::span(lines, ends, kinds, heights, forks);
    groups.start(lines, kinds);
    let outcome = walk(vertices, lines, heights, parents, forks, groups);
    groups.flatten(lines);
    outcome
}

// The two walks.
fn walk(
    vertices: usize,
    lines: usize,
    heights: &[u16; 512],
    parents: &[u16; 512],
    forks: &mut Forks,
    groups: &mut Groups,
) -> Result<(), Tear>
    ghost S: { Tree }
    requires { Walkable S vertices lines heights.now parents.now forks.old groups.old }
    ensures { Tied S forks.new groups.new result }
{
    let mut jumps = Jumps {
        onward: [Absent::ENTRY; 512],
        least: [Absent::ENTRY; 512],
        held: [Absent::ENTRY; 512],
    };
    let mut bottoms = [Absent::ENTRY; 512];
    let none = lines as u16;
    let mut chains = Chains {
        heads: [none; 513],
        nexts: [none; 2048],
    };
    spans::chain(lines, forks, &mut chains);
    spans::lower(vertices, heights, parents, forks, &mut jumps);
    rising::rise(
        vertices,
        heights,
        &jumps,
        &chains,
        forks,
        &mut bottoms,
        groups,
    )?;
    lows::measure(vertices, heights, parents, &bottoms, forks);
    lows::rivals(vertices, lines, heights, parents, forks, &mut jumps);
    falling::fall(
        vertices, heights, parents, &chains, &mut jumps, forks, groups,
    )
}
