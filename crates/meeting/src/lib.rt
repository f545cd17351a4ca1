// Lines of a fork that meet: by falling highs, each line is held against the tree lines that leave its vertex and were met before, and the tops of
// those that overlap are tied apart.
//
// Two of them are enough. Whatever was met before and overlaps a line that ends as high as x has a low below x; three such lines would overlap each
// other, and no three lines are apart in pairs. So at each vertex the two with the least lows are kept. A back line met before overlaps nothing met
// later, and is not kept.
#![tactic(auto)]

ghost use Rattle.std.specs.Prelude.{◌<◌};
ghost use Rattle.tree.specs.Tree.{Tree};
ghost use Rattle.links.specs.Inside.{Outcome};
ghost use Rattle.meeting.specs.Inside.{Meeting, MetApart, Insertable, Inserted};
ghost use Rattle.meeting.specs.Facing.{Beside, KeptParted};

use fork::Forks;
use groups::Groups;
use links::Tear;
use side::Wants;

// A tree line that was met: its low and its top.
#[derive(Clone, Copy)]
pub struct Kept {
    pub low: u16,
    pub top: u16,
}

// Of the tree lines met at each vertex the two with the least lows.
#[derive(Drop)]
pub struct Pairs {
    pub first: [Kept; 512],
    pub second: [Kept; 512],
}

// Ties the top b of a line that leaves u apart from the tops of the lines kept there that it overlaps. The line's returns end at the heights l to x.
pub fn meet(
    b: usize,
    x: u16,
    l: u16,
    u: usize,
    forks: &Forks,
    pairs: &Pairs,
    groups: &mut Groups,
) -> Result<(), Tear>
    ghost S: { Tree }
    requires { Meeting S b x l u forks.now pairs.now groups.old }
    ensures { Outcome S groups.old groups.new (MetApart S b x l u forks.now groups.new) result }
{
    part(b, x, l, pairs.first[u], forks, groups)?;
    part(b, x, l, pairs.second[u], forks, groups)
}

// Ties the top b of a line that ends at the heights l to x apart from that of a line kept, where each ends higher than the low of the other.
fn part(
    b: usize,
    x: u16,
    l: u16,
    kept: Kept,
    forks: &Forks,
    groups: &mut Groups,
) -> Result<(), Tear>
    ghost S: { Tree }
    requires { Beside S b x l kept.low kept.top forks.now groups.old }
    ensures { Outcome S groups.old groups.new (KeptParted b x l kept.low kept.top forks.now groups.new) result }
{
    let c = kept.top as usize;
    if x <= kept.low || forks.stop[c] <= l {
        return Ok(());
    }
    links::take(b, c, Wants::Different, groups)
}

// Keeps a tree line with the low l and the top b at the vertex u that it leaves, if its low is among the two least.
pub fn keep(b: usize, l: u16, u: usize, pairs: &mut Pairs)
    requires { Insertable b l u pairs.old }
    ensures { Inserted b l u pairs.old pairs.new }
{
    let line = Kept {
        low: l,
        top: b as u16,
    };
    if l < pairs.first[u].low {
        pairs.second[u] = pairs.first[u];
        pairs.first[u] = line;
        return;
    }
    if pairs.second[u].low <= l {
        return;
    }
    pairs.second[u] = line;
}
