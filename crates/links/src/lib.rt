// A link taken into the groups, if it can be obeyed: all that was obeyed is obeyed still.
//
// The two walks find the links; here one of them is tied. The contract cites specs/Inside.antt.
#![tactic(auto)]

ghost use Rattle.side.specs.Sides.{code};
ghost use Rattle.groups.specs.Groups.{pointed};
ghost use Rattle.tree.specs.Tree.{Tree};
ghost use Rattle.links.specs.Inside.{Closed, Tieable, Outcome};

use groups::{Groups, Joining};
use side::Wants;

// The link that can't be obeyed: between two lines, of a kind.
#[derive(Clone, Copy)]
pub struct Tear {
    pub one: usize,
    pub two: usize,
    pub wants: Wants,
}

// Takes in the link between the back lines b and d.
pub fn take(b: usize, d: usize, kind: Wants, groups: &mut Groups) -> Result<(), Tear>
    ghost S: { Tree }
    requires { Tieable S b d (code kind) groups.old }
    ensures { Outcome S groups.old groups.new (Closed (pointed groups.new) b d (code kind)) result }
{
    let tear = Tear {
        one: b,
        two: d,
        wants: kind,
    };
    match groups.join(b, d, u8::from(kind)) {
        Joining::Agrees => Ok(()),
        Joining::Joins => Ok(()),
        Joining::Conflicts => Err(tear),
    }
}
