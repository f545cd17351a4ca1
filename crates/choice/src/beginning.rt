// What first choice, next choice and draw begin with: the search, and the groups of the back lines.
ghost use Rattle.fork.specs.Inside.{LongForks};
ghost use Rattle.choice.specs.Inside.{BlankBeginning, Gathers};

use fork::Forks;
use groups::Groups;
use links::Tear;
use network::Refusal;
use search::Finds;

#[derive(Drop)]
pub struct Beginning {
    pub finds: Finds,
    pub forks: Forks,
    pub groups: Groups,
    // What came of taking in all links.
    pub outcome: Result<(), Tear>,
}

impl Beginning {
    // Zeros, to be lent to `begin`.
    pub fn blank() -> Beginning
        ensures { BlankBeginning result }
    {
        Beginning {
            finds: Finds::blank(),
            forks: Forks::blank(),
            groups: Groups::blank(),
            outcome: Ok(()),
        }
    }
}

// Searches the network and groups its back lines, in tables that are lent, so that nothing is copied on its way up.
pub fn begin(vertices: usize, ends: &[u16], beginning: &mut Beginning) -> Result<(), Refusal>
    requires { LongForks beginning.old.forks }
    ensures { Gathers vertices ends.now beginning.new result }
{
    search::explore(vertices, ends, &mut beginning.finds)?;
    beginning.outcome = descents::group(
        vertices,
        ends.len() / 2,
        ends,
        &beginning.finds.kinds,
        &beginning.finds.heights,
        &beginning.finds.parents,
        &mut beginning.forks,
        &mut beginning.groups,
    );
    Ok(())
}
