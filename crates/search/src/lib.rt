// The search: it tells tree lines from back lines, and finds how high each vertex stands.
//
// `orient` is the call. `explore` is what every other call that needs the tree begins with, `fault` tells its number alone. Their contracts cite specs/Orient.antt, whose words
// stand on the machine of specs/Machine.antt.
#![tactic(auto)]

mod chains;
mod visits;

ghost use Rattle.std.specs.Prelude.{◌≡◌, true, false, ◌+◌, ◌/◌, ◌≤◌, ◌<◌};
ghost use Rattle.network.specs.Network.{network};
ghost use Rattle.network.specs.Numbers.{number_of, answered};
ghost use Rattle.network.specs.Inside.{Fit};
ghost use Rattle.search.specs.Orient.{Orient};
ghost use Rattle.search.specs.Inside.{Explored, Faulted, search_in, BlankFinds, Cleared, Ended, everyone};

use network::chains::Chains;
use network::copies::lay;
use network::{Kind, Refusal};

// Writes a byte a line, 0 for a tree line and 1 for a back line, and a height a vertex, and answers how many back lines there are.
pub fn orient(
    vertices: usize,
    ends: &[u16],
    kinds: &mut [u8],
    heights: &mut [u16],
) -> Result<usize, Refusal>
    ensures { Orient vertices ends.now kinds.old heights.old (answered result) kinds.new heights.new }
{
    let lines = ends.len() / 2;
    if network::is_oversize(vertices, ends.len()) {
        return Err(Refusal::Oversize);
    }
    if network::is_odd(ends.len()) {
        return Err(Refusal::Cramped);
    }
    if kinds.len() < lines {
        return Err(Refusal::Cramped);
    }
    if heights.len() < vertices {
        return Err(Refusal::Cramped);
    }
    let mut finds = Finds::blank();
    explore(vertices, ends, &mut finds)?;
    lay(&finds.kinds, lines, kinds);
    lay(&finds.heights, vertices, heights);
    Ok(lines + 1 - vertices)
}

// What a search finds, and what it goes by while it looks.
#[derive(Drop)]
pub struct Finds {
    // What each line is.
    pub kinds: [u8; 2048],
    // 1 for each vertex that was found.
    pub found: [u8; 512],
    // How high each vertex stands, and by which line it was found.
    pub heights: [u16; 512],
    pub parents: [u16; 512],
}

impl Finds {
    // Zeros, to be lent to `explore`.
    pub fn blank() -> Finds
        ensures { BlankFinds result }
    {
        Finds {
            kinds: [0; 2048],
            found: [0; 512],
            heights: [0; 512],
            parents: [0; 512],
        }
    }

    // Nothing is used, and nothing found.
    fn clear(&mut self)
        ensures { Cleared self.new }
    {
        self.kinds = [Kind::UNUSED; 2048];
        self.found = [0; 512];
        self.heights = [0; 512];
        self.parents = [0; 512];
    }
}

// The search of a network, written over what is lent. (Lent and not handed out, so that nothing is copied on its way up.)
pub fn explore(vertices: usize, ends: &[u16], finds: &mut Finds) -> Result<(), Refusal>
    ensures { Explored vertices ends.now (search_in finds.new result) }
{
    network::sift(vertices, ends)?;
    settle(vertices, ends, finds)
}

// What a network is refused for, whoever asks.
pub fn fault(vertices: usize, ends: &[u16]) -> Result<(), Refusal>
    ensures { Faulted vertices ends.now (number_of result) }
{
    let mut finds = Finds::blank();
    explore(vertices, ends, &mut finds)
}

// The whole search from vertex 0, which is refused where a vertex was not found.
fn settle(vertices: usize, ends: &[u16], finds: &mut Finds) -> Result<(), Refusal>
    requires { Fit (network vertices ends.now) }
    ensures { Ended (network vertices ends.now) (search_in finds.new result) }
{
    let none = ends.len() as u16;
    let mut chains = Chains {
        heads: [none; 512],
        nexts: [none; 4096],
    };
    chains::chain(ends, &mut chains);
    finds.clear();
    finds.found[0] = 1;
    visits::visit(0, ends, &chains, finds);
    if all_found(vertices, &finds.found) {
        Ok(())
    } else {
        Err(Refusal::Apart)
    }
}

fn all_found(vertices: usize, found: &[u8; 512]) -> bool
    requires { vertices ≤ 512 }
    ensures { result ≡ everyone vertices found.now }
{
    for v in 0..vertices {
        if found[v] == 0 {
            return false;
        }
    }
    true
}
