// The meshes of an order of the lines at the vertices, whatever the order.
//
// `turns` makes the table that says which direction follows each; a mesh is a walk along it. The table is one-to-one, so that every walk comes back to where
// it began.
#![tactic(auto)]

pub mod turns;

ghost use Rattle.std.specs.Prelude.{◌≡◌, ◌+◌, ◌*◌, replicate};
ghost use Rattle.network.specs.Marks.{absent};
ghost use Rattle.meshes.specs.Inside.{Numberable, Numbered, Followable, Followed, Meshed, Sized};

use network::Absent;

// Numbers the walks in rising order of their lowest direction: a direction that is on no mesh yet is the lowest of its own. Writes the mesh of each
// direction to an empty table, and answers how many meshes there are.
pub fn numbered(directions: usize, nexts: &[u16; 4096], mesh: &mut [u16; 4096]) -> usize
    requires numberable { Numberable directions nexts.now }
    requires unmeshed { mesh.old ≡ replicate 4096 absent }
    ensures { Numbered directions nexts.now result mesh.new }
{
    let mut count = 0;
    for d in 0..directions {
        if mesh[d] == Absent::ENTRY {
            follow(directions, d, count, nexts, mesh);
            count += 1;
        }
    }
    count
}

// Walks from d until it is back, and gives each direction on the way the number.
fn follow(directions: usize, d: usize, number: usize, nexts: &[u16; 4096], mesh: &mut [u16; 4096])
    requires numberable { Numberable directions nexts.now }
    requires followable { Followable directions d number nexts.now mesh.old }
    ensures { Followed directions d number nexts.now mesh.new }
{
    let mut x = d;
    while mesh[x] == Absent::ENTRY {
        mesh[x] = number as u16;
        x = nexts[x] as usize;
    }
}

// How many lines each mesh has on it, one that it walks both ways counted once. Written to a table of zeroes.
pub fn sized(lines: usize, mesh: &[u16; 4096], sizes: &mut [u16; 4097])
    requires meshed { Meshed lines mesh.now }
    requires no_sizes { sizes.old ≡ replicate 4097 0 }
    ensures { Sized lines mesh.now sizes.new }
{
    for k in 0..lines {
        let forth = mesh[2 * k] as usize;
        let back = mesh[2 * k + 1] as usize;
        sizes[forth] += 1;
        if forth != back {
            sizes[back] += 1;
        }
    }
}
