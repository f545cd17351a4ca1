// The six calls as C is given them: each answers with one number. Its statement says that this number packs an answer that the call's own statement
// allows with what is in the buffers (specs/Face.antt). The crate cornetariel_c exports them.
#![tactic(auto)]

ghost use Rattle.std.specs.Prelude.{◌≡◌, ◌+◌, ◌*◌, ◌<◌};
ghost use Rattle.network.specs.Numbers.{answered, answered_two, refusing};
ghost use Rattle.cornetariel.specs.Face.{joined, packed, Small, OrientC, FirstC, NextC, DrawC, ReadC, WriteC};

use network::Refusal;

pub fn cornetariel_orient(
    vertices: usize,
    ends: &[u16],
    kinds: &mut [u8],
    heights: &mut [u16],
) -> u64
    ensures { OrientC vertices ends.now kinds.old heights.old result kinds.new heights.new }
{
    pack(search::orient(vertices, ends, kinds, heights))
}

pub fn cornetariel_first(
    vertices: usize,
    ends: &[u16],
    choice: &mut [u8],
    ring: &mut [u16],
    kinds: &mut [u8],
) -> u64
    ensures { FirstC vertices ends.now choice.old ring.old kinds.old
        result choice.new ring.new kinds.new }
{
    pack(choice::first(vertices, ends, choice, ring, kinds))
}

pub fn cornetariel_next(vertices: usize, ends: &[u16], choice: &mut [u8]) -> u64
    ensures { NextC vertices ends.now choice.old result choice.new }
{
    pack(choice::next(vertices, ends, choice))
}

pub fn cornetariel_draw(
    vertices: usize,
    ends: &[u16],
    choice: &[u8],
    order: &mut [u16],
    mesh: &mut [u16],
    sizes: &mut [u16],
) -> u64
    ensures { DrawC vertices ends.now choice.now order.old mesh.old sizes.old
        result order.new mesh.new sizes.new }
{
    pack(drawing::draw(vertices, ends, choice, order, mesh, sizes))
}

pub fn cornetariel_read(text: &[u8], ends: &mut [u16]) -> u64
    ensures { ReadC text.now ends.old result ends.new }
{
    pack_two(text::read(text, ends))
}

pub fn cornetariel_write(vertices: usize, ends: &[u16], text: &mut [u8]) -> u64
    ensures { WriteC vertices ends.now text.old result text.new }
{
    pack(text::write(vertices, ends, text))
}

// What a call answers, as one number.
fn pack(answer: Result<usize, Refusal>) -> u64
    requires { Small (answered answer) }
    ensures { result ≡ packed (answered answer) }
{
    match answer {
        Ok(count) => join(0, count, 0),
        Err(refusal) => pack_refusal(refusal),
    }
}

// The same of a call that answers two counts. (Apart from `pack`: the statements are about `answered` of one count and `answered_two` of two.)
fn pack_two(answer: Result<(usize, usize), Refusal>) -> u64
    requires { Small (answered_two answer) }
    ensures { result ≡ packed (answered_two answer) }
{
    match answer {
        Ok((count, second)) => join(0, count, second),
        Err(refusal) => pack_refusal(refusal),
    }
}

// A refusal has no counts, but the one that has a ring tells its length in the place of the second.
fn pack_refusal(refusal: Refusal) -> u64
    requires { Small (refusing refusal) }
    ensures { result ≡ packed (refusing refusal) }
{
    let size = match refusal {
        Refusal::Ringed(size) => size,
        _ => 0,
    };
    join(u8::from(refusal), 0, size)
}

fn join(number: u8, count: usize, second: usize) -> u64
    requires { Small (joined number count second) }
    ensures { result ≡ packed (joined number count second) }
{
    number as u64 + 256 * (count as u64) + 4294967296 * (second as u64)
}
