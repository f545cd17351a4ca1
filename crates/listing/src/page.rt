// The page that is printed of a text.
ghost use Rattle.std.specs.Prelude.{◌≡◌, ◌≤◌};
ghost use Rattle.network.specs.Network.{network};
ghost use Rattle.listing.specs.Page.{Prints, Shows, Sheet};
ghost use Rattle.listing.specs.Inside.{BlankPage, Showable, Listable, Sheetable, Paged, PutChoices};

use crate::pieces::Page;
use network::Refusal;

// Puts the page of an input.
pub(crate) fn print(input: &[u8], page: &mut Page)
    requires { BlankPage page.old }
    ensures { Paged (Prints input.now) page.new }
{
    if input.len() > 18450 {
        page.put_refusal(Refusal::Formless);
        return;
    }
    let mut ends = [0u16; 4096];
    match text::read(input, &mut ends) {
        Ok((vertices, lines)) => {
            let mut sides = [0u8; 2048];
            show(vertices, &ends[..2 * lines], &mut sides[..lines], page)
        }
        Err(refusal) => page.put_refusal(refusal),
    }
}

// The page of a network that read accepts; room for a choice is lent, with a byte a line.
fn show(vertices: usize, ends: &[u16], choice: &mut [u8], page: &mut Page)
    requires showable { Showable vertices ends.now choice.old page.old.bytes }
    requires none { page.old.count ≡ 0 }
    ensures { Paged (Shows (network vertices ends.now)) page.new }
{
    let mut ring_lines = [0u16; 2048];
    let mut ring_kinds = [0u8; 2048];
    match choice::first(vertices, ends, choice, &mut ring_lines, &mut ring_kinds) {
        Ok(back) => list(vertices, ends, choice, back, page),
        Err(Refusal::Ringed(size)) => page.put_ring(size, &ring_lines, &ring_kinds),
        Err(refusal) => page.put_refusal(refusal),
    }
}

// The page of a first choice.
fn list(vertices: usize, ends: &[u16], choice: &mut [u8], back: usize, page: &mut Page)
    requires sheetable { Sheetable vertices ends.now choice.old back page.old.bytes }
    requires none { page.old.count ≡ 0 }
    ensures { Paged (Sheet (network vertices ends.now) choice.old) page.new }
{
    let mut order = [0u16; 4096];
    let mut mesh = [0u16; 4096];
    let mut sizes = [0u16; 4097];
    match drawing::draw(vertices, ends, choice, &mut order, &mut mesh, &mut sizes) {
        Ok(meshes) => {
            page.put_counts(meshes, back);
            put_choices(vertices, ends, choice, page)
        }
        Err(refusal) => page.put_refusal(refusal),
    }
}

// The choices from the lent one on, 64 at the most, and the answer of the last next call.
fn put_choices(vertices: usize, ends: &[u16], choice: &mut [u8], page: &mut Page)
    requires listable { Listable vertices ends.now choice.old page.old.bytes }
    requires place_bound { page.old.count ≤ 11 }
    ensures { PutChoices vertices ends.now choice.old page.old page.new }
{
    for _ in 0..64usize {
        page.put_choice(choice);
        if let Err(refusal) = choice::next(vertices, ends, choice) {
            page.put_refusal(refusal);
            return;
        }
    }
    page.put_answer(0);
}
