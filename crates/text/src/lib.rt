// A network as text: read and write.
//
// Their contracts cite specs/Calls.antt, whose words stand on the frames and the form of specs/Text.antt.
#![tactic(auto)]

mod form;
mod frames;

ghost use Rattle.network.specs.Numbers.{answered, answered_two};
ghost use Rattle.text.specs.Calls.{Read, Write};

use network::Refusal;
use network::copies::lay;

// Reads a network from a text, writes its ends, two to a line, and answers how many vertices and how many lines there are.
pub fn read(text: &[u8], ends: &mut [u16]) -> Result<(usize, usize), Refusal>
    ensures { Read text.now ends.old (answered_two result) ends.new }
{
    if !form::has_form(text) {
        return Err(Refusal::Formless);
    }
    let vertices = form::number_at(text, 0);
    let lines = form::number_at(text, 4);
    let count = 2 * lines;
    if network::is_oversize(vertices, count) {
        return Err(Refusal::Oversize);
    }
    if ends.len() < count {
        return Err(Refusal::Cramped);
    }
    let mut taken = [0u16; 4096];
    frames::take_ends(text, lines, &mut taken);
    search::fault(vertices, &taken[..count])?;
    lay(&taken, count, ends);
    Ok((vertices, lines))
}

// Writes the text of a network, and answers how many bytes it has.
pub fn write(vertices: usize, ends: &[u16], text: &mut [u8]) -> Result<usize, Refusal>
    ensures { Write vertices ends.now text.old (answered result) text.new }
{
    if network::is_oversize(vertices, ends.len()) {
        return Err(Refusal::Oversize);
    }
    if network::is_odd(ends.len()) {
        return Err(Refusal::Cramped);
    }
    let bytes = 9 * (ends.len() / 2 + 1);
    if text.len() < bytes {
        return Err(Refusal::Cramped);
    }
    search::fault(vertices, ends)?;
    frames::put_text(vertices, ends, text);
    Ok(bytes)
}
