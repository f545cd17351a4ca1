// Frames: the ends of lines taken from a text, and a network's frames put into one.
ghost use Rattle.std.specs.Prelude.{◌≡◌, ◌+◌, ◌*◌, ◌/◌, ◌≤◌, length};
ghost use Rattle.std.proofs.lemmas.List.Edits.{sets};
ghost use Rattle.laws.specs.Lists.{filled};
ghost use Rattle.text.specs.Text.{frame, text_of, room, ends_in};
ghost use Rattle.text.specs.Inside.{Parsable, Roomy, Writable, after_first};

// Takes the two ends of each line from a text that has the form.
pub(crate) fn take_ends(text: &[u8], lines: usize, ends: &mut [u16])
    requires { Parsable text.now lines ends.old }
    ensures { ends.new ≡ filled (2 * lines) (ends_in text.now) ends.old }
{
    for k in 0..lines {
        let at = 9 * (k + 1);
        ends[2 * k] = digits::word_at(text, at);
        ends[2 * k + 1] = digits::word_at(text, at + 4);
    }
}

// Puts the text of a network at the beginning of a buffer.
pub(crate) fn put_text(vertices: usize, ends: &[u16], text: &mut [u8])
    requires { Writable vertices ends.now text.old }
    ensures { text.new ≡ filled (room (length ends.now / 2)) (text_of vertices ends.now) text.old }
{
    let lines = ends.len() / 2;
    put_frame(text, 0, vertices as u16, lines as u16);
    put_lines(ends, text);
}

// Puts a frame for each line after the first frame.
fn put_lines(ends: &[u16], text: &mut [u8])
    requires { Roomy ends.now text.old }
    ensures { text.new ≡ after_first ends.now (length ends.now / 2) text.old }
{
    let lines = ends.len() / 2;
    for k in 0..lines {
        put_frame(text, 9 * (k + 1), ends[2 * k], ends[2 * k + 1]);
    }
}

// Puts one frame at a place.
fn put_frame(text: &mut [u8], at: usize, a: u16, b: u16)
    requires { at + 9 ≤ length text.old }
    ensures { text.new ≡ sets text.old at (frame a b) }
{
    digits::put_number(text, at, 4, a);
    digits::put_number(text, at + 4, 4, b);
    text[at + 8] = b'\n';
}
