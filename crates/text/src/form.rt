// Whether a text has the form: the length that its first frame asks, and every place as it should be.
ghost use Rattle.std.specs.Prelude.{◌≡◌, ◌+◌, ◌*◌, ◌≤◌, ◌<◌, length};
ghost use Rattle.laws.specs.Tests.{all};
ghost use Rattle.digits.specs.Inside.{Word, Number};
ghost use Rattle.text.specs.Text.{well_placed, has_form};
ghost use Rattle.text.specs.Inside.{is_frame, Opened};

// Whether a text has the form. The first frame comes first, since it says how long the text should be.
pub(crate) fn has_form(text: &[u8]) -> bool
    ensures { result ≡ has_form text.now }
{
    if text.len() < 9 {
        return false;
    }
    if !is_frame(text, 0) {
        return false;
    }
    let lines = number_at(text, 4);
    if text.len() != 9 * (lines + 1) {
        return false;
    }
    are_frames(text, lines)
}

// Whether every place after the first frame is as it should be.
fn are_frames(text: &[u8], lines: usize) -> bool
    requires { Opened text.now lines }
    ensures { result ≡ all (well_placed text.now) (length text.now) }
{
    for k in 1..=lines {
        if !is_frame(text, k) {
            return false;
        }
    }
    true
}

// Whether the nine bytes of frame k are eight digits and a line feed.
fn is_frame(text: &[u8], k: usize) -> bool
    requires { 9 * k + 9 ≤ length text.now }
    ensures { result ≡ is_frame text.now k }
{
    let at = 9 * k;
    digits::is_word(text, at) && digits::is_word(text, at + 4) && text[at + 8] == b'\n'
}

// The number in the four digits at a place, as an index.
pub(crate) fn number_at(text: &[u8], at: usize) -> usize
    requires { Word text.now at }
    ensures { Number text.now at result }
{
    digits::word_at(text, at) as usize
}
