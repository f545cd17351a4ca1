// Small hexadecimal digits: one at a time, four read together, and any number of them written.
#![tactic(auto)]

ghost use Rattle.std.specs.Prelude.{true, ◌≡◌, ◌+◌, ◌≤◌, ◌<◌, length};
ghost use Rattle.std.proofs.lemmas.List.Edits.{sets};
ghost use Rattle.digits.specs.Digits.{digit, is_digit, value, digits};
ghost use Rattle.digits.specs.Inside.{is_word, Word, Number};

// Whether a byte is a digit.
#[tactic(auto, using(crate::proofs::Words::ranges))]
fn is_digit(byte: u8) -> bool
    ensures { result ≡ is_digit byte }
{
    matches!(byte, b'0'..=b'9' | b'a'..=b'f')
}

// Which digit a byte is.
fn value(byte: u8) -> u16
    requires { is_digit byte ≡ true }
    ensures { (result ≡ value byte) × (result < 16) }
{
    if byte < b'a' {
        return (byte - b'0') as u16;
    }
    (byte - b'a') as u16 + 10
}

// The byte of a digit.
fn digit(d: u16) -> u8
    requires { d < 16 }
    ensures { result ≡ digit d }
{
    if d < 10 {
        return b'0' + d as u8;
    }
    b'a' + (d - 10) as u8
}

// Whether four digits stand at a place.
pub fn is_word(text: &[u8], at: usize) -> bool
    requires { at + 4 ≤ length text.now }
    ensures { result ≡ is_word text.now at }
{
    text[at..at + 4].iter().all(|byte| is_digit(*byte))
}

// The number in the four digits at a place.
pub fn word_at(text: &[u8], at: usize) -> u16
    requires { Word text.now at }
    ensures { Number text.now at result }
{
    let mut number = 0;
    for k in 0..4 {
        number = 16 * number + value(text[at + k]);
    }
    number
}

// Writes a number in so many digits from a place on: the last digit first, since it is what is left of the number.
pub fn put_number(text: &mut [u8], at: usize, places: usize, x: u16)
    requires { at + places ≤ length text.old }
    ensures { text.new ≡ sets text.old at (digits places x) }
{
    let mut rest = x;
    for k in (0..places).rev() {
        text[at + k] = digit(rest % 16);
        rest /= 16;
    }
}
