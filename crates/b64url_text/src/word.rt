// Which texts are base64url words, and how long they are.
ghost use Rattle.std.specs.Prelude.{◌≡◌, ◌+◌, ◌≤◌, ◌↔◌, length, drop, IsTrue};
ghost use Rattle.std.specs.List.{prefix_len};
ghost use Rattle.b64url_text.specs.Base64url.{is_letter as letter_test, IsWord};

use crate::lanes::{LANES, WIDE, are_letters, letters_at};

fn is_letter(byte: u8) -> bool
    ensures { result ≡ letter_test byte }
{
    byte.is_ascii_alphanumeric() || byte == b'-' || byte == b'_'
}

// The number of letters at the front, byte by byte.
fn short_word_len(text: &[u8]) -> usize
    ensures { result ≡ prefix_len letter_test text.now }
{
    text.iter().take_while(|byte| is_letter(**byte)).count()
}

// The number of letters at the front, as far as they fill runs of 64 bytes.
fn wide_len(text: &[u8]) -> usize
    ensures within { result ≤ length text.now }
    ensures counted { result + prefix_len letter_test (drop result text.now)
        ≡ prefix_len letter_test text.now }
{
    let mut at = 0;
    while text.len() - at >= WIDE && are_letters(text, at) {
        at += WIDE;
    }
    at
}

/// The number of letters of the alphabet at the front of a text.
pub fn word_len(text: &[u8]) -> usize
    ensures { result ≡ prefix_len letter_test text.now }
{
    let mut at = wide_len(text);
    while text.len() - at >= LANES {
        let letters = letters_at(text, at);
        if letters < LANES {
            return at + letters;
        }
        at += LANES;
    }
    at + short_word_len(&text[at..])
}

/// Whether a text is one letter of the alphabet or more, and nothing else.
pub fn is_word(text: &[u8]) -> bool
    ensures { IsTrue result ↔ IsWord text.now }
{
    !text.is_empty() && word_len(text) == text.len()
}
