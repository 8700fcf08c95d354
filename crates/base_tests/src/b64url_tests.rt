// Tests of the letters of base64url, which are looked at many at once, and of a room for bytes.
use b64url_text::{decode_into, is_word, word_len};

const LETTERS: &[u8] = b"ABCDEFGHIJKLMNOPQRSTUVWXYZabcdefghijklmnopqrstuvwxyz0123456789-_";

// Whether a byte among 69 letters is told to be one or none.
fn is_told(byte: u8, place: usize) -> bool {
    let mut text = [b'a'; 70];
    if let Some(letter) = text.get_mut(place) {
        *letter = byte;
    }
    let is_letter = LETTERS.contains(&byte);
    let len = if is_letter { 70 } else { place };
    is_word(&text) == is_letter && word_len(&text) == len
}

#[test]
fn each_byte_is_told_at_each_place(rt: HostRuntime) {
    for byte in 0..=255u8 {
        for place in [0, 1, 31, 32, 40, 63, 64, 69] {
            assert!(rt; is_told(byte, place), "{byte} at {place}");
        }
    }
    assert!(rt; !is_word(b""));
}

#[test]
fn a_room_keeps_what_is_not_written(rt: HostRuntime) {
    let mut room = [7; 6];
    let count = decode_into(b"AQID", &mut room);
    assert!(rt; count == Ok(3) && room == [1, 2, 3, 7, 7, 7]);
}
