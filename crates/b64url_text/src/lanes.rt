// Letters found 32 bytes at a time.
ghost use Rattle.std.specs.Prelude.{◌≡◌, ◌+◌, ◌≤◌, length, take, drop, IsTrue};
ghost use Rattle.std.specs.List.{prefix_len};
ghost use Rattle.b64url_text.specs.Base64url.{is_letter as letter_test};
ghost use Rattle.b64url_text.specs.Lanes.{first_set as place_of_first};

use std::simd::prelude::*;

pub(crate) const LANES: usize = 32;

pub(crate) const WIDE: usize = 64;

// The letters by the high four bits of their code. Each class is a bit, and a byte is a letter
// where the class of its high four bits has its low four bits.
const DASH: u8 = 1; // 0x2D

const DIGITS: u8 = 2; // 0x30 to 0x39

const A_TO_O: u8 = 4; // 0x41 to 0x4F, 0x61 to 0x6F

const UPPER_REST: u8 = 8; // 0x50 to 0x5A, and 0x5F

const LOWER_REST: u8 = 16; // 0x70 to 0x7A

// The class of a high four bits, for both halves of a vector.
const CLASS: [u8; LANES] = [
    0, 0, DASH, DIGITS, A_TO_O, UPPER_REST, A_TO_O, LOWER_REST, 0, 0, 0, 0, 0, 0, 0, 0, 0, 0, DASH,
    DIGITS, A_TO_O, UPPER_REST, A_TO_O, LOWER_REST, 0, 0, 0, 0, 0, 0, 0, 0,
];

// The classes that have these low four bits; B, C and E have `A_TO_O` alone.
const LOW_0: u8 = DIGITS | UPPER_REST | LOWER_REST;

const LOW_1_TO_9: u8 = LOW_0 | A_TO_O;

const LOW_A: u8 = A_TO_O | UPPER_REST | LOWER_REST;

const LOW_D: u8 = A_TO_O | DASH;

const LOW_F: u8 = A_TO_O | UPPER_REST;

// The classes that have a low four bits, for both halves of a vector.
const CLASSES: [u8; LANES] = [
    LOW_0, LOW_1_TO_9, LOW_1_TO_9, LOW_1_TO_9, LOW_1_TO_9, LOW_1_TO_9, LOW_1_TO_9, LOW_1_TO_9,
    LOW_1_TO_9, LOW_1_TO_9, LOW_A, A_TO_O, A_TO_O, LOW_D, A_TO_O, LOW_F, LOW_0, LOW_1_TO_9,
    LOW_1_TO_9, LOW_1_TO_9, LOW_1_TO_9, LOW_1_TO_9, LOW_1_TO_9, LOW_1_TO_9, LOW_1_TO_9, LOW_1_TO_9,
    LOW_A, A_TO_O, A_TO_O, LOW_D, A_TO_O, LOW_F,
];

// The lowest bit that is set, or the number of lanes.
fn first_set(mask: u64) -> usize
    ensures { result ≡ place_of_first mask LANES }
{
    if mask == 0 {
        LANES
    } else {
        mask.trailing_zeros() as usize
    }
}

// Those of the 32 bytes from `at` on that are no letters: a bit for each byte.
fn strays_at(text: &[u8], at: usize) -> u64
    requires { at + LANES ≤ length text.now }
    ensures { place_of_first result LANES ≡ prefix_len letter_test (take LANES (drop at text.now)) }
{
    let bytes = u8x32::from_slice(&text[at..]);
    let class = u8x32::from_array(CLASS).swizzle_dyn_within::<16>(bytes >> u8x32::splat(4));
    let classes = u8x32::from_array(CLASSES).swizzle_dyn_within::<16>(bytes & u8x32::splat(15));
    (class & classes).simd_eq(u8x32::splat(0)).to_bitmask()
}

// How many of the 32 bytes from `at` on stand before the first that is no letter.
pub(crate) fn letters_at(text: &[u8], at: usize) -> usize
    requires { at + LANES ≤ length text.now }
    ensures { result ≡ prefix_len letter_test (take LANES (drop at text.now)) }
{
    first_set(strays_at(text, at))
}

// Whether the 64 bytes from `at` on are all letters.
pub(crate) fn are_letters(text: &[u8], at: usize) -> bool
    requires { at + WIDE ≤ length text.now }
    ensures first { IsTrue result → prefix_len letter_test (take LANES (drop at text.now)) ≡ LANES }
    ensures second { IsTrue result
        → prefix_len letter_test (take LANES (drop (at + LANES) text.now)) ≡ LANES }
{
    strays_at(text, at) | strays_at(text, at + LANES) == 0
}
