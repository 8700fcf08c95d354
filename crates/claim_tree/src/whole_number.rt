// What the texts of numbers are.
ghost use Rattle.std.specs.Prelude.{◌≡◌, Err, ◌<◌, true, false, length, slice_index, ◌==◌, IsTrue};
ghost use Rattle.serde_json.specs.Read.{number_of, number_from, float_of};
ghost use Rattle.claim_tree.specs.Floats.{IsNumber};

use crate::Whole;
use fast_float::Numeral;

// Why the text of a number is not kept as a whole number.
#[derive(Clone, Copy)]
pub(crate) enum NumberError {
    // It has a fraction or an exponent, is `-0`, or is out of the range of 64 bits.
    Float,
    // It is too great for a float.
    TooGreat,
}

// The whole number that the text of a number is.
pub(crate) fn whole_number(text: &str) -> Result<Whole, NumberError>
    ensures value { IsNumber (number_of text.now) result }
{
    let bytes = text.as_bytes();
    if has_minus(bytes) {
        negative(&Numeral::scan(&bytes[1..]))
    } else {
        positive(&Numeral::scan(bytes))
    }
}

fn has_minus(bytes: &[u8]) -> bool
    ensures value { result ≡ (slice_index bytes.now 0 == 45) }
    ensures some { IsTrue result → 0 < length bytes.now }
{
    !bytes.is_empty() && bytes[0] == b'-'
}

fn positive(numeral: &Numeral<'_>) -> Result<Whole, NumberError>
    ensures value { IsNumber (number_from false numeral.now) result }
{
    match numeral.to_u64() {
        Some(n) => Ok(Whole::from(n)),
        None => Err(number_error(false, numeral)),
    }
}

fn negative(numeral: &Numeral<'_>) -> Result<Whole, NumberError>
    ensures value { IsNumber (number_from true numeral.now) result }
{
    if let Some(n) = numeral.to_i64(true) {
        if n < 0 {
            return Ok(Whole::from(n));
        }
    }
    Err(number_error(true, numeral))
}

fn number_error(negative: bool, numeral: &Numeral<'_>) -> NumberError
    ensures value { IsNumber (float_of negative numeral.now) (Err result) }
{
    if numeral.to_float::<f64>(negative).is_finite() {
        NumberError::Float
    } else {
        NumberError::TooGreat
    }
}
