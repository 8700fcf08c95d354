// Bytes and their base64url texts (RFC 4648 section 5, without padding).
ghost use Rattle.std.specs.Prelude.{◌≡◌, ◌≤◌, length, take, drop, IfOk, IfErr, IsErrOf};
ghost use Rattle.b64url_text.specs.Base64url.{b64, Decodes};
ghost use Rattle.b64url_text.specs.NotBase64.{IsNotBase64};
ghost use Rattle.b64url_text.specs.Room.{room_for};

use crate::{DecodeError, NotBase64};
use base64::DecodeAllocError;
use base64::engine::general_purpose::URL_SAFE_NO_PAD;
use sd_outside::{ByteBox, NoMemory, TextBox};
use std::alloc::Global;

/// The text of the bytes, which are any.
pub fn encode(alloc: Global, bytes: &[u8]) -> Result<TextBox, NoMemory>
    ensures { IfOk result (λ text. text ≡ b64 bytes.now) }
{
    let text = URL_SAFE_NO_PAD.encode(alloc, bytes)?;
    Ok(TextBox::from_string(text))
}

/// The bytes of the text.
pub fn decode(alloc: Global, text: &[u8]) -> Result<ByteBox, DecodeError>
    ensures ok { IfOk result (Decodes text.now) }
    ensures not_base64 { IsErrOf result DecodeError.NotBase64 → IsNotBase64 text.now }
{
    match URL_SAFE_NO_PAD.decode(alloc, text) {
        Ok(bytes) => Ok(ByteBox::from_vec(bytes)),
        Err(DecodeAllocError::OutOfMemory) => Err(DecodeError::Memory),
        Err(DecodeAllocError::DecodeError(_)) => Err(DecodeError::NotBase64),
    }
}

/// Writes the bytes of the text to the front of the room, and answers how many
/// they are. It takes no memory.
///
/// After a refusal the room holds any bytes.
pub fn decode_into(text: &[u8], room: &mut [u8]) -> Result<usize, NotBase64>
    requires { room_for (length text.now) ≤ length room.old }
    ensures within { IfOk result (λ count. count ≤ length room.new) }
    ensures ok { IfOk result (λ count. Decodes text.now (take count room.new)) }
    ensures rest { IfOk result (λ count. drop count room.new ≡ drop count room.old) }
    ensures not_base64 { IfErr result (λ _. IsNotBase64 text.now) }
{
    match URL_SAFE_NO_PAD.decode_slice_unchecked(text, room) {
        Ok(count) => Ok(count),
        Err(_) => Err(NotBase64),
    }
}
