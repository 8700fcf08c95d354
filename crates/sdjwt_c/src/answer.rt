// An answer on its way into the room of the caller.
ghost use Rattle.std.specs.Prelude.{◌≡◌};
ghost use Rattle.sdjwt_c.specs.Handed.{IsGiven};
ghost use Rattle.sdjwt_c.specs.Results.{IsHanded};

use cli_parts::Stop;
use sd_outside::Status;

// Writes the whole text, and answers the status; or nothing where there is no room for it.
pub(crate) fn give(text: &str, told: Status, room: &mut [u8], len: &mut usize) -> Status
    ensures { IsGiven text.now told room.old room.new len.new result }
{
    give_bytes(text.as_bytes(), told, room, len)
}

// The same of bytes.
pub(crate) fn give_bytes(bytes: &[u8], told: Status, room: &mut [u8], len: &mut usize) -> Status
    ensures { IsGiven bytes.now told room.old room.new len.new result }
{
    *len = bytes.len();
    if bytes.len() > room.len() {
        return Status::Unwritten;
    }
    room[..bytes.len()].copy_from_slice(bytes);
    told
}

// Writes nothing.
pub(crate) fn leave(told: Status, len: &mut usize) -> Status
    ensures status { result ≡ told }
    ensures len { len.new ≡ 0 }
{
    *len = 0;
    told
}

// Hands over an answer, or the line that tells why there is none.
pub(crate) fn hand(answer: Result<String, Stop>, room: &mut [u8], len: &mut usize) -> Status
    ensures { IsHanded answer room.old room.new len.new result }
{
    match answer {
        Ok(text) => give(text.as_str(), Status::Done, room, len),
        Err(Stop::Refused(line)) => give(line.as_str(), Status::Refused, room, len),
        Err(Stop::Unreadable(line)) => give(line.as_str(), Status::Unreadable, room, len),
        Err(Stop::Unread(_)) => leave(Status::Unread, len),
        Err(Stop::Memory) => leave(Status::Memory, len),
    }
}
