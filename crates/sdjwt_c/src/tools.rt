//! The tools, each over the bytes of its files: the audit of a token for its order, and the wallet.
ghost use Rattle.std.specs.Prelude.{◌≡◌, ◌↔◌, IsTrue, IfOk};
ghost use Rattle.audit_core.specs.AuditRun.{AuditAnswers};
ghost use Rattle.wallet_core.specs.WalletRun.{WalletAnswers};
ghost use Rattle.sdjwt_c.specs.Handed.{HandsBy};
ghost use Rattle.sdjwt_c.specs.Tokens.{AreLengths, pieces};

use crate::answer::{hand, leave};
use audit_core::audit_files;
use sd_outside::{ByteBox, NoMemory, Status};
use std::alloc::Global;
use wallet_core::{CredentialList, TOKENS_MAX, answer_files};

/// Whether a token is what an order asks for: the line `yes`.
#[unsafe(no_mangle)]
pub extern "C" fn sdjwt_audit(
    alloc: Global,
    order: &[u8],
    token: &[u8],
    room: &mut [u8],
    len: &mut usize,
) -> u8
    ensures { HandsBy ⊥ (λ reply. AuditAnswers order.now token.now reply) room.old room.new len.new
        result }
{
    hand(audit_files(alloc, order, token), room, len).number()
}

// Whether these are the lengths of 1 to 64 pieces of a text, and of all of it. It takes no memory.
fn are_lengths(text: &[u8], lengths: &[usize]) -> bool
    ensures { IsTrue result ↔ AreLengths lengths.now text.now }
{
    if lengths.is_empty() || TOKENS_MAX < lengths.len() {
        return false;
    }
    let mut rest = text.len();
    for length in lengths {
        if rest < *length {
            return false;
        }
        rest -= *length;
    }
    rest == 0
}

// The pieces of a text that have these lengths.
fn cut(alloc: Global, text: &[u8], lengths: &[usize]) -> Result<CredentialList, NoMemory>
    requires { AreLengths lengths.now text.now }
    ensures { IfOk result (λ held. held ≡ pieces lengths.now text.now) }
{
    let mut held = CredentialList::new(alloc);
    let mut rest = text;
    for length in lengths {
        let (piece, behind) = rest.split_at(*length);
        let mut token = ByteBox::new(alloc);
        token.append(piece)?;
        held.push(token)?;
        rest = behind;
    }
    Ok(held)
}

/// What a wallet shows for a query, of 1 to 64 tokens that stand one behind the other, with their
/// lengths. With other lengths the call is misused.
#[unsafe(no_mangle)]
pub extern "C" fn sdjwt_wallet(
    alloc: Global,
    query: &[u8],
    tokens: &[u8],
    lengths: &[usize],
    room: &mut [u8],
    len: &mut usize,
) -> u8
    ensures { HandsBy (AreLengths lengths.now tokens.now → ⊥)
        (λ reply. AreLengths lengths.now tokens.now
        × WalletAnswers query.now (pieces lengths.now tokens.now) reply) room.old room.new
        len.new result }
{
    if !are_lengths(tokens, lengths) {
        return leave(Status::Usage, len).number();
    }
    match cut(alloc, tokens, lengths) {
        Ok(held) => hand(answer_files(alloc, query, &held), room, len).number(),
        Err(NoMemory) => leave(Status::Memory, len).number(),
    }
}
