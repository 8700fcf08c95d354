//! The commands, each over the bytes of its files.
//!
//! An answer has a line end behind it, as the program writes it. None of these
//! reads a clock: the moment is in seconds since 1970.
ghost use Rattle.std.specs.Prelude.{◌≡◌, None, IsSomeAnd};
ghost use Rattle.sdjwt_cli.specs.Answers.{SplitAnswers, ShowAnswers, VerifyAnswers, IssueAnswers, PresentAnswers, ConvertAnswers};
ghost use Rattle.sdjwt_c.specs.Handed.{HandsBy};
ghost use Rattle.sdjwt_c.specs.Numbers.{form_numbered};

use crate::answer::{hand, leave};
use sd_outside::Status;
use sdjwt_cli::{Form, commands};
use std::alloc::Global;

/// The version of what C sees. It changes whenever a program that was compiled
/// before no longer fits.
#[unsafe(no_mangle)]
pub extern "C" fn sdjwt_abi_version() -> u32
    ensures { result ≡ 1 }
{
    1
}

/// The token of an order.
#[unsafe(no_mangle)]
pub extern "C" fn sdjwt_issue(
    alloc: Global,
    order: &[u8],
    seed: &[u8],
    room: &mut [u8],
    len: &mut usize,
) -> u8
    ensures { HandsBy ⊥ (λ reply. IssueAnswers order.now seed.now reply) room.old room.new len.new
        result }
{
    hand(commands::issue(alloc, order, seed), room, len).number()
}

/// What a holder presents of a token.
#[unsafe(no_mangle)]
pub extern "C" fn sdjwt_present(
    alloc: Global,
    order: &[u8],
    token: &[u8],
    now: u64,
    room: &mut [u8],
    len: &mut usize,
) -> u8
    ensures { HandsBy ⊥ (λ reply. PresentAnswers order.now token.now now reply) room.old room.new
        len.new result }
{
    hand(commands::present(alloc, order, token, now), room, len).number()
}

/// The processed payload of a token that is accepted.
#[unsafe(no_mangle)]
pub extern "C" fn sdjwt_verify(
    alloc: Global,
    policy: &[u8],
    token: &[u8],
    now: u64,
    room: &mut [u8],
    len: &mut usize,
) -> u8
    ensures { HandsBy ⊥ (λ reply. VerifyAnswers policy.now token.now now reply) room.old room.new
        len.new result }
{
    hand(commands::verify(alloc, policy, token, now), room, len).number()
}

/// The JSON inside a token, unchecked.
#[unsafe(no_mangle)]
pub extern "C" fn sdjwt_show(alloc: Global, token: &[u8], room: &mut [u8], len: &mut usize) -> u8
    ensures { HandsBy ⊥ (λ reply. ShowAnswers token.now reply) room.old room.new len.new result }
{
    hand(commands::show(alloc, token), room, len).number()
}

/// The texts of a token's parts, unchecked.
#[unsafe(no_mangle)]
pub extern "C" fn sdjwt_split(alloc: Global, token: &[u8], room: &mut [u8], len: &mut usize) -> u8
    ensures { HandsBy ⊥ (λ reply. SplitAnswers token.now reply) room.old room.new len.new result }
{
    hand(commands::split(alloc, token), room, len).number()
}

// The form of a number.
fn form_of(number: u8) -> Option<Form>
    ensures { result ≡ form_numbered number }
{
    match number {
        0 => Some(Form::Compact),
        1 => Some(Form::Flat),
        2 => Some(Form::General),
        _ => None,
    }
}

/// The token in a form: 0 is compact, 1 flattened JSON and 2 general JSON. With
/// another number the call is misused.
#[unsafe(no_mangle)]
pub extern "C" fn sdjwt_convert(
    alloc: Global,
    form: u8,
    token: &[u8],
    room: &mut [u8],
    len: &mut usize,
) -> u8
    ensures { HandsBy (form_numbered form ≡ None)
        (λ reply. IsSomeAnd (form_numbered form) (λ form. ConvertAnswers form token.now reply))
        room.old room.new len.new result }
{
    match form_of(form) {
        Some(form) => hand(commands::convert(alloc, form, token), room, len).number(),
        None => leave(Status::Usage, len).number(),
    }
}
