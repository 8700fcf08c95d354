//! Issuing where someone else signs: first the text that is to be signed, then
//! the token with that signature.
//!
//! Nothing is kept between the two calls. Each lays what the order says anew, so both are given the
//! same order, name of an algorithm and seed. The order has no key, as `IsUnsignedOrderFile` says.
ghost use Rattle.std.specs.Prelude.{◌≡◌, ◌≢◌, ◌<◌, ◌≤◌, ◌⊎◌, [], None, length, IfOk, IfErr, IfSome, string_bytes};
ghost use Rattle.sd_outside.specs.Limits.{json_depth_max};
ghost use Rattle.claim_tree.specs.Tree.{depth};
ghost use Rattle.claim_tree.specs.View.{tree_of};
ghost use Rattle.cli_parts.specs.Lines.{line};
ghost use Rattle.cli_parts.specs.Stops.{OnRefused, OnUnreadable, NotUnread, NotUnreadable};
ghost use Rattle.issuer_core.specs.Order.{order_of};
ghost use Rattle.issuer_core.specs.RefusalLine.{issue_refusal_text};
ghost use Rattle.issuer_core.specs.Seed.{maker_of};
ghost use Rattle.issuer_core.specs.ToSign.{IsToSign, AreUnsignedWords};
ghost use Rattle.issuer_core.specs.declared.errors.IssueError.TheVariants.{Memory};
ghost use Rattle.sdjwt_c.specs.Handed.{HandsBy};
ghost use Rattle.sdjwt_c.specs.Signing.{AreNoAlgName, IsUnsignedFor, TellsNotToSign, RefusesToSign, HasNoUnsignedOrder, GivesSignedText, IsTokenLine, IsOverlongLine, GivesToken, RefusesToken, AsksToSign, SignsToken};

use crate::answer::{hand, leave};
use cli_parts::{Stop, as_line, readable, short_seed_line};
use compact_form::print;
use hmac_sign::AlgName;
use issuer_core::{IssueError, Order, UnsignedToken, read_unsigned_order, refusal_line, to_sign};
use sd_outside::{NoMemory, Status};
use std::alloc::Global;

// The name of an algorithm: a text, but neither the empty one nor `none`.
fn alg_name(bytes: &[u8]) -> Option<AlgName<'_>>
    ensures named { IfSome result (λ name. name ≡ bytes.now) }
    ensures a_name { IfSome result (λ _. AreNoAlgName bytes.now → ⊥) }
    ensures none { result ≡ None → AreNoAlgName bytes.now }
{
    match str::from_utf8(bytes) {
        Ok(name) => AlgName::new(name),
        Err(_) => None,
    }
}

// The line of a refusal of the issuer, where there is memory for it.
fn refused(alloc: Global, error: &IssueError) -> Stop
    ensures cause { OnRefused result (λ _. error.now ≢ Memory) }
    ensures line { OnRefused result (λ text. text ≡ line (issue_refusal_text error.now)) }
    ensures readable { NotUnreadable result }
    ensures read { NotUnread result }
{
    if let IssueError::Memory = error {
        return Stop::Memory;
    }
    match refused_line(alloc, error) {
        Ok(text) => Stop::Refused(text),
        Err(NoMemory) => Stop::Memory,
    }
}

fn refused_line(alloc: Global, error: &IssueError) -> Result<String, NoMemory>
    ensures { IfOk result (λ text. string_bytes text ≡ line (issue_refusal_text error.now)) }
{
    as_line(refusal_line(alloc, error)?)
}

// What is to be signed for an order that is read.
fn unsigned_for(
    alloc: Global,
    order: Order,
    alg: &AlgName<'_>,
    seed: &[u8; 32],
) -> Result<UnsignedToken, Stop>
    requires depth { depth (tree_of order.payload) ≤ json_depth_max }
    ensures to_sign { IfOk result (IsToSign (maker_of seed.now) (order_of order) alg.now) }
    ensures words { IfOk result AreUnsignedWords }
    ensures refuses { IfErr result
        (λ stop. OnRefused stop (TellsNotToSign seed.now (order_of order))) }
    ensures readable { IfErr result NotUnreadable }
    ensures read { IfErr result NotUnread }
{
    match to_sign(alloc, order, seed, alg) {
        Ok(token) => Ok(token),
        Err(error) => Err(refused(alloc, &error)),
    }
}

// What is to be signed for an order file and a seed file.
fn unsigned(
    alloc: Global,
    order: &[u8],
    alg: &AlgName<'_>,
    seed: &[u8],
) -> Result<UnsignedToken, Stop>
    ensures to_sign { IfOk result (IsUnsignedFor order.now alg.now seed.now) }
    ensures words { IfOk result AreUnsignedWords }
    ensures refuses { IfErr result (λ stop. OnRefused stop (RefusesToSign order.now seed.now)) }
    ensures unreadable { IfErr result
        (λ stop. OnUnreadable stop (HasNoUnsignedOrder order.now seed.now)) }
    ensures read { IfErr result NotUnread }
{
    let order = readable(alloc, read_unsigned_order(alloc, order))?;
    match seed.first_chunk::<32>() {
        Some(seed) => unsigned_for(alloc, order, alg, seed),
        None => Err(Stop::Unreadable(short_seed_line(alloc)?)),
    }
}

// The text that is to be signed for an order.
fn asked_text(alloc: Global, order: &[u8], alg: &AlgName<'_>, seed: &[u8]) -> Result<String, Stop>
    ensures asks { IfOk result
        (λ text. GivesSignedText order.now alg.now seed.now (string_bytes text)) }
    ensures refuses { IfErr result (λ stop. OnRefused stop (RefusesToSign order.now seed.now)) }
    ensures unreadable { IfErr result
        (λ stop. OnUnreadable stop (HasNoUnsignedOrder order.now seed.now)) }
    ensures read { IfErr result NotUnread }
{
    let token = unsigned(alloc, order, alg, seed)?;
    Ok(token.jwt.text(alloc)?.into_string())
}

// The line of the token with this signature.
fn token_line(alloc: Global, token: UnsignedToken, signature: &[u8]) -> Result<String, Stop>
    requires words { AreUnsignedWords token }
    requires some { 0 < length signature.now }
    ensures gives { IfOk result (λ text. IsTokenLine token signature.now (string_bytes text)) }
    ensures refuses { IfErr result (λ stop. OnRefused stop (IsOverlongLine token signature.now)) }
    ensures readable { IfErr result NotUnreadable }
    ensures read { IfErr result NotUnread }
{
    match token.signed(alloc, signature) {
        Ok(parts) => Ok(as_line(print(alloc, &parts)?)?),
        Err(error) => Err(refused(alloc, &error)),
    }
}

// The token of an order with this signature.
fn signed_token(
    alloc: Global,
    order: &[u8],
    alg: &AlgName<'_>,
    seed: &[u8],
    signature: &[u8],
) -> Result<String, Stop>
    requires some { 0 < length signature.now }
    ensures gives { IfOk result
        (λ text. GivesToken order.now alg.now seed.now signature.now (string_bytes text)) }
    ensures refuses { IfErr result
        (λ stop. OnRefused stop (RefusesToken order.now alg.now seed.now signature.now)) }
    ensures unreadable { IfErr result
        (λ stop. OnUnreadable stop (HasNoUnsignedOrder order.now seed.now)) }
    ensures read { IfErr result NotUnread }
{
    let token = unsigned(alloc, order, alg, seed)?;
    token_line(alloc, token, signature)
}

/// The text that is to be signed of a token for an order without a key, by an algorithm of this
/// name. There is no line end behind it: the signature is over just these bytes. Where the name is
/// no text, empty or `none`, the call is misused.
#[unsafe(no_mangle)]
pub extern "C" fn sdjwt_issue_ask(
    alloc: Global,
    order: &[u8],
    alg: &[u8],
    seed: &[u8],
    room: &mut [u8],
    len: &mut usize,
) -> u8
    ensures { HandsBy (AreNoAlgName alg.now) (AsksToSign order.now alg.now seed.now) room.old
        room.new len.new result }
{
    match alg_name(alg) {
        Some(alg) => hand(asked_text(alloc, order, &alg, seed), room, len).number(),
        None => leave(Status::Usage, len).number(),
    }
}

/// The token of the same order, name and seed with this signature. An empty one is a misuse, too.
#[unsafe(no_mangle)]
pub extern "C" fn sdjwt_issue_sign(
    alloc: Global,
    order: &[u8],
    alg: &[u8],
    seed: &[u8],
    signature: &[u8],
    room: &mut [u8],
    len: &mut usize,
) -> u8
    ensures { HandsBy ((signature.now ≡ []) ⊎ AreNoAlgName alg.now)
        (SignsToken order.now alg.now seed.now signature.now) room.old room.new len.new result }
{
    if signature.is_empty() {
        return leave(Status::Usage, len).number();
    }
    match alg_name(alg) {
        Some(alg) => hand(signed_token(alloc, order, &alg, seed, signature), room, len).number(),
        None => leave(Status::Usage, len).number(),
    }
}
