// The top call of the program.
ghost use Rattle.std.specs.Prelude.{◌≡◌, ◌≤◌, ◌^◌, ◌↔◌, ◌⊎◌, map, string_bytes, codes, IsTrue};
ghost use Rattle.cli_parts.specs.Outside.{outside};
ghost use Rattle.audit_core.specs.AuditRun.{AuditEnds};
ghost use Rattle.feed_core.specs.FeedSource.{input};
ghost use Rattle.feed_core.specs.FeedRun.{feed_outside, FeedEnds, FeedKeeps};
ghost use Rattle.wallet_core.specs.WalletRun.{WalletEnds};
ghost use Rattle.tools_cli.specs.Tools.{Names};

use audit_core::run_audit;
use feed_core::run_feed;
use sd_outside::{Cabinet, Sink, Source, Status};
use std::alloc::Global;
use wallet_core::run_wallet;

// Whether the first word is this name.
fn names_tool(words: &[String], name: &str) -> bool
    ensures { IsTrue result ↔ Names name.now (map string_bytes words.now) }
{
    let [word, ..] = words else {
        return false;
    };
    word.as_str() == name
}

/// Runs the tool that the first word names, over the files of the cabinet and
/// what the source gives: `audit` and `wallet`, which take nothing from the
/// source, or `feed`. All other words are none.
pub fn run_tools<C: Cabinet, R: Source, O: Sink, E: Sink>(
    alloc: Global,
    words: &[String],
    cab: &mut C,
    src: &mut R,
    now: u64,
    out: &mut O,
    err: &mut E,
) -> Status
    requires { R.taken src.old ≤ 2 ^ 63 }
    ensures audit { Names (codes "audit") (map string_bytes words.now)
        → AuditEnds (map string_bytes words.now)
        (outside C.Cabinet O.Sink E.Sink cab.old out.old err.old)
        (outside C.Cabinet O.Sink E.Sink cab.new out.new err.new) result }
    ensures wallet { Names (codes "wallet") (map string_bytes words.now)
        → WalletEnds (map string_bytes words.now)
        (outside C.Cabinet O.Sink E.Sink cab.old out.old err.old)
        (outside C.Cabinet O.Sink E.Sink cab.new out.new err.new) result }
    ensures untaken { Names (codes "audit") (map string_bytes words.now)
        ⊎ Names (codes "wallet") (map string_bytes words.now) → src.new ≡ src.old }
    ensures ends { (Names (codes "audit") (map string_bytes words.now) → ⊥)
        → (Names (codes "wallet") (map string_bytes words.now) → ⊥)
        → FeedEnds (map string_bytes words.now)
        (feed_outside (outside C.Cabinet O.Sink E.Sink cab.old out.old err.old)
        (input R.Source src.old))
        (feed_outside (outside C.Cabinet O.Sink E.Sink cab.new out.new err.new)
        (input R.Source src.new)) now result }
    ensures keeps { FeedKeeps
        (feed_outside (outside C.Cabinet O.Sink E.Sink cab.old out.old err.old)
        (input R.Source src.old))
        (feed_outside (outside C.Cabinet O.Sink E.Sink cab.new out.new err.new)
        (input R.Source src.new)) }
{
    if names_tool(words, "audit") {
        return run_audit(alloc, words, cab, out, err);
    }
    if names_tool(words, "wallet") {
        return run_wallet(alloc, words, cab, out, err);
    }
    run_feed(alloc, words, cab, src, now, out, err)
}
