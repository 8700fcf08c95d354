// A feed whose lines come in pieces.
use feed_core::{Feed, FeedError};
use sd_outside::MemSink;
use std::process::Abort;
use verifier_core::read_policy;

const POLICY: &[u8] = br#"{"keys":{"keys":[]}}"#;

fn expect_written(rt: &impl Abort, out: &MemSink, wanted: &[u8]) {
    assert_eq!(rt; out.written(), wanted);
}

#[test]
fn a_feed_answers_lines_as_they_end_and_ends_once(rt: HostRuntime) {
    let policy = read_policy(rt.alloc(), POLICY).expect(&rt, "a policy");
    let mut feed = Feed::new(rt.alloc(), policy, 0);
    let mut out = MemSink::new(rt.alloc(), 100).expect(&rt, "memory");
    assert!(rt; feed.take(b"ab", &mut out).is_ok());
    expect_written(&rt, &out, b"");
    assert!(rt; feed.take(b"\nc", &mut out).is_ok());
    expect_written(&rt, &out, b"refused 2 form at 2\n");
    assert_eq!(rt; feed.end(&mut out), Ok(2));
    assert_eq!(rt; feed.take(b"d\n", &mut out), Err(FeedError::Over));
    assert_eq!(rt; feed.end(&mut out), Err(FeedError::Over));
    expect_written(
        &rt,
        &out,
        b"refused 2 form at 2\nrefused 2 form at 1\nlines 2\n",
    );
}

#[test]
fn the_verdicts_of_a_piece_go_out_as_one_text(rt: HostRuntime) {
    let policy = read_policy(rt.alloc(), POLICY).expect(&rt, "a policy");
    let mut feed = Feed::new(rt.alloc(), policy, 0);
    let mut out = MemSink::new(rt.alloc(), 100).expect(&rt, "memory");
    out.fail_at(1).expect(&rt, "memory");
    assert!(rt; feed.take(b"a\nab\n", &mut out).is_ok());
    assert!(rt; feed.take(b"abc", &mut out).is_ok());
    assert_eq!(rt; feed.take(b"\nabcd\n", &mut out), Err(FeedError::Unwritten));
    assert_eq!(rt; feed.end(&mut out), Err(FeedError::Over));
    expect_written(&rt, &out, b"refused 2 form at 1\nrefused 2 form at 2\n");
    assert_eq!(rt; out.failures(), 1);
}
