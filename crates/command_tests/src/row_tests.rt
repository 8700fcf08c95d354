// The runner of rows: which rows it tells, and what it says of them.
use std::test::Fail;
use table_rows::run_table;

// A name for all tables, and a line that can't be read.
const SHARED: &str = "let A = a.b.c\nsplit t";

// Lines that are as they say, and lines that are not, or can't be read.
const TABLE: &str = r#"# a comment
let T = <A>~
first t: <T>

split t = 0 protected a|payload b|signature c|
convert compact t == t
split t = 0 protected a|payload b|signature d|
split t = 1 protected a|payload b|signature c|
split u = 3 2> unread 1|
split u = 3 unread 1|
convert flat t == t
u: d; convert compact t == u
split t
split <U> = 0|
split <T = 0|
u := AQEB {} {}; split u = 0|
u := <32*AQEB> {} {"_sd":["$0"]}; split u = 0|
u += <32*AQEB> {} {}; split u = 0|
u: a.b; u ~= {}; split u = 0|
now: x; split t = 0|"#;

const WRONG: &str = r#"t.rows:7: came 0 protected a|payload b|signature c|
    due 0 protected a|payload b|signature d|
t.rows:8: came 0 protected a|payload b|signature c|
    due 1 protected a|payload b|signature c|
t.rows:10: came 3 2> unread 1|
    due 3 unread 1|
t.rows:11: came 0 {"header":{"disclosures":[]},"payload":"b","protected":"a","signature":"c"}|
    due 0 a.b.c~|
t.rows:12: came 0 a.b.c~|
    due 0 d|
t.rows:13: can't be read: a row has no =
t.rows:14: can't be read: no text has this name
t.rows:15: can't be read: a < has no > behind it
t.rows:16: can't be read: a key is short
t.rows:17: can't be read: a $ names a disclosure that does not stand before it
t.rows:18: can't be read: there is no token
t.rows:19: can't be read: it is no compact token
t.rows:20: can't be read: what is to be a number is none
"#;

#[test]
fn rows_that_leave_something_else_are_told(rt: HostRuntime) -> Result<(), Fail> {
    let report = run_table(rt.alloc(), SHARED, "t.rows", TABLE)?;
    let counts = [report.count.rows, report.count.differing];
    assert!(rt; report.told.as_str() == WRONG && counts == [16, 13]);
    Ok(())
}
