// Tests of the places where digests stand.
use crate::from_text::value;
use claim_tree::print_path;
use digest_sites::SiteKind::{Element, Member};
use digest_sites::{Site, SiteError, SiteKind, SiteList, sites};
use sd_outside::NoMemory;
use std::alloc::Global;

// A site in words: its place, its kind and its digest.
type Words = (&'static str, SiteKind, &'static str);

fn is_site(alloc: Global, site: &Site, wanted: Words) -> Result<bool, NoMemory> {
    let (place, kind, digest) = wanted;
    let at = print_path(alloc, &site.at)?;
    Ok(at.as_str() == place && site.kind == kind && site.digest.as_str() == digest)
}

fn are_sites(alloc: Global, list: &SiteList, wanted: &[Words]) -> Result<bool, NoMemory> {
    for (i, words) in wanted.iter().enumerate() {
        let Some(site) = list.at(i) else {
            return Ok(false);
        };
        if !is_site(alloc, site, *words)? {
            return Ok(false);
        }
    }
    Ok(list.len() == wanted.len())
}

// The same of the sites of a value, or why it has none.
fn are_listed(
    alloc: Global,
    text: &str,
    wanted: Result<&[Words], SiteError>,
) -> Result<bool, NoMemory> {
    let tree = value(alloc, text)?;
    match (sites(alloc, &tree), wanted) {
        (Ok(list), Ok(words)) => are_sites(alloc, &list, words),
        (Err(error), Err(due)) => Ok(error == due),
        _ => Ok(false),
    }
}

#[test]
fn sites_are_listed_in_order(rt: HostRuntime) {
    for (text, wanted) in [
        (
            r#"{"nationalities":["DE",{"...":"w0I8EKcdCtUPkGCNUrfwVp2xEgNjtoIDlOxc9-PlOhs"},"US"]}"#,
            Ok([(
                "/nationalities/1",
                Element,
                "w0I8EKcdCtUPkGCNUrfwVp2xEgNjtoIDlOxc9-PlOhs",
            )]
            .as_slice()),
        ),
        (
            r#"{"z":{"_sd":["e"]},"a/b":[{"...":"c"},[1,{"...":"d"}]],"_sd":["b","a"],"A":{"_sd":["f"]}}"#,
            Ok([
                ("", Member, "b"),
                ("", Member, "a"),
                ("/A", Member, "f"),
                ("/a~1b/0", Element, "c"),
                ("/a~1b/1/1", Element, "d"),
                ("/z", Member, "e"),
            ]
            .as_slice()),
        ),
        (
            r#"[0,1,2,3,4,5,6,7,8,9,{"...":"a"},{"_sd":["b"]}]"#,
            Ok([("/10", Element, "a"), ("/11", Member, "b")].as_slice()),
        ),
        (
            r#"[{"_sd_alg":["_sd"],"_sd":[]},"...","_sd",null,{"_sd":["a"]}]"#,
            Ok([("/4", Member, "a")].as_slice()),
        ),
        (r#"{"a":{"...":"x"}}"#, Err(SiteError::Misused)),
    ] {
        assert!(rt; are_listed(rt.alloc(), text, wanted) == Ok(true), "{text}");
    }
}
