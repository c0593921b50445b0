//! What is a script, and which fault the first command has that is none.

use crate::cases::gives;
use ipcz_script::{ScriptFault, read_script};
use std::alloc::{AllocError, Global};

const MEMBERS: &str = r#"{"nodes":1,"words":0,"commands":"#;

fn refusal_of(alloc: Global, bytes: &[u8]) -> Option<ScriptFault> {
    match read_script(alloc, bytes) {
        Ok(_) => None,
        Err(why) => Some(why),
    }
}

static NO_SCRIPTS: [(&'static str, ScriptFault); 14] = [
    ("", ScriptFault::NotJson),
    (r#"{"nodes":2,"#, ScriptFault::NotJson),
    (
        r#"{"nodes":1,"words":0,"commands":[]}x"#,
        ScriptFault::NotJson,
    ),
    ("[]", ScriptFault::BadShape(0)),
    (r#"{"nodes":1,"commands":[]}"#, ScriptFault::BadShape(0)),
    (
        r#"{"nodes":1,"words":1,"commands":[],"x":1}"#,
        ScriptFault::BadShape(0),
    ),
    (
        r#"{"nodes":1.0,"words":1,"commands":[]}"#,
        ScriptFault::BadShape(0),
    ),
    (
        r#"{"nodes":1,"words":1,"commands":{}}"#,
        ScriptFault::BadShape(0),
    ),
    (
        r#"{"nodes":0,"words":1,"commands":[]}"#,
        ScriptFault::BadShape(0),
    ),
    (
        r#"{"nodes":9,"words":36,"commands":[]}"#,
        ScriptFault::BadShape(0),
    ),
    (
        r#"{"nodes":2,"words":0,"commands":[]}"#,
        ScriptFault::BadShape(0),
    ),
    (
        r#"{"nodes":8,"words":27,"commands":[]}"#,
        ScriptFault::BadShape(0),
    ),
    (
        r#"{"nodes":1,"words":4097,"commands":[]}"#,
        ScriptFault::BadShape(0),
    ),
    (
        r#"{"commands":[["fly"]],"nodes":9,"words":1}"#,
        ScriptFault::BadShape(0),
    ),
];

// The first of these texts that isn't refused for this.
fn first_script(alloc: Global) -> Option<usize> {
    for (i, (text, why)) in NO_SCRIPTS.iter().enumerate() {
        if refusal_of(alloc, text.as_bytes()) != Some(*why) {
            return Some(i);
        }
    }
    None
}

#[test]
fn refuses_what_is_no_script(rt: HostRuntime) {
    gives(&rt, first_script(rt.alloc()), None);
    let most_words = refusal_of(rt.alloc(), br#"{"nodes":1,"words":4096,"commands":[]}"#);
    assert!(rt; most_words.is_none());
    let most_nodes = refusal_of(rt.alloc(), br#"{"nodes":8,"words":28,"commands":[]}"#);
    assert!(rt; most_nodes.is_none());
}

// Commands, and the first of them that is bad.
static COMMANDS: [(&'static str, Option<u32>); 38] = [
    (r#"[["fly"]]"#, Some(1)),
    (r#"[["settle",1],["fly"],["get"]]"#, Some(2)),
    (
        r#"[["open",0,"x","y"],["put","x",""],["get","y"],["settle",0]]"#,
        None,
    ),
    (r#"[["settle",1000000]]"#, None),
    (r#"[["settle",1000001]]"#, Some(1)),
    (r#"[["settle","5"]]"#, Some(1)),
    (r#"[["settle",-0]]"#, Some(1)),
    (r#"[["settle",1.0]]"#, Some(1)),
    (r#"[["settle",1e2]]"#, Some(1)),
    (r#"[["settle",-1]]"#, Some(1)),
    (r#"[["settle",18446744073709551616]]"#, Some(1)),
    (r#"[["get"]]"#, Some(1)),
    (r#"[["get","x",1]]"#, Some(1)),
    (r#"[["open",1,"x","y"]]"#, Some(1)),
    (r#"[["open",0,"x","x"]]"#, Some(1)),
    (r#"[["open",0,"0>1","y"]]"#, Some(1)),
    (r#"[["open",0,"x","y"],["open",0,"z","x"]]"#, Some(2)),
    (
        r#"[["open",0,"abcdefgh1","y"],["open",0,"abcdefgh2","z"]]"#,
        None,
    ),
    (r#"[["get","0>1"]]"#, None),
    (r#"[["get","abcdefghijklmnop"]]"#, None),
    (r#"[["get","abcdefghijklmnopq"]]"#, Some(1)),
    (r#"[["get",""]]"#, Some(1)),
    (r#"[["get","é"]]"#, Some(1)),
    (r#"[["put","x","a",["y","0>1"]]]"#, None),
    (r#"[["put","x","a",[]]]"#, None),
    (r#"[["put","x","a",["y","é"]]]"#, Some(1)),
    (r#"[["put","x","a","y"]]"#, Some(1)),
    (r#"[["put","x",1]]"#, Some(1)),
    (r#"[["turn",0,1],["turn",0,1000000]]"#, None),
    (r#"[["turn",0,1],["turn",0,1000001]]"#, Some(2)),
    (r#"[["turn",0,0]]"#, Some(1)),
    (r#"[["turn",1,1]]"#, Some(1)),
    (r#"[["turn",0]]"#, Some(1)),
    (r#"[["show"]]"#, None),
    (r#"[["show",0]]"#, Some(1)),
    (r#"[["close","x"]]"#, None),
    (r#"[["close"]]"#, Some(1)),
    (r#"["get"]"#, Some(1)),
];

// Whether the first bad command is named.
fn is_named(alloc: Global, commands: &str, bad: Option<u32>) -> Result<bool, AllocError> {
    let text = format!(in alloc; "{MEMBERS}{commands}}}")?;
    Ok(refusal_of(alloc, text.as_bytes()) == bad.map(ScriptFault::BadShape))
}

// The first of these lists of commands whose first bad one isn't named.
fn first_unnamed(alloc: Global) -> Result<Option<usize>, AllocError> {
    for (i, (commands, bad)) in COMMANDS.iter().enumerate() {
        if !is_named(alloc, *commands, *bad)? {
            return Ok(Some(i));
        }
    }
    Ok(None)
}

#[test]
fn names_the_first_bad_command(rt: HostRuntime) {
    assert_eq!(rt; first_unnamed(rt.alloc()), Ok(None));
}

// Why so many blanks are refused.
fn refusal_of_blanks(alloc: Global, count: usize) -> Result<Option<ScriptFault>, AllocError> {
    let bytes = vec![in alloc; b' '; count]?;
    Ok(refusal_of(alloc, &bytes))
}

// Why a script with blanks behind it, so many bytes in all, is refused.
fn refusal_of_padded(alloc: Global, count: usize) -> Result<Option<ScriptFault>, AllocError> {
    let mut padded = br#"{"nodes":1,"words":0,"commands":[]}"#.to_vec(alloc)?;
    padded.resize(count, b' ')?;
    Ok(refusal_of(alloc, &padded))
}

#[test]
fn tests_the_length_first(rt: HostRuntime) {
    let most = refusal_of_blanks(rt.alloc(), 1_048_576);
    assert!(rt; most == Ok(Some(ScriptFault::NotJson)));
    let one_more = refusal_of_blanks(rt.alloc(), 1_048_577);
    assert!(rt; one_more == Ok(Some(ScriptFault::TooLong)));
    assert!(rt; refusal_of_padded(rt.alloc(), 1_048_576) == Ok(None));
}
