//! The script of one bypass, in its parts, and its transcript (docs/PROTOCOL.md, "Bypass").

use std::alloc::{AllocError, Global};

const HEAD: &str = r#"{"nodes":2,"words":4,"commands":["#;

/// Its commands.
pub static COMMANDS: [&str; 15] = [
    r#"["open",0,"x","y"]"#,
    r#"["put","0>1","m",["y"]]"#,
    r#"["turn",0,20]"#,
    r#"["show"]"#,
    r#"["turn",1,20]"#,
    r#"["turn",0,20]"#,
    r#"["turn",1,20]"#,
    r#"["turn",0,20]"#,
    r#"["show"]"#,
    r#"["turn",1,20]"#,
    r#"["show"]"#,
    r#"["get","1>0"]"#,
    r#"["put","y","r"]"#,
    r#"["settle",100]"#,
    r#"["get","x"]"#,
];

const TAIL: &str = "]}";

/// Its bytes; if a command is named, its list is an empty one.
pub fn script(alloc: Global, emptied: Option<usize>) -> Result<Vec<u8>, AllocError> {
    let mut bytes = Vec::new(alloc);
    bytes.extend_from_slice(HEAD.as_bytes())?;
    for (i, command) in COMMANDS.iter().enumerate() {
        if i > 0 {
            bytes.push(b',')?;
        }
        if Some(i) == emptied {
            bytes.extend_from_slice(b"[]")?;
        } else {
            bytes.extend_from_slice(command.as_bytes())?;
        }
    }
    bytes.extend_from_slice(TAIL.as_bytes())?;
    Ok(bytes)
}

/// Its transcript.
pub const TRANSCRIPT: &str = "open x y ok
put 0>1 0
n0: r0 send out 0 C0 moves 1B
n0: post 1
n0: r0 rest
n0: r2 claim 2
n0: r2 lock C1 547
n0: r2 begin C1
n0: r2 rest
n0: idle
words 3 547 0
n1: look 0
n1: hand item 0 C0
n1: r0 rest
n1: idle
n0: post 1
n0: idle
n1: look 0
n1: hand BypassPeer P0.0
n1: post 0
n1: r1 rest
n1: idle
n0: look 1
n0: hand AcceptBypass C1
n0: post 0
n0: look 0
n0: hand StopProxying C1
n0: post 1
n0: r1 finish out C1
n0: r1 mark C2 1
n0: r1 rest
n0: r2 finish out C1
n0: r2 finish in P0.0
n0: r2 leave
n0: idle
words 3 547 1
n1: look 0
n1: hand ProxyWillStop P0.0
n1: r1 finish out P0.0
n1: r1 mark C2 3
n1: r1 rest
n1: idle
words 3 547 3
get 1>0 0 [y] \"m\"
put y 0
settled
get x 0 [] \"r\"
";
