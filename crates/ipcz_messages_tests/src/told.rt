//! What a transcript tells, and the transcripts of a run with one bypass, of one with two proxies, and of one that closes both ends.

use ipcz_lines::{ReadLine, read};
use ipcz_messages::messages::{Message, messages};
use ipcz_messages::routers::{Router, routers};
use std::alloc::Global;
use std::process::Abort;

pub const ONE_BYPASS: &[u8] = b"open x y ok
put 0>1 0
n0: r0 send out 0 C0 moves 1B
n0: post 1
n0: r0 rest
n0: r2 claim 2
n0: r2 lock C1 35
n0: r2 begin C1
n0: r2 rest
n0: idle
words 3 35 0
n1: look 0
n1: hand item 0 C0
n1: r0 rest
n1: idle
n0: post 1
n0: idle
n1: look 0
n1: hand BypassPeer P0.0
n1: post 0
n1: r1 rest
n1: idle
n0: look 1
n0: hand AcceptBypass C1
n0: post 0
n0: look 0
n0: hand StopProxying C1
n0: post 1
n0: r1 finish out C1
n0: r1 mark C2 1
n0: r1 rest
n0: r2 finish out C1
n0: r2 finish in P0.0
n0: r2 leave
n0: idle
words 3 35 1
n1: look 0
n1: hand ProxyWillStop P0.0
n1: r1 finish out P0.0
n1: r1 mark C2 3
n1: r1 rest
n1: idle
words 3 35 3
get 1>0 0 [y] \"m\"
put y 0
settled
get x 0 [] \"r\"
";

pub const TWO_PROXIES: &[u8] = b"open x y ok
put 0>1 0
n0: r0 send out 0 C0 moves 1A,1B
n0: post 1
n0: r0 rest
n0: r1 claim 2
n0: r1 lock C1 19
n0: r1 begin C1
n0: r1 rest
n0: r2 claim 3
n0: r2 refused C1 19
n0: r2 rest
n0: idle
n1: look 0
n1: hand item 0 C0
n1: r0 rest
n1: idle
n0: post 1
n0: idle
n1: look 0
n1: hand BypassPeer P0.0
n1: post 0
n1: r1 rest
n1: idle
n0: look 1
n0: hand AcceptBypass C1
n0: post 0
n0: look 0
n0: hand StopProxying C1
n0: post 1
n0: r1 finish out C1
n0: r1 finish in P0.0
n0: r1 leave
n0: r2 finish out C1
n0: r2 mark C2 2
n0: r2 wait C2 10
n0: r2 rest
n0: idle
n1: look 0
n1: hand ProxyWillStop P0.0
n1: r1 finish out P0.0
n1: r1 mark C2 11
n1: r1 wake C2 3
n1: post 0
n1: r1 rest
n1: idle
n0: look 1
n0: hand Flush C2
n0: r2 lock C2 35
n0: r2 begin C2
n0: post 1
n0: r2 rest
n0: idle
settled
words 3 19 35 3
";

pub const BOTH_CLOSED: &[u8] = b"open x y ok
close x 0
close y 0
n0: r0 send out 0 C0
n0: post 0
n0: look 0
n0: hand item 0 C0
n0: r0 rest
n0: r1 send out 0 C0
n0: post 0
n0: look 0
n0: hand item 0 C0
n0: r0 discard 0
n0: r0 lock C0 19
n0: r0 retire 1 C0
n0: post 0
n0: look 0
n0: hand item 1 C0
n0: r1 discard 0
n0: r1 discard 1 leave
n0: idle
words 19
";

/// The lines of a transcript, and what they tell of routers and messages.
#[derive(Drop)]
pub struct Told<'a> {
    pub lines: Vec<ReadLine<'a>>,
    pub routers: Vec<Router>,
    pub messages: Vec<Message<'a>>,
}

/// What a transcript tells, if it is read.
pub fn told_by<'a>(alloc: Global, transcript: &'a [u8]) -> Option<Told<'a>> {
    let lines = read(alloc, transcript).ok()?;
    let routers = routers(alloc, &lines).ok()?;
    let messages = messages(alloc, &lines, &routers).ok()?;
    Some(Told {
        lines,
        routers,
        messages,
    })
}

/// A router by its node and its serial.
pub fn name_of(routers: &[Router], index: Option<usize>) -> Option<(u8, u64)> {
    let router = routers.get(index?)?;
    Some((router.node, router.serial))
}

/// What a list of rows gives has to be this. (A test that asserts this itself is several times as dear to prove.)
pub fn gives(rt: &impl Abort, got: Option<usize>, want: Option<usize>) {
    assert_eq!(rt; got, want);
}
