//! Scripts and their transcripts, each the other's by docs/PROTOCOL.md.

use ipcz_script::Outcome;
use std::process::Abort;

/// What a script shows, the script, and its transcript; and whether that is the same, whatever the schedule, if its settles run on threads.
pub struct Case {
    pub shows: &'static str,
    pub script: &'static str,
    pub transcript: &'static str,
    pub unsettled: bool,
    pub on_threads: bool,
}

impl Case {
    /// How its run ends.
    pub fn outcome(&self) -> Outcome {
        if self.unsettled {
            Outcome::Unsettled
        } else {
            Outcome::Done
        }
    }
}

/// The cases. (Each function that names the list itself is dear to prove, since its texts stand in the proof.)
pub fn cases() -> &'static [Case] {
    &CASES
}

/// What a list gives has to be this. (A test that asserts this itself is several times as dear to prove.)
pub fn gives(rt: &impl Abort, got: Option<usize>, want: Option<usize>) {
    assert_eq!(rt; got, want);
}

static CASES: [Case; 28] = [
    Case {
        shows: "two parcels on one pair",
        script: r#"{"nodes":1,"words":1,"commands":[["open",0,"x","y"],["put","x","a"],["put","x","b"],["get","y"],["settle",100],["get","y"],["get","y"],["get","y"]]}"#,
        transcript: "open x y ok\nput x 0\nput x 1\nget y Empty\nsettled\nget y 0 [] \"a\"\nget y 1 [] \"b\"\nget y Empty\n",
        unsettled: false,
        on_threads: true,
    },
    Case {
        shows: "a portal moves with what waits in it",
        script: r#"{"nodes":2,"words":4,"commands":[["open",0,"x","y"],["put","x","a"],["put","x","b"],["put","x","c"],["put","x","d"],["settle",100],["get","y"],["put","0>1","m",["y"]],["settle",1000],["get","1>0"],["get","y"],["get","y"],["get","y"],["get","y"],["show"]]}"#,
        transcript: "open x y ok\nput x 0\nput x 1\nput x 2\nput x 3\nsettled\nget y 0 [] \"a\"\nput 0>1 0\nsettled\nget 1>0 0 [y] \"m\"\nget y 1 [] \"b\"\nget y 2 [] \"c\"\nget y 3 [] \"d\"\nget y Empty\nwords 3 547 3\n",
        unsettled: false,
        on_threads: false,
    },
    Case {
        shows: "a portal moves with what waits in it, without the words",
        script: r#"{"nodes":2,"words":4,"commands":[["open",0,"x","y"],["put","x","a"],["put","x","b"],["put","x","c"],["put","x","d"],["settle",100],["get","y"],["put","0>1","m",["y"]],["settle",1000],["get","1>0"],["get","y"],["get","y"],["get","y"],["get","y"]]}"#,
        transcript: "open x y ok\nput x 0\nput x 1\nput x 2\nput x 3\nsettled\nget y 0 [] \"a\"\nput 0>1 0\nsettled\nget 1>0 0 [y] \"m\"\nget y 1 [] \"b\"\nget y 2 [] \"c\"\nget y 3 [] \"d\"\nget y Empty\n",
        unsettled: false,
        on_threads: true,
    },
    Case {
        shows: "a settle of no acts",
        script: r#"{"nodes":2,"words":2,"commands":[["settle",0],["open",0,"x","y"],["settle",0],["put","x","a"],["settle",0],["get","y"]]}"#,
        transcript: "settled\nopen x y ok\nsettled\nput x 0\nunsettled\nget y Empty\n",
        unsettled: true,
        on_threads: true,
    },
    Case {
        shows: "a portal moves twice",
        script: r#"{"nodes":3,"words":8,"commands":[["open",0,"x","y"],["put","0>1","m",["y"]],["turn",0,2],["turn",1,2],["get","1>0"],["put","1>2","n",["y"]],["settle",1000],["get","2>1"],["put","x","hi"],["settle",1000],["get","y"],["show"]]}"#,
        transcript: "open x y ok\nput 0>1 0\nn0: r0 send out 0 C0 moves 3B\nn0: post 1\nn1: look 0\nn1: hand item 0 C0\nget 1>0 0 [y] \"m\"\nput 1>2 0\nsettled\nget 2>1 0 [y] \"n\"\nput x 0\nsettled\nget y 0 [] \"hi\"\nwords 3 3 3 547 803 3\n",
        unsettled: false,
        on_threads: false,
    },
    Case {
        shows: "a portal moves out and back",
        script: r#"{"nodes":2,"words":8,"commands":[["open",0,"x","y"],["put","0>1","m",["y"]],["turn",0,2],["turn",1,2],["get","1>0"],["put","1>0","b",["y"]],["settle",1000],["get","0>1"],["put","x","hi"],["settle",1000],["get","y"],["show"]]}"#,
        transcript: "open x y ok\nput 0>1 0\nn0: r0 send out 0 C0 moves 1B\nn0: post 1\nn1: look 0\nn1: hand item 0 C0\nget 1>0 0 [y] \"m\"\nput 1>0 0\nsettled\nget 0>1 0 [y] \"b\"\nput x 0\nsettled\nget y 0 [] \"hi\"\nwords 3 547 291 3\n",
        unsettled: false,
        on_threads: false,
    },
    Case {
        shows: "closing, and a portal in a parcel that is dropped",
        script: r#"{"nodes":1,"words":2,"commands":[["open",0,"x","y"],["open",0,"u","v"],["put","x","c",["v"]],["settle",100],["close","y"],["put","x","late"],["settle",100],["put","x","more"],["get","x"],["get","u"],["get","v"],["close","y"]]}"#,
        transcript: "open x y ok\nopen u v ok\nput x 0\nsettled\nclose y 0\nput x 1\nsettled\nput x PeerClosed\nget x PeerClosed\nget u PeerClosed\nget v Away\nclose y Away\n",
        unsettled: false,
        on_threads: true,
    },
    Case {
        shows: "refusals in their order",
        script: r#"{"nodes":2,"words":4,"commands":[["open",0,"x","y"],["put","x","",["x"]],["put","x","",["y"]],["put","x","",["1>0"]],["put","x","",["0>1","0>1"]],["put","0>1","",["1>0"]],["put","0>1","m",["y"]],["put","y",""],["put","x","",["y"]],["get","w"]]}"#,
        transcript: "open x y ok\nput x SelfAttach\nput x PeerAttach\nput x Stranger\nput x Stranger\nput 0>1 PeerAttach\nput 0>1 0\nput y Away\nput x PeerAttach\nget w UnknownName\n",
        unsettled: false,
        on_threads: true,
    },
    Case {
        shows: "the words are used up",
        script: r#"{"nodes":2,"words":2,"commands":[["open",0,"x","y"],["open",0,"u","v"],["get","u"],["put","0>1","m",["y"]],["settle",1000],["get","1>0"],["put","x","hi"],["settle",1000],["get","y"],["show"]]}"#,
        transcript: "open x y ok\nopen u v NoWord\nget u UnknownName\nput 0>1 0\nsettled\nget 1>0 0 [y] \"m\"\nput x 0\nsettled\nget y 0 [] \"hi\"\nwords 3 3\n",
        unsettled: false,
        on_threads: false,
    },
    Case {
        shows: "two parcels that carry each other's targets",
        script: r#"{"nodes":2,"words":8,"commands":[["open",0,"q","r"],["put","0>1","m",["q"]],["settle",1000],["get","1>0"],["put","0>1","1",["r"]],["put","q","2",["1>0"]],["settle",5]]}"#,
        transcript: "open q r ok\nput 0>1 0\nsettled\nget 1>0 0 [q] \"m\"\nput 0>1 1\nput q 0\nunsettled\n",
        unsettled: true,
        on_threads: false,
    },
    Case {
        shows: "a portal moves on while its edge decays",
        script: r#"{"nodes":2,"words":4,"commands":[["open",0,"x","y"],["put","0>1","m",["y"]],["turn",0,20],["turn",1,20],["turn",0,20],["turn",1,20],["get","1>0"],["put","1>0","b",["y"]],["turn",1,20],["settle",1000],["get","0>1"],["put","x","hi"],["settle",1000],["get","y"],["show"]]}"#,
        transcript: "open x y ok\nput 0>1 0\nn0: r0 send out 0 C0 moves 1B\nn0: post 1\nn0: r0 rest\nn0: r2 claim 2\nn0: r2 lock C1 547\nn0: r2 begin C1\nn0: r2 rest\nn0: idle\nn1: look 0\nn1: hand item 0 C0\nn1: r0 rest\nn1: idle\nn0: post 1\nn0: idle\nn1: look 0\nn1: hand BypassPeer P0.0\nn1: post 0\nn1: r1 rest\nn1: idle\nget 1>0 0 [y] \"m\"\nput 1>0 0\nn1: r0 send out 0 C0 moves 1B\nn1: r0 rest\nn1: r1 rest\nn1: idle\nsettled\nget 0>1 0 [y] \"b\"\nput x 0\nsettled\nget y 0 [] \"hi\"\nwords 3 547 291 3\n",
        unsettled: false,
        on_threads: false,
    },
    Case {
        shows: "a bypass, act by act",
        script: r#"{"nodes":2,"words":4,"commands":[["open",0,"x","y"],["put","0>1","m",["y"]],["turn",0,20],["show"],["turn",1,20],["turn",0,20],["turn",1,20],["turn",0,20],["show"],["turn",1,20],["show"],["get","1>0"],["put","y","r"],["settle",100],["get","x"]]}"#,
        transcript: "open x y ok\nput 0>1 0\nn0: r0 send out 0 C0 moves 1B\nn0: post 1\nn0: r0 rest\nn0: r2 claim 2\nn0: r2 lock C1 547\nn0: r2 begin C1\nn0: r2 rest\nn0: idle\nwords 3 547 0\nn1: look 0\nn1: hand item 0 C0\nn1: r0 rest\nn1: idle\nn0: post 1\nn0: idle\nn1: look 0\nn1: hand BypassPeer P0.0\nn1: post 0\nn1: r1 rest\nn1: idle\nn0: look 1\nn0: hand AcceptBypass C1\nn0: post 0\nn0: look 0\nn0: hand StopProxying C1\nn0: post 1\nn0: r1 finish out C1\nn0: r1 mark C2 1\nn0: r1 rest\nn0: r2 finish out C1\nn0: r2 finish in P0.0\nn0: r2 leave\nn0: idle\nwords 3 547 1\nn1: look 0\nn1: hand ProxyWillStop P0.0\nn1: r1 finish out P0.0\nn1: r1 mark C2 3\nn1: r1 rest\nn1: idle\nwords 3 547 3\nget 1>0 0 [y] \"m\"\nput y 0\nsettled\nget x 0 [] \"r\"\n",
        unsettled: false,
        on_threads: true,
    },
    Case {
        shows: "a gap between two links",
        script: r#"{"nodes":3,"words":8,"commands":[["put","1>2","c",["1>0"]],["turn",1,20],["turn",2,20],["put","0>1","p"],["turn",0,20],["turn",1,20],["turn",2,20],["turn",0,20],["put","0>1","q"],["turn",0,20],["turn",2,20],["get","2>1"],["get","1>0"],["settle",1000],["get","1>0"],["get","1>0"],["show"]]}"#,
        transcript: "put 1>2 0\nn1: r1 send out 0 C2 moves 0B\nn1: post 2\nn1: r0 claim 3\nn1: r0 lock C0 803\nn1: r0 begin C0\nn1: r0 rest\nn1: r1 rest\nn1: idle\nn2: look 1\nn2: hand item 0 C2\nn2: r1 rest\nn2: idle\nput 0>1 0\nn0: r0 send out 0 C0\nn0: post 1\nn0: r0 rest\nn0: idle\nn1: look 0\nn1: hand item 0 C0\nn1: post 2\nn1: r0 send in 0 P1.0\nn1: r0 rest\nn1: idle\nn2: look 1\nn2: hand BypassPeer P1.0\nn2: post 0\nn2: r2 rest\nn2: idle\nn0: look 2\nn0: hand AcceptBypass C0\nn0: post 1\nn0: r0 finish out C0\nn0: r0 mark C3 1\nn0: r0 rest\nn0: idle\nput 0>1 1\nn0: r0 send out 1 C3\nn0: post 2\nn0: r0 rest\nn0: idle\nn2: look 0\nn2: hand item 1 C3\nn2: r2 rest\nn2: idle\nget 2>1 0 [1>0] \"c\"\nget 1>0 Empty\nsettled\nget 1>0 0 [] \"p\"\nget 1>0 1 [] \"q\"\nwords 803 3 3 3\n",
        unsettled: false,
        on_threads: false,
    },
    Case {
        shows: "two proxies, one lock, and a side that waits",
        script: r#"{"nodes":2,"words":8,"commands":[["open",0,"x","y"],["put","0>1","m",["x","y"]],["turn",0,20],["turn",1,20],["turn",0,20],["turn",1,20],["turn",0,20],["turn",1,20],["turn",0,20],["settle",1000],["show"]]}"#,
        transcript: "open x y ok\nput 0>1 0\nn0: r0 send out 0 C0 moves 1A,1B\nn0: post 1\nn0: r0 rest\nn0: r1 claim 2\nn0: r1 lock C1 531\nn0: r1 begin C1\nn0: r1 rest\nn0: r2 claim 3\nn0: r2 refused C1 531\nn0: r2 rest\nn0: idle\nn1: look 0\nn1: hand item 0 C0\nn1: r0 rest\nn1: idle\nn0: post 1\nn0: idle\nn1: look 0\nn1: hand BypassPeer P0.0\nn1: post 0\nn1: r1 rest\nn1: idle\nn0: look 1\nn0: hand AcceptBypass C1\nn0: post 0\nn0: look 0\nn0: hand StopProxying C1\nn0: post 1\nn0: r1 finish out C1\nn0: r1 finish in P0.0\nn0: r1 leave\nn0: r2 finish out C1\nn0: r2 mark C2 2\nn0: r2 wait C2 10\nn0: r2 rest\nn0: idle\nn1: look 0\nn1: hand ProxyWillStop P0.0\nn1: r1 finish out P0.0\nn1: r1 mark C2 11\nn1: r1 wake C2 3\nn1: post 0\nn1: r1 rest\nn1: idle\nn0: look 1\nn0: hand Flush C2\nn0: r2 lock C2 547\nn0: r2 begin C2\nn0: post 1\nn0: r2 rest\nn0: idle\nsettled\nwords 3 531 547 3\n",
        unsettled: false,
        on_threads: false,
    },
    Case {
        shows: "data and lists of the wrong length",
        script: r#"{"nodes":1,"words":1,"commands":[["open",0,"x","y"],["put","x",""],["put","x","aaaaaaaaaaaaaaaaaaaaaaaaaaaaaaaaaaaaaaaaaaaaaaaaaaaaaaaaaaaaaaaaaaaaaaaaaaaaaaaaaaaaaaaaaaaaaaaaaaaaaaaaaaaaaaaaaaaaaaaaaaaaaaaaaaaaaaaaaaaaaaaaaaaaaaaaaaaaaaaaaaaaaaaaaaaaaaaaaaaaaaaaaaaaaaaaaaaaaaaaaaaaaaaaaaaaaaaaaaaaaaaaaaaaaaaaaaaaaaaaaaaaaaaaaaaaaaaa"],["put","x","aaaaaaaaaaaaaaaaaaaaaaaaaaaaaaaaaaaaaaaaaaaaaaaaaaaaaaaaaaaaaaaaaaaaaaaaaaaaaaaaaaaaaaaaaaaaaaaaaaaaaaaaaaaaaaaaaaaaaaaaaaaaaaaaaaaaaaaaaaaaaaaaaaaaaaaaaaaaaaaaaaaaaaaaaaaaaaaaaaaaaaaaaaaaaaaaaaaaaaaaaaaaaaaaaaaaaaaaaaaaaaaaaaaaaaaaaaaaaaaaaaaaaaaaaaaaaaaaa"],["put","x","\t"],["put","x","",["y","y","y","y","y","y","y","y","y"]],["settle",100],["get","y"],["get","y"],["get","y"]]}"#,
        transcript: "open x y ok\nput x 0\nput x 1\nput x TooMany\nput x BadData\nput x TooMany\nsettled\nget y 0 [] \"\"\nget y 1 [] \"aaaaaaaaaaaaaaaaaaaaaaaaaaaaaaaaaaaaaaaaaaaaaaaaaaaaaaaaaaaaaaaaaaaaaaaaaaaaaaaaaaaaaaaaaaaaaaaaaaaaaaaaaaaaaaaaaaaaaaaaaaaaaaaaaaaaaaaaaaaaaaaaaaaaaaaaaaaaaaaaaaaaaaaaaaaaaaaaaaaaaaaaaaaaaaaaaaaaaaaaaaaaaaaaaaaaaaaaaaaaaaaaaaaaaaaaaaaaaaaaaaaaaaaaaaaaaaaa\"\nget y Empty\n",
        unsettled: false,
        on_threads: true,
    },
    Case {
        shows: "no command",
        script: r#"{"nodes":1,"words":0,"commands":[]}"#,
        transcript: "",
        unsettled: false,
        on_threads: true,
    },
    Case {
        shows: "no word",
        script: r#"{"nodes":1,"words":0,"commands":[["show"],["settle",0],["open",0,"x","y"]]}"#,
        transcript: "words\nsettled\nopen x y NoWord\n",
        unsettled: false,
        on_threads: true,
    },
    Case {
        shows: "portals in parcels of one node",
        script: r#"{"nodes":1,"words":2,"commands":[["open",0,"x","y"],["open",0,"u","v"],["put","x","c",["v"]],["put","v","1"],["put","v","1",["zz"]],["put","x","1",["v"]],["put","u","k"],["settle",100],["put","v","1"],["get","y"],["get","v"],["put","x","",["u","v"]],["settle",100],["get","y"]]}"#,
        transcript: "open x y ok\nopen u v ok\nput x 0\nput v Away\nput v UnknownName\nput x Stranger\nput u 0\nsettled\nput v Away\nget y 0 [v] \"c\"\nget v 0 [] \"k\"\nput x 1\nsettled\nget y 1 [u,v] \"\"\n",
        unsettled: false,
        on_threads: true,
    },
    Case {
        shows: "turns end at the first idle one",
        script: r#"{"nodes":2,"words":8,"commands":[["turn",1,5],["put","0>1","a"],["turn",0,1],["turn",0,1],["turn",0,5]]}"#,
        transcript: "n1: idle\nput 0>1 0\nn0: r0 send out 0 C0\nn0: post 1\nn0: r0 rest\nn0: idle\n",
        unsettled: false,
        on_threads: true,
    },
    Case {
        shows: "a settle that is one act short",
        script: r#"{"nodes":1,"words":1,"commands":[["open",0,"x","y"],["put","x","a"],["put","x","b"],["get","y"],["settle",9],["get","y"],["get","y"],["get","y"]]}"#,
        transcript: "open x y ok\nput x 0\nput x 1\nget y Empty\nunsettled\nget y 0 [] \"a\"\nget y 1 [] \"b\"\nget y Empty\n",
        unsettled: true,
        on_threads: false,
    },
    Case {
        shows: "a sink drops a parcel, and closes the portals in it",
        script: r#"{"nodes":1,"words":3,"commands":[["open",0,"x","y"],["open",0,"u","v"],["open",0,"p","q"],["put","x","c",["v","p"]],["close","y"],["turn",0,40],["put","q","z"],["settle",100],["get","u"],["get","q"],["get","v"]]}"#,
        transcript: "open x y ok\nopen u v ok\nopen p q ok\nput x 0\nclose y 0\nn0: r0 send out 0 C0\nn0: post 0\nn0: look 0\nn0: hand item 0 C0\nn0: r0 rest\nn0: r1 send out 0 C0\nn0: post 0\nn0: look 0\nn0: hand item 0 C0\nn0: r0 rest\nn0: r1 discard 0\nn0: close 1B\nn0: close 2A\nn0: r1 rest\nn0: r3 send out 0 C1\nn0: post 0\nn0: look 0\nn0: hand item 0 C1\nn0: r2 rest\nn0: r3 rest\nn0: r4 send out 0 C2\nn0: post 0\nn0: look 0\nn0: hand item 0 C2\nn0: r4 rest\nn0: r5 rest\nn0: idle\nput q PeerClosed\nsettled\nget u PeerClosed\nget q PeerClosed\nget v Away\n",
        unsettled: false,
        on_threads: true,
    },
    Case {
        shows: "proxies that found no word pass everything on",
        script: r#"{"nodes":2,"words":3,"commands":[["open",0,"x","y"],["open",0,"u","v"],["put","0>1","m",["y"]],["turn",0,20],["turn",1,20],["put","x","c",["v"]],["turn",0,20],["turn",1,20],["get","1>0"],["get","y"],["put","u","k"],["turn",0,20],["turn",1,20],["get","v"],["put","v","w"],["turn",1,20],["turn",0,20],["get","u"],["show"]]}"#,
        transcript: "open x y ok\nopen u v ok\nput 0>1 0\nn0: r0 send out 0 C0 moves 1B\nn0: post 1\nn0: r0 rest\nn0: r2 claim NoWord\nn0: r2 rest\nn0: idle\nn1: look 0\nn1: hand item 0 C0\nn1: r0 rest\nn1: idle\nput x 0\nn0: r1 send out 0 C1\nn0: post 0\nn0: look 0\nn0: hand item 0 C1\nn0: r1 rest\nn0: r2 send in 0 P0.0 moves 2B\nn0: post 1\nn0: r2 rest\nn0: r4 claim NoWord\nn0: r4 rest\nn0: idle\nn1: look 0\nn1: hand item 0 P0.0\nn1: r1 rest\nn1: idle\nget 1>0 0 [y] \"m\"\nget y 0 [v] \"c\"\nput u 0\nn0: r3 send out 0 C2\nn0: post 0\nn0: look 0\nn0: hand item 0 C2\nn0: r3 rest\nn0: r4 send in 0 P0.1\nn0: post 1\nn0: r4 rest\nn0: idle\nn1: look 0\nn1: hand item 0 P0.1\nn1: r2 rest\nn1: idle\nget v 0 [] \"k\"\nput v 0\nn1: r2 send out 0 P0.1\nn1: post 0\nn1: r2 rest\nn1: idle\nn0: look 1\nn0: hand item 0 P0.1\nn0: r4 send out 0 C2\nn0: post 0\nn0: look 0\nn0: hand item 0 C2\nn0: r3 rest\nn0: r4 rest\nn0: idle\nget u 0 [] \"w\"\nwords 3 3 3\n",
        unsettled: false,
        on_threads: false,
    },
    Case {
        shows: "a wake finds its router gone from the link",
        script: r#"{"nodes":3,"words":8,"commands":[["open",0,"x","y"],["put","0>2","m",["x","y"]],["turn",0,20],["turn",2,20],["turn",0,20],["get","2>0"],["turn",2,20],["put","2>1","n",["x"]],["turn",2,20],["turn",1,20],["turn",0,20],["put","2>0","z"],["turn",2,20],["turn",1,20],["turn",0,20],["turn",2,20],["turn",0,20],["settle",1000],["get","1>2"],["put","x","hi"],["settle",1000],["get","y"],["get","0>2"],["show"]]}"#,
        transcript: "open x y ok\nput 0>2 0\nn0: r1 send out 0 C1 moves 3A,3B\nn0: post 2\nn0: r1 rest\nn0: r2 claim 4\nn0: r2 lock C3 787\nn0: r2 begin C3\nn0: r2 rest\nn0: r3 claim 5\nn0: r3 refused C3 787\nn0: r3 rest\nn0: idle\nn2: look 0\nn2: hand item 0 C1\nn2: r0 rest\nn2: idle\nn0: post 2\nn0: idle\nget 2>0 0 [x,y] \"m\"\nn2: look 0\nn2: hand BypassPeer P0.0\nn2: post 0\nn2: r2 rest\nn2: idle\nput 2>1 0\nn2: r1 send out 0 C2 moves 3A\nn2: post 1\nn2: r1 rest\nn2: r2 rest\nn2: idle\nn1: look 2\nn1: hand item 0 C2\nn1: r1 rest\nn1: idle\nn0: look 2\nn0: hand AcceptBypass C3\nn0: post 0\nn0: look 0\nn0: hand StopProxying C3\nn0: post 2\nn0: r2 finish out C3\nn0: r2 finish in P0.0\nn0: r2 leave\nn0: r3 finish out C3\nn0: r3 mark C4 2\nn0: r3 wait C4 10\nn0: r3 rest\nn0: idle\nput 2>0 0\nn2: look 0\nn2: hand ProxyWillStop P0.0\nn2: r0 send out 0 C1\nn2: post 0\nn2: r0 rest\nn2: r2 finish out P0.0\nn2: r2 mark C4 11\nn2: r2 wake C4 3\nn2: r2 claim 6\nn2: r2 lock C4 531\nn2: r2 begin C4\nn2: post 1\nn2: r2 rest\nn2: idle\nn1: look 2\nn1: hand BypassPeer P2.0\nn1: post 0\nn1: r2 rest\nn1: idle\nn0: look 1\nn0: hand AcceptBypass C4\nn0: look 2\nn0: hand item 0 C1\nn0: post 2\nn0: r1 rest\nn0: r3 finish out C4\nn0: r3 mark C6 2\nn0: r3 wait C6 10\nn0: r3 rest\nn0: idle\nn2: look 0\nn2: hand StopProxying C4\nn2: post 0\nn2: post 1\nn2: r2 finish out C4\nn2: r2 finish in P2.0\nn2: r2 leave\nn2: idle\nn0: look 2\nn0: hand Flush C4 dropped\nn0: idle\nsettled\nget 1>2 0 [x] \"n\"\nput x 0\nsettled\nget y 0 [] \"hi\"\nget 0>2 0 [] \"z\"\nwords 3 3 3 787 531 3 803\n",
        unsettled: false,
        on_threads: false,
    },
    Case {
        shows: "a portal is closed after a move",
        script: r#"{"nodes":2,"words":4,"commands":[["open",0,"x","y"],["put","y","a"],["settle",100],["put","0>1","m",["y"]],["settle",1000],["get","1>0"],["close","y"],["get","x"],["settle",100],["get","x"],["put","x","b"],["close","x"],["settle",100],["get","x"],["close","y"],["show"]]}"#,
        transcript: "open x y ok\nput y 0\nsettled\nput 0>1 0\nsettled\nget 1>0 0 [y] \"m\"\nclose y 1\nget x 0 [] \"a\"\nsettled\nget x PeerClosed\nput x PeerClosed\nclose x 0\nsettled\nget x Away\nclose y Away\nwords 3 547 19\n",
        unsettled: false,
        on_threads: false,
    },
    Case {
        shows: "a moved portal takes puts until the mark has come to it again",
        script: r#"{"nodes":2,"words":4,"commands":[["open",0,"x","y"],["close","x"],["put","y","a"],["settle",100],["put","y","b"],["get","y"],["put","0>1","m",["y"]],["turn",0,2],["turn",1,2],["get","1>0"],["get","y"],["put","y","c"],["settle",1000],["put","y","d"],["get","y"],["show"]]}"#,
        transcript: "open x y ok\nclose x 0\nput y 0\nsettled\nput y PeerClosed\nget y PeerClosed\nput 0>1 0\nn0: r0 send out 0 C0 moves 1B\nn0: post 1\nn1: look 0\nn1: hand item 0 C0\nget 1>0 0 [y] \"m\"\nget y Empty\nput y 1\nsettled\nput y PeerClosed\nget y PeerClosed\nwords 3 547 3\n",
        unsettled: false,
        on_threads: false,
    },
    Case {
        shows: "a closed pair leaves its node",
        script: r#"{"nodes":1,"words":1,"commands":[["open",0,"x","y"],["close","x"],["close","y"],["turn",0,30],["show"]]}"#,
        transcript: "open x y ok\nclose x 0\nclose y 0\nn0: r0 send out 0 C0\nn0: post 0\nn0: look 0\nn0: hand item 0 C0\nn0: r0 rest\nn0: r1 send out 0 C0\nn0: post 0\nn0: look 0\nn0: hand item 0 C0\nn0: r0 discard 0\nn0: r0 lock C0 19\nn0: r0 retire 1 C0\nn0: post 0\nn0: look 0\nn0: hand item 1 C0\nn0: r1 discard 0\nn0: r1 discard 1 leave\nn0: idle\nwords 19\n",
        unsettled: false,
        on_threads: true,
    },
    Case {
        shows: "a proxy without a word leaves behind Gone",
        script: r#"{"nodes":2,"words":2,"commands":[["open",0,"x","y"],["put","0>1","m",["y"]],["settle",1000],["get","1>0"],["close","x"],["close","y"],["settle",1000],["show"]]}"#,
        transcript: "open x y ok\nput 0>1 0\nsettled\nget 1>0 0 [y] \"m\"\nclose x 0\nclose y 0\nsettled\nwords 3 19\n",
        unsettled: false,
        on_threads: true,
    },
    Case {
        shows: "a closed pair leaves two nodes after a bypass",
        script: r#"{"nodes":2,"words":8,"commands":[["open",0,"x","y"],["put","0>1","m",["y"]],["settle",1000],["get","1>0"],["close","x"],["close","y"],["turn",0,30],["turn",1,30],["turn",0,30],["turn",1,30],["turn",0,30],["show"]]}"#,
        transcript: "open x y ok\nput 0>1 0\nsettled\nget 1>0 0 [y] \"m\"\nclose x 0\nclose y 0\nn0: r1 send out 0 C2\nn0: post 1\nn0: r1 rest\nn0: idle\nn1: look 0\nn1: hand item 0 C2\nn1: r1 send out 0 C2\nn1: post 0\nn1: r1 discard 0\nn1: r1 lock C2 35\nn1: r1 retire 1 C2\nn1: idle\nn0: look 1\nn0: hand item 0 C2\nn0: r1 discard 0\nn0: r1 refused C2 35\nn0: r1 rest\nn0: idle\nn1: post 0\nn1: idle\nn0: look 1\nn0: hand item 1 C2\nn0: r1 discard 1 leave\nn0: idle\nwords 3 547 35\n",
        unsettled: false,
        on_threads: true,
    },
];
