//! Runs whose order of acts a seed draws, or that ask for acts: what is written, and the status.

use ipcz_device::Device;
use ipcz_events::program::{Asked, run_program};
use ipcz_events::{Verdict, judge_log};
use std::alloc::{AllocError, Global};

// A script that is run by a seed, the status, and what is written, as `tools/judge_events.py` runs it.
struct Run {
    script: &'static str,
    seed: u64,
    status: u8,
    text: &'static str,
}

static RUNS: [Run; 10] = [
    // each command, by a seed
    Run {
        script: "{\"nodes\":2,\"words\":4,\"commands\":[[\"open\",0,\"x\",\"y\"],[\"put\",\"0>1\",\"m\",[\"y\"]],[\"turn\",0,3],[\"settle\",100],[\"show\"],[\"get\",\"1>0\"],[\"close\",\"x\"]]}",
        seed: 5,
        status: 0,
        text: "{\"nodes\":2,\"seed\":5,\"words\":4}\n{\"answer\":\"open x y ok\",\"call\":[\"open\",0,\"x\",\"y\"]}\n{\"answer\":\"put 0>1 0\",\"call\":[\"put\",\"0>1\",\"m\",[\"y\"]]}\n{\"event\":\"r0 send out 0 C0 moves 1B\",\"node\":0}\n{\"event\":\"r2 claim 2\",\"node\":0}\n{\"event\":\"post 1\",\"node\":0}\n{\"event\":\"look 0\",\"node\":1}\n{\"event\":\"hand item 0 C0\",\"node\":1}\n{\"event\":\"r2 lock C1 547\",\"node\":0}\n{\"event\":\"r2 unlock C1 3\",\"node\":0}\n{\"event\":\"r1 rest\",\"node\":1}\n{\"event\":\"r2 lock C1 547\",\"node\":0}\n{\"event\":\"r1 rest\",\"node\":1}\n{\"event\":\"r0 rest\",\"node\":1}\n{\"event\":\"r2 unlock C1 3\",\"node\":0}\n{\"event\":\"r2 lock C1 547\",\"node\":0}\n{\"event\":\"r2 unlock C1 3\",\"node\":0}\n{\"event\":\"r2 lock C1 547\",\"node\":0}\n{\"event\":\"r2 unlock C1 3\",\"node\":0}\n{\"event\":\"r2 lock C1 547\",\"node\":0}\n{\"event\":\"r2 begin C1\",\"node\":0}\n{\"event\":\"post 1\",\"node\":0}\n{\"event\":\"look 0\",\"node\":1}\n{\"event\":\"r2 rest\",\"node\":0}\n{\"event\":\"hand BypassPeer P0.0\",\"node\":1}\n{\"event\":\"post 0\",\"node\":1}\n{\"event\":\"r0 rest\",\"node\":1}\n{\"event\":\"r1 rest\",\"node\":1}\n{\"event\":\"look 1\",\"node\":0}\n{\"event\":\"hand AcceptBypass C1\",\"node\":0}\n{\"event\":\"r1 finish out C1\",\"node\":0}\n{\"event\":\"post 0\",\"node\":0}\n{\"event\":\"r1 mark C2 1\",\"node\":0}\n{\"event\":\"look 0\",\"node\":0}\n{\"event\":\"hand StopProxying C1\",\"node\":0}\n{\"event\":\"r2 finish in P0.0\",\"node\":0}\n{\"event\":\"post 1\",\"node\":0}\n{\"event\":\"r2 finish out C1\",\"node\":0}\n{\"event\":\"r2 leave\",\"node\":0}\n{\"event\":\"r0 rest\",\"node\":0}\n{\"event\":\"r1 rest\",\"node\":0}\n{\"event\":\"look 0\",\"node\":1}\n{\"event\":\"hand ProxyWillStop P0.0\",\"node\":1}\n{\"event\":\"r1 finish out P0.0\",\"node\":1}\n{\"event\":\"r1 mark C2 3\",\"node\":1}\n{\"event\":\"r0 rest\",\"node\":1}\n{\"event\":\"r1 rest\",\"node\":1}\n{\"answer\":\"words 3 547 3\",\"call\":[\"show\"]}\n{\"answer\":\"get 1>0 0 [y] \\\"m\\\"\",\"call\":[\"get\",\"1>0\"]}\n{\"answer\":\"close x 0\",\"call\":[\"close\",\"x\"]}\n",
    },
    // a settle at its limit, by the last seed
    Run {
        script: "{\"nodes\":2,\"words\":4,\"commands\":[[\"put\",\"0>1\",\"m\"],[\"settle\",3],[\"get\",\"1>0\"]]}",
        seed: 18446744073709551615,
        status: 0,
        text: "{\"nodes\":2,\"seed\":18446744073709551615,\"words\":4}\n{\"answer\":\"put 0>1 0\",\"call\":[\"put\",\"0>1\",\"m\",[]]}\n{\"event\":\"r0 send out 0 C0\",\"node\":0}\n{\"event\":\"post 1\",\"node\":0}\n{\"event\":\"r0 rest\",\"node\":0}\n{\"answer\":\"get 1>0 Empty\",\"call\":[\"get\",\"1>0\"]}\n",
    },
    // acts that are asked for, each the one that is possible, the second by a whole event; and calls that are refused
    Run {
        script: "{\"nodes\":2,\"words\":4,\"commands\":[[\"put\",\"0>1\",\"a\\\"b\\\\\"],[\"put\",\"z\",\"\\u00e9\"],[\"act\",0,\"r0 send out\"],[\"act\",0,\"post 1\"],[\"act\",1,\"look 0\"],[\"act\",1,\"hand item 9 C7\"],[\"get\",\"1>0\"]]}",
        seed: 1,
        status: 0,
        text: "{\"nodes\":2,\"seed\":1,\"words\":4}\n{\"answer\":\"put 0>1 0\",\"call\":[\"put\",\"0>1\",\"a\\\"b\\\\\",[]]}\n{\"answer\":\"put z UnknownName\",\"call\":[\"put\",\"z\",\"é\",[]]}\n{\"event\":\"r0 send out 0 C0\",\"node\":0}\n{\"event\":\"post 1\",\"node\":0}\n{\"event\":\"look 0\",\"node\":1}\n{\"event\":\"hand item 0 C0\",\"node\":1}\n{\"answer\":\"get 1>0 0 [] \\\"a\\\"b\\\\\\\"\",\"call\":[\"get\",\"1>0\"]}\n",
    },
    // one that isn't possible
    Run {
        script: "{\"nodes\":2,\"words\":4,\"commands\":[[\"put\",\"0>1\",\"m\"],[\"act\",0,\"r0 send out\"],[\"act\",1,\"hand\"],[\"settle\",10]]}",
        seed: 7,
        status: 2,
        text: "{\"nodes\":2,\"seed\":7,\"words\":4}\n{\"answer\":\"put 0>1 0\",\"call\":[\"put\",\"0>1\",\"m\",[]]}\n{\"event\":\"r0 send out 0 C0\",\"node\":0}\ncommand 3: not possible\npossible: r0 rest\npossible: idle\n",
    },
    // one that names no act
    Run {
        script: "{\"nodes\":1,\"words\":0,\"commands\":[[\"act\",0,\"idle\"],[\"act\",0,\"fly\"]]}",
        seed: 0,
        status: 2,
        text: "{\"nodes\":1,\"seed\":0,\"words\":0}\n{\"event\":\"idle\",\"node\":0}\ncommand 2: not possible\npossible: idle\n",
    },
    // a node that isn't there is none of a script
    Run {
        script: "{\"nodes\":2,\"words\":4,\"commands\":[[\"act\",2,\"idle\"]]}",
        seed: 0,
        status: 2,
        text: "refused BadShape 1\n",
    },
    // an act without words
    Run {
        script: "{\"nodes\":2,\"words\":4,\"commands\":[[\"show\"],[\"act\",0]]}",
        seed: 0,
        status: 2,
        text: "refused BadShape 2\n",
    },
    // a name that is opened again
    Run {
        script: "{\"nodes\":1,\"words\":1,\"commands\":[[\"open\",0,\"x\",\"y\"],[\"open\",0,\"x\",\"z\"]]}",
        seed: 0,
        status: 2,
        text: "refused BadShape 2\n",
    },
    // no object
    Run {
        script: "[]",
        seed: 0,
        status: 2,
        text: "refused BadShape 0\n",
    },
    // no JSON
    Run {
        script: "{\"nodes\":2,",
        seed: 0,
        status: 2,
        text: "refused NotJson\n",
    },
];

// Whether a script is run so.
fn is_run_so(alloc: Global, run: &Run) -> bool {
    let mut out = Vec::new(alloc);
    let status = run_program(
        alloc,
        Ok(Asked::Run(run.seed)),
        &mut Device::new(run.script.as_bytes()),
        &mut Device::new(&mut out),
    );
    status == run.status && out.as_slice() == run.text.as_bytes()
}

// The first that is run otherwise.
fn first_other(alloc: Global) -> Option<usize> {
    for (i, run) in RUNS.iter().enumerate() {
        if !is_run_so(alloc, run) {
            return Some(i);
        }
    }
    None
}

// The first that was obeyed to its end and whose log isn't allowed.
fn first_refused(alloc: Global) -> Result<Option<usize>, AllocError> {
    for (i, run) in RUNS.iter().enumerate() {
        let verdict = judge_log(alloc, run.text.as_bytes())?;
        if run.status == 0 && !matches!(verdict, Verdict::Allowed) {
            return Ok(Some(i));
        }
    }
    Ok(None)
}

#[test]
fn scripts_are_run_as_the_seed_draws(rt: HostRuntime) {
    assert_eq!(rt; first_other(rt.alloc()), None);
}

#[test]
fn logs_of_runs_are_allowed(rt: HostRuntime) {
    assert_eq!(rt; first_refused(rt.alloc()), Ok(None));
}
