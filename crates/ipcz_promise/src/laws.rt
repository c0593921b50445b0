//! The laws of the promise. Each function does nothing: its contract is the law.

ghost use Rattle.ipcz_promise.specs.Accounting.{StepsKeepThePromise, RestCloses, RestDelivers};
ghost use Rattle.ipcz_promise.specs.CallRuns.{CallsAreRuns, RunsHaveTheTheorem};
ghost use Rattle.ipcz_promise.specs.PromiseTests.{PromiseAllows, PromiseRefuses};
ghost use Rattle.ipcz_promise.specs.TurnRuns.{TurnsKeepThePromise};

/// Each step from a world that keeps accounts gets a reply that the plain machine may give, and leads to a world that keeps the accounts after
/// it, whichever possible act a turn takes.
pub fn each_step_keeps_the_promise()
    ensures { StepsKeepThePromise }
{}

/// Possible acts of nodes, in whatever order, are turns of the plain machine: a world that keeps accounts comes to one that keeps those which the
/// machine comes to by these turns. So it is if each act is taken by a thread of its own node.
pub fn turns_keep_the_promise()
    ensures { TurnsKeepThePromise }
{}

/// If nothing waits, a get is `Empty` only if all that the peer has put was got, and the peer isn't closed.
pub fn a_rest_has_delivered()
    ensures { RestDelivers }
{}

/// If nothing waits, each portal that lies in a parcel which was put for a closed portal, and was never got, is closed.
pub fn a_rest_has_closed_what_was_dropped()
    ensures { RestCloses }
{}

/// What the plain machine refuses: a parcel that is lost, overtaken, doubled, changed, or given at another portal or to another node; a portal
/// that is used after it was put into a parcel, or closed; and more of that kind. Whoever changes the page finds here what it must not allow.
pub fn the_promise_refuses()
    ensures { PromiseRefuses }
{}

/// What it allows: that a parcel is got, and that nothing is left then.
pub fn the_promise_allows()
    ensures { PromiseAllows }
{}

/// The steps that a caller takes by its own calls, from the start and in their order, are a run from the start, and so are the turns that its
/// settles take.
pub fn calls_are_runs()
    ensures { CallsAreRuns }
{}

/// So the theorem (specs/Theorem of `ipcz_world`) holds of what a caller's own calls lead to.
pub fn runs_have_the_theorem()
    ensures { RunsHaveTheTheorem }
{}
