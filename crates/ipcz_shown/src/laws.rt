//! The laws that lead from cells and hubs to the promise. Each function does nothing: its contract is the law.

ghost use Rattle.ipcz_shown.specs.Shown.{TablesTellAccounts, TableTurnsKeepThePromise, TableRunsKeepThePromise, StartedTablesKeepThePromise};
ghost use Rattle.ipcz_shown.specs.Shown.{RefusalsAreAllowed, QuietTablesDeliver};

/// A table that keeps its rule tells accounts of the page: who holds which portal by its nodes' parts, and what was put, got and closed by what its
/// seats have seen. At each portal was got, in order and once each, a first part of what was put at its peer; and nobody holds a closed portal.
pub fn tables_tell_accounts()
    ensures { TablesTellAccounts }
{}

/// Steps of turns, of any seats and in whatever order, are turns of the page's machine: if the world that the table shows keeps accounts, the world
/// that it shows behind the steps keeps those which the machine comes to by these turns.
pub fn table_turns_keep_the_promise()
    ensures { TableTurnsKeepThePromise }
{}

/// Whatever threads call, each on its own nodes, and whatever nodes do meanwhile: in the order of their atomic steps all calls, each with the answer that
/// it got, and all turns are a run of the page's machine. If the world that the table shows keeps accounts, the world that it shows behind them keeps
/// those which the machine comes to. It is so whether link words come back or not.
pub fn table_runs_keep_the_promise()
    ensures { TableRunsKeepThePromise }
{}

/// So what is called on a table from its start on is a run of the page's machine from its own start. The accounts that the machine comes to are those that
/// the seats' views tell: who holds which portal by its nodes' parts, and what was put, got and closed by their entries.
pub fn started_tables_keep_the_promise()
    ensures { StartedTablesKeepThePromise }
{}

/// What a cell answers where its part refuses a put, a get or a close, or where memory, serials or words are missing, the page's machine may answer at
/// the accounts of that moment; and nothing changes.
pub fn refusals_are_allowed()
    ensures { RefusalsAreAllowed }
{}

/// If each node is quiet, nothing is left of a batch and no mailbox is full, each portal in a parcel that a closed portal never got is closed; and a get
/// at a cell is `Empty` only if all that the peer has put was got, and the peer isn't closed.
pub fn quiet_tables_deliver()
    ensures { QuietTablesDeliver }
{}
