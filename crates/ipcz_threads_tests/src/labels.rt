//! Names that are alike in front, and a name that is bound again.

use ipcz_base::{End, Side};
use ipcz_script::Labels;
use std::alloc::{AllocError, Global};

const FIRST: End = End {
    pair: 0,
    side: Side::A,
};

const SECOND: End = End {
    pair: 0,
    side: Side::B,
};

// Binds names that are alike in front, and one of them again; whether each is then found whole.
fn finds_whole(labels: &mut Labels) -> Result<bool, AllocError> {
    labels.bind("abcdefgh1", FIRST)?;
    labels.bind("abcdefgh2", SECOND)?;
    let found = labels.end_of("abcdefgh1") == Some(FIRST)
        && labels.end_of("abcdefgh2") == Some(SECOND)
        && labels.end_of("abcdefgh").is_none();
    labels.bind("abcdefgh1", SECOND)?;
    Ok(found && labels.end_of("abcdefgh1") == Some(SECOND))
}

// The same, of the labels of one node.
fn finds_first(alloc: Global) -> Result<bool, AllocError> {
    let mut labels = Labels::first(alloc, 1)?;
    finds_whole(&mut labels)
}

#[test]
fn finds_whole_names(rt: HostRuntime) {
    assert_eq!(rt; finds_first(rt.alloc()), Ok(true));
}
