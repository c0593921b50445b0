//! A word that is claimed for an open by itself, and the open that uses it.
ghost use Rattle.std.specs.Prelude.{◌≡◌};

use crate::cell_tables::named;
use ipcz_base::{End, Refusal, Side};
use ipcz_cell::{Blank, Fabric, FabricName, NodeCell, start};
use std::marker::Brand;
use std::test::Fail;

// Whether these are the ends of a pair.
fn is_pair(a: End, b: End, pair: u64) -> bool {
    a.pair == pair && a.side == Side::A && b == a.opposite()
}

// Whether an open gives a pair.
fn opens<F: FabricName>(fabric: &Fabric<F>, cell: &mut NodeCell<F>, pair: u64) -> bool {
    match cell.open_pair(fabric) {
        Ok((a, b)) => is_pair(a, b, pair),
        Err(_) => false,
    }
}

// Whether an open gives a pair, and the claim of a word behind it another word.
pub(crate) fn opens_and_claims<F: FabricName>(
    fabric: &Fabric<F>,
    cell: &mut NodeCell<F>,
    pair: u64,
    word: u64,
) -> bool {
    let Ok((a, b)) = cell.open_pair(fabric) else {
        return false;
    };
    let claimed = cell.word_claim(fabric, None);
    is_pair(a, b, pair) && claimed == Ok(word)
}

// Whether the other node finds a word claimed, and opens the next, the last.
fn next_is_the_last<F: FabricName>(fabric: &Fabric<F>, cell: &mut NodeCell<F>) -> bool {
    cell.claimed(fabric) == 3
        && cell.word(fabric, 2) == Some(0)
        && opens(fabric, cell, 3)
        && cell.open_pair(fabric) == Err(Refusal::NoWord)
        && cell.claimed(fabric) == 4
}

// Whether the open under way gets its pair though each word is claimed, and the next open none.
fn under_way_is_opened<F: FabricName>(fabric: &Fabric<F>, cell: &mut NodeCell<F>) -> bool {
    cell.word(fabric, 2) == Some(0)
        && opens(fabric, cell, 2)
        && cell.word(fabric, 2) == Some(3)
        && cell.open_pair(fabric) == Err(Refusal::NoWord)
        && cell.claimed(fabric) == 4
}

// Whether a claim by one node for an open by itself leaves its word to that node's next open, though the other node opens meanwhile.
fn keeps_claim<F: FabricName>(fabric: &Fabric<F>, cells: &mut [NodeCell<F>]) -> bool {
    let [left, right] = cells else {
        return false;
    };
    opens_and_claims(fabric, left, 1, 2)
        && next_is_the_last(fabric, right)
        && under_way_is_opened(fabric, left)
}

// The same of four words, of which the first pair has one.
fn claim_is_kept<F: FabricName>(blank: Blank) -> Option<bool>
    requires { blank ≡ F.table }
{
    let mut it = named::<F>(blank)?;
    Some(keeps_claim(&it.fabric, it.cells.as_mut_slice()))
}

#[test]
fn a_claim_by_itself_is_used_by_the_next_open(rt: HostRuntime) -> Result<(), Fail> {
    let blank = start(rt.alloc(), 2, 4)?;
    assert!(rt; claim_is_kept::<Brand>(blank) == Some(true));
    Ok(())
}
