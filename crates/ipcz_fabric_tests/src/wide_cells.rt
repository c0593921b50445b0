//! Parcels of bytes of any value from one cell to another, on one thread.
ghost use Rattle.std.specs.Prelude.{◌≡◌};

use crate::cell_tables::named;
use ipcz_base::{Bytes, End, Refusal, Sequence, Side};
use ipcz_cell::{Blank, Fabric, FabricName, NodeCell, start};
use std::alloc::Global;
use std::marker::Brand;
use std::test::Fail;

// The portal of node 0 in the first pair.
const LEFT: End = End {
    pair: 0,
    side: Side::A,
};

// What a put of so many bytes that don't print answers.
fn puts<F: FabricName>(
    fabric: &Fabric<F>,
    cell: &mut NodeCell<F>,
    alloc: Global,
    count: usize,
) -> Result<u64, Refusal> {
    let bytes = vec![in alloc; 7u8; count]?;
    let ends = Sequence::from_vec(Vec::new(alloc));
    match cell.put_wide(fabric, LEFT, Bytes::from_vec(bytes), ends) {
        Ok(number) => Ok(number),
        Err(refused) => Err(refused.why),
    }
}

// Whether a get has the parcel of a number, of so many of these bytes.
fn gets<F: FabricName>(
    fabric: &Fabric<F>,
    cell: &mut NodeCell<F>,
    count: usize,
    number: u64,
) -> bool {
    match cell.get(fabric, LEFT.opposite()) {
        Ok((n, parcel)) => {
            let bytes = parcel.bytes.as_slice();
            n == number && bytes.len() == count && bytes.iter().all(|byte| *byte == 7)
        }
        Err(_) => false,
    }
}

// Whether a parcel of no byte and one of the most go over, and one of a byte more is too much.
fn go_over<F: FabricName>(fabric: &Fabric<F>, cells: &mut [NodeCell<F>], alloc: Global) -> bool {
    let [left, right] = cells else {
        return false;
    };
    let none = puts(fabric, left, alloc, 0) == Ok(0);
    let sent = left.acts(fabric, 100).is_ok() && right.acts(fabric, 100).is_ok();
    let most = puts(fabric, left, alloc, 65_536) == Ok(1);
    let sent_most = left.acts(fabric, 100).is_ok() && right.acts(fabric, 100).is_ok();
    let more = puts(fabric, left, alloc, 65_537) == Err(Refusal::TooMany);
    none && sent
        && most
        && sent_most
        && more
        && gets(fabric, right, 0, 0)
        && gets(fabric, right, 65_536, 1)
}

// The same of the cells of a table.
fn all_go_over<F: FabricName>(alloc: Global, blank: Blank) -> Option<bool>
    requires { blank ≡ F.table }
{
    let mut it = named::<F>(blank)?;
    Some(go_over(&it.fabric, it.cells.as_mut_slice(), alloc))
}

#[test]
fn a_cell_takes_up_to_65536_bytes_of_any_value(rt: HostRuntime) -> Result<(), Fail> {
    let blank = start(rt.alloc(), 2, 1)?;
    assert!(rt; all_go_over::<Brand>(rt.alloc(), blank) == Some(true));
    Ok(())
}
