//! What is asked is made into the steps of a world, with lists of their own.
use crate::moves::Ask;
use ipcz_base::{Bytes, End, Ends};
use ipcz_world::Step;
use std::alloc::{AllocError, Global};

/// The lists of a put.
pub fn lists(alloc: Global, data: &[u8], attached: &[End]) -> Result<(Bytes, Ends), AllocError> {
    let bytes = Bytes::from_slice(alloc, data)?;
    let ends = Vec::from_slice(alloc, attached)?;
    Ok((bytes, Ends::from_vec(ends)))
}

/// The step that is asked for.
pub fn step_of(alloc: Global, ask: Ask) -> Result<Step, AllocError> {
    Ok(match ask {
        Ask::Open(node) => Step::Open(node),
        Ask::Put(node, at, data, attached) => {
            let (bytes, ends) = lists(alloc, data, attached)?;
            Step::Put {
                node,
                at,
                bytes,
                ends,
            }
        }
        Ask::Get(node, at) => Step::Get { node, at },
        Ask::Close(node, at) => Step::Close { node, at },
        Ask::Turn(node) => Step::Turn(node),
    })
}
