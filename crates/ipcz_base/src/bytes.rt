//! The bytes of a parcel. A few stand in the value itself, and take no memory.
ghost use Rattle.std.specs.Prelude.{◌≡◌, ◌==◌, ◌≤◌, [], length, IfOk, IfErr, IsOk, IsErr};
ghost use Rattle.ipcz_base.specs.Bytes.{WantsMemory};

use std::alloc::{AllocError, Global};
use std::fmt;
use std::marker::Model;

/// So many bytes at most stand in the value itself.
const MOST_SHORT: usize = 16;

// At most sixteen bytes, at the front of their room.
#[derive(Drop)]
struct Short {
    count: u64,
    room: [u8; MOST_SHORT],
}

#[derive(Drop)]
enum Kept {
    Short(Short),
    Long(Vec<u8>),
}

/// The bytes of a parcel, which contracts compare as a list.
///
/// Up to 16 stand in the value itself: they take no memory of their own, and so a parcel of them goes from thread to thread without any. More
/// of them are kept in a `Vec`. They print as a list of numbers.
#[derive(Drop)]
pub struct Bytes {
    kept: Kept,
}

impl Model for Short {
    ghost use Rattle.std.specs.Prelude.{◌≤◌, ℕ, List, take};

    ghost Value = { List ℕ };

    ghost view = { λ s. take s.count s.room };

    ghost invariant = { λ s. s.count ≤ 16 };
}

impl Model for Bytes {
    ghost use Rattle.std.specs.Prelude.{ℕ, List};
    ghost use Rattle.std.specs.Coded.{codes};
    ghost use Rattle.ipcz_base.specs.Bytes.{kept_bytes};

    ghost Value = { List ℕ };

    ghost coded = { Prim.hlevel codes };

    ghost view = { λ b. kept_bytes b.kept };
}

impl Short {
    // A copy of a few bytes.
    fn of(bytes: &[u8]) -> Short
        requires { length bytes.now ≤ 16 }
        ensures { result ≡ bytes.now }
    {
        let mut room = [0; MOST_SHORT];
        room[..bytes.len()].copy_from_slice(bytes);
        Short {
            count: bytes.len() as u64,
            room,
        }
    }

    // The bytes.
    fn as_slice(&self) -> &[u8]
        ensures bytes { result.now ≡ self.now }
        ensures few { length result.now ≤ 16 }
    {
        &self.room[..self.count as usize]
    }

    // How many there are.
    fn len(&self) -> usize
        ensures { result ≡ length self.now }
    {
        self.count as usize
    }
}

impl Bytes {
    /// No bytes at all. It takes no memory, and is never refused.
    ///
    /// `Bytes::new().len()` is 0.
    #[tactic(auto, unfolding(crate::specs::Bytes::kept_bytes))]
    pub fn new() -> Bytes
        ensures { result ≡ [] }
    {
        Bytes {
            kept: Kept::Short(Short::of(&[])),
        }
    }

    /// The bytes of a vector, in their order. Up to 16 are copied, and their vector's memory is given back. It takes no memory, and is never
    /// refused.
    ///
    /// `Bytes::from_vec(Vec::from_slice(alloc, b"hello")?).len()` is 5.
    #[tactic(auto, unfolding(crate::specs::Bytes::kept_bytes))]
    pub fn from_vec(bytes: Vec<u8>) -> Bytes
        ensures { result ≡ bytes.items }
    {
        let kept = if bytes.len() <= MOST_SHORT {
            Kept::Short(Short::of(bytes.as_slice()))
        } else {
            Kept::Long(bytes)
        };
        Bytes { kept }
    }

    /// A copy of these bytes. Up to 16 take no memory and are never refused.
    ///
    /// `Bytes::from_slice(alloc, b"hello")` is never an `Err`.
    #[tactic(auto, unfolding(crate::specs::Bytes::kept_bytes))]
    pub fn from_slice(alloc: Global, bytes: &[u8]) -> Result<Bytes, AllocError>
        ensures copy { IfOk result (λ copy. copy ≡ bytes.now) }
        ensures short { IsErr result → WantsMemory bytes.now }
    {
        let kept = if bytes.len() <= MOST_SHORT {
            Kept::Short(Short::of(bytes))
        } else {
            Kept::Long(Vec::from_slice(alloc, bytes)?)
        };
        Ok(Bytes { kept })
    }

    /// A vector of the bytes, in their order. More than 16 take no memory, since they stand in one already. If there is no memory for the
    /// vector, it gives the bytes back.
    ///
    /// Of `Bytes::from_slice(alloc, b"hello")?`, `bytes.into_vec(alloc)` is a vector of 5 bytes.
    #[tactic(auto, unfolding(crate::specs::Bytes::kept_bytes))]
    pub fn into_vec(self, alloc: Global) -> Result<Vec<u8>, Bytes>
        ensures ok { IfOk result (λ bytes. bytes.items ≡ self) }
        ensures back { IfErr result (λ bytes. bytes ≡ self) }
        ensures long { WantsMemory self → IsOk result }
    {
        match self.kept {
            Kept::Long(bytes) => Ok(bytes),
            Kept::Short(short) => match Vec::from_slice(alloc, short.as_slice()) {
                Ok(bytes) => Ok(bytes),
                Err(_) => Err(Bytes {
                    kept: Kept::Short(short),
                }),
            },
        }
    }

    /// The bytes, in their order. It is never refused.
    ///
    /// Of `Bytes::from_slice(alloc, b"hello")?`, `bytes.as_slice()` is `b"hello"`.
    #[tactic(auto, unfolding(crate::specs::Bytes::kept_bytes))]
    pub fn as_slice(&self) -> &[u8]
        ensures { result.now ≡ self.now }
    {
        match &self.kept {
            Kept::Short(short) => short.as_slice(),
            Kept::Long(bytes) => bytes.as_slice(),
        }
    }

    /// How many bytes there are. It is never refused.
    ///
    /// Of `Bytes::from_slice(alloc, b"hello")?`, `bytes.len()` is 5.
    #[tactic(auto, unfolding(crate::specs::Bytes::kept_bytes))]
    pub fn len(&self) -> usize
        ensures { result ≡ length self.now }
    {
        match &self.kept {
            Kept::Short(short) => short.len(),
            Kept::Long(bytes) => bytes.len(),
        }
    }

    /// Whether there is no byte. It is never refused.
    ///
    /// Of `Bytes::from_slice(alloc, b"hello")?`, `bytes.is_empty()` is false.
    pub fn is_empty(&self) -> bool
        ensures { result ≡ (length self.now == 0) }
    {
        self.len() == 0
    }
}

impl fmt::Debug for Bytes {
    fn fmt<W: fmt::Write>(&self, f: &mut fmt::Formatter<W>) -> fmt::Result {
        fmt::Debug::fmt(self.as_slice(), f)
    }
}
