//! Byte strings: keys, values and names. Contracts see one as the list of its bytes.
ghost use Rattle.std.specs.Prelude.{◌≡◌, ◌+◌, ◌<◌, ◌≤◌, ◌++◌, [], ℕ, length, drop, take, slice_index, refl, Some, true, IfOk, IfErr};
ghost use Rattle.std.specs.Cmp.Lexicographic.{slice_cmp, nat_list_cmp_total, nat_list_eq_equiv, texts_ties, texts_po};
ghost use Rattle.std.specs.Cmp;
ghost use Rattle.std.specs.Ordering.{nat_cmp};
ghost use Rattle.std.specs.Hash as fed;
ghost use Rattle.std.specs.Cmp.Rules.{hashing};
ghost use Rattle.std.specs.Str.{bytes_eq};
ghost use Rattle.std.proofs.Common.{rules};
ghost use Rattle.sled_nodes.specs.theory.Fronts.{front};
ghost use Rattle.sled_nodes.specs.Bytes.{padded};
ghost use Rattle.sled_nodes.specs.declared.error.Error.TheVariants.{NoMemory};

use crate::error::Result;
use crate::order::{compare, first_eight, front_of};
use std::alloc::Global;
use std::cmp::Ordering;
use std::fmt::{self, Debug, Formatter, Write};
use std::hash::{Hash, Hasher};
use std::marker::Model;
use std::sync::Arc;

// A string of at most so many bytes is in place.
const SHORT: usize = 22;

// A string of at most so many bytes is in one block with its count of owners.
const MIDDLE: usize = 56;

// Short strings are in place, and clones of a longer one share it. In an array zeros follow the bytes.
#[derive(Drop)]
enum Bytes {
    Short(u8, [u8; 22]),
    Middle(u8, Arc<[u8; 56]>),
    Long(Arc<Vec<u8>>),
}

/// A byte string that is never changed. A clone copies at most 22 bytes.
pub struct IVec {
    bytes: Bytes,
}

// By hand, so that each function that drops a byte string cites this, and does not prove again how its parts are dropped.
impl Drop for IVec {
    #[inline(always)]
    fn drop(self) {
        let IVec { bytes } = self;
        drop(bytes);
    }
}

impl Model for IVec {
    ghost use Rattle.std.specs.Prelude.{List, ℕ};

    ghost Value = { List ℕ };

    ghost use Rattle.sled_nodes.specs.Bytes.{bytes_of, IsShort};

    ghost view = { λ a. bytes_of a.bytes };

    ghost invariant = { λ a. IsShort a.bytes };
}

impl IVec {
    /// A copy of the bytes. Refused with `NoMemory` alone.
    ///
    /// ```
    /// let key = IVec::from_slice(alloc, b"ulm")?;
    /// ```
    pub fn from_slice(alloc: Global, bytes: &[u8]) -> Result<IVec>
        ensures ok { IfOk result (λ made. made ≡ bytes.now) }
        ensures err { IfErr result (λ e. e ≡ NoMemory) }
    {
        if bytes.len() <= SHORT {
            let mut short = [0; 22];
            short[..bytes.len()].copy_from_slice(bytes);
            return Ok(IVec {
                bytes: Bytes::Short(bytes.len() as u8, short),
            });
        }
        if bytes.len() <= MIDDLE {
            let mut middle = [0; 56];
            middle[..bytes.len()].copy_from_slice(bytes);
            return Ok(IVec {
                bytes: Bytes::Middle(bytes.len() as u8, Arc::new(alloc, middle)?),
            });
        }
        Ok(IVec {
            bytes: Bytes::Long(Arc::new(alloc, Vec::from_slice(alloc, bytes)?)?),
        })
    }

    // The empty byte string. It takes no memory.
    pub(crate) fn empty() -> IVec
        ensures { result ≡ [] }
    {
        IVec {
            bytes: Bytes::Short(0, [0; 22]),
        }
    }

    // Whether it is the empty byte string, as its head alone shows.
    #[inline(always)]
    pub(crate) fn is_nothing(&self) -> bool
        ensures { result ≡ true → self.now ≡ [] }
    {
        match &self.bytes {
            Bytes::Short(0, _) => true,
            _ => false,
        }
    }

    // A short byte string with more bytes behind it, for which there is room.
    #[inline(always)]
    fn extended(count: usize, bytes: &[u8; 22], more: &[u8]) -> IVec
        requires room { count + length more.now ≤ 22 }
        requires zeros { padded 22 (take count bytes.now) ≡ bytes.now }
        ensures { result ≡ take count bytes.now ++ more.now }
    {
        let mut short = *bytes;
        short[count..count + more.len()].copy_from_slice(more);
        IVec {
            bytes: Bytes::Short((count + more.len()) as u8, short),
        }
    }

    // Two byte strings, one after the other. Refused with `NoMemory` alone.
    #[inline(always)]
    pub(crate) fn concat(alloc: Global, front: &IVec, back: &IVec) -> Result<IVec>
        ensures ok { IfOk result (λ made. made ≡ front.now ++ back.now) }
        ensures err { IfErr result (λ e. e ≡ NoMemory) }
    {
        let rest = back.as_ref();
        if let Bytes::Short(count, bytes) = &front.bytes {
            let count = *count as usize;
            if rest.len() <= SHORT - count {
                return Ok(IVec::extended(count, bytes, rest));
            }
        }
        IVec::joined(alloc, front.as_ref(), rest)
    }

    // The same, called if they are not short.
    #[inline(never)]
    pub(crate) fn joined(alloc: Global, front: &[u8], back: &[u8]) -> Result<IVec>
        ensures ok { IfOk result (λ made. made ≡ front.now ++ back.now) }
        ensures err { IfErr result (λ e. e ≡ NoMemory) }
    {
        let len = front.len() + back.len();
        if len <= MIDDLE {
            let mut room = [0; 56];
            room[..front.len()].copy_from_slice(front);
            room[front.len()..len].copy_from_slice(back);
            return IVec::from_slice(alloc, &room[..len]);
        }
        let mut bytes = Vec::with_capacity(alloc, len)?;
        bytes.extend_from_slice(front)?;
        bytes.extend_from_slice(back)?;
        Ok(IVec {
            bytes: Bytes::Long(Arc::new(alloc, bytes)?),
        })
    }

    // The bytes behind the first few. Refused with `NoMemory` alone.
    pub(crate) fn behind(&self, alloc: Global, count: usize) -> Result<IVec>
        ensures ok { IfOk result (λ rest. rest ≡ drop count self.now) }
        ensures err { IfErr result (λ e. e ≡ NoMemory) }
    {
        if count == 0 {
            return self.clone();
        }
        let bytes = self.as_ref();
        if count < bytes.len() {
            IVec::from_slice(alloc, &bytes[count..])
        } else {
            Ok(IVec::empty())
        }
    }

    /// The bytes.
    ///
    /// ```
    /// let is_ulm = key.as_ref() == b"ulm".as_slice();
    /// ```
    #[inline(always)]
    pub fn as_ref(&self) -> &[u8]
        ensures { result.now ≡ self.now }
    {
        match &self.bytes {
            Bytes::Short(len, bytes) => &bytes[..*len as usize],
            Bytes::Middle(len, bytes) => &bytes[..*len as usize],
            Bytes::Long(bytes) => bytes.as_slice(),
        }
    }

    // The first eight bytes as a number, the first the highest, with zeros behind a shorter string.
    #[inline(always)]
    pub(crate) fn front(&self) -> u64
        ensures is { result ≡ front self.now }
        ensures low { (i : ℕ) → slice_index self.now i < 256 }
    {
        match &self.bytes {
            Bytes::Short(_, bytes) => first_eight(bytes.as_slice()),
            Bytes::Middle(_, bytes) => first_eight(bytes.as_slice()),
            Bytes::Long(bytes) => front_of(bytes.as_slice()),
        }
    }

    /// How many bytes there are.
    ///
    /// ```
    /// let length = key.len(); // Of `ulm` it is 3.
    /// ```
    #[inline(always)]
    pub fn len(&self) -> usize
        ensures { result ≡ length self.now }
    {
        self.as_ref().len()
    }

    /// The same byte string. Refused with `NoMemory` alone.
    ///
    /// ```
    /// let same = key.clone()?; // Of a long one the bytes are shared.
    /// ```
    #[inline(always)]
    pub fn clone(&self) -> Result<IVec>
        ensures ok { IfOk result (λ copy. copy ≡ self.now) }
        ensures err { IfErr result (λ e. e ≡ NoMemory) }
    {
        match &self.bytes {
            Bytes::Short(len, bytes) => Ok(IVec {
                bytes: Bytes::Short(*len, *bytes),
            }),
            Bytes::Middle(len, bytes) => Ok(IVec {
                bytes: Bytes::Middle(*len, Arc::try_clone(bytes)?),
            }),
            Bytes::Long(bytes) => Ok(IVec {
                bytes: Bytes::Long(Arc::try_clone(bytes)?),
            }),
        }
    }
}

// Prints the list of the bytes.
impl Debug for IVec {
    fn fmt<W: Write>(&self, f: &mut Formatter<W>) -> fmt::Result {
        self.as_ref().fmt(f)
    }
}

impl PartialEq for IVec {
    ghost eq = { bytes_eq };

    ghost laws = { Cmp.partial_equiv_from_equiv nat_list_eq_equiv };

    fn eq(&self, other: &Self) -> bool {
        self.as_ref() == other.as_ref()
    }
}

impl Eq for IVec {
    ghost laws = { nat_list_eq_equiv };
}

impl PartialOrd for IVec {
    ghost partial_cmp = { λ a b. Some (slice_cmp nat_cmp a b) };

    ghost laws = { texts_po };

    fn partial_cmp(&self, other: &Self) -> Option<Ordering> {
        Some(self.cmp(other))
    }
}

impl Ord for IVec {
    ghost cmp = { slice_cmp nat_cmp };

    ghost total = { nat_list_cmp_total };

    ghost matches_partial_cmp = { λ _ _. refl };

    ghost matches_eq = { texts_ties };

    fn cmp(&self, other: &Self) -> Ordering {
        compare(self.as_ref(), other.as_ref())
    }
}

impl Hash for IVec {
    ghost hash_input = { λ a. fed.slice fed.u8 a };

    ghost respects_eq = { Prim.search (hashing, rules) };

    fn hash<H: Hasher>(&self, state: &mut H) {
        self.as_ref().hash(state);
    }
}
