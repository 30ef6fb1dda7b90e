//! How a closure may end a transaction, and why a transaction does not answer `Ok`.
ghost use Rattle.std.specs.Prelude.{◌≡◌, Err, IfOk, IfErr};
ghost use Rattle.sled_nodes.specs.declared.error.Error.TheVariants.{NoMemory};
ghost use Rattle.tree_transactions.specs.declared.errors.ConflictableTransactionError.TheVariants as closure;

use sled_nodes::Error;
use std::fmt::{self, Display, Formatter, Write};

/// Why a call inside a transaction is refused. By `?` it ends a closure that answers a `ConflictableTransactionResult`.
#[derive(Debug, PartialEq, Eq, Drop)]
pub enum UnabortableTransactionError {
    /// The closure is to be run again. No call answers it.
    Conflict,
    /// A read was refused, or there was no memory for a write, or there is no such tree.
    Storage(Error),
}

/// How a closure ends a transaction of which nothing is written.
#[derive(Debug, PartialEq, Eq, Drop)]
pub enum ConflictableTransactionError<T> {
    /// The transaction is aborted, with this as its answer.
    Abort(T),
    /// The closure is to be run again.
    Conflict,
    /// A call inside was refused, or the closure says so, and the transaction is refused with the same.
    Storage(Error),
}

/// Why a transaction did not answer `Ok`.
#[derive(Debug, PartialEq, Eq, Drop)]
pub enum TransactionError<T> {
    /// The closure gave it up.
    Abort(T),
    /// It was refused. If its flush was, what it wrote stays; if its commit was refused midway, the database is closed.
    Storage(Error),
}

/// What a call inside a transaction answers.
pub type UnabortableTransactionResult<T> = std::result::Result<T, UnabortableTransactionError>;

/// What the closure of a transaction answers.
pub type ConflictableTransactionResult<T, E> = std::result::Result<
    T,
    ConflictableTransactionError<E>,
>;

/// What a transaction answers.
pub type TransactionResult<T, E> = std::result::Result<T, TransactionError<E>>;

/// Gives a transaction up.
///
/// ```
/// if inside.get(b"ulm")?.is_none() {
///     return abort(()); // Nothing is written.
/// }
/// ```
pub fn abort<A, T>(t: T) -> ConflictableTransactionResult<A, T>
    ensures { result ≡ Err (closure.Abort t) }
{
    Err(ConflictableTransactionError::Abort(t))
}

impl UnabortableTransactionError {
    /// The same error. Refused with `NoMemory` alone.
    ///
    /// ```
    /// let again = UnabortableTransactionError::Storage(error).clone()?;
    /// ```
    pub fn clone(&self) -> sled_nodes::Result<UnabortableTransactionError>
        ensures ok { IfOk result (λ copy. copy ≡ self.now) }
        ensures err { IfErr result (λ e. e ≡ NoMemory) }
    {
        match self {
            UnabortableTransactionError::Conflict => Ok(UnabortableTransactionError::Conflict),
            UnabortableTransactionError::Storage(e) => {
                Ok(UnabortableTransactionError::Storage(e.clone()?))
            }
        }
    }
}

// A clone of what a closure gave up with. Refused with `NoMemory` alone.
fn clone_given<T: Clone>(t: &T) -> sled_nodes::Result<T>
    ensures ok { IfOk result (T.is_clone t.now) }
    ensures err { IfErr result (λ e. e ≡ NoMemory) }
{
    match t.clone() {
        Ok(copy) => Ok(copy),
        Err(_) => Err(Error::NoMemory),
    }
}

impl<T: Clone> ConflictableTransactionError<T> {
    ghost use Rattle.tree_transactions.specs.Errors.{is_same_ending};

    /// The same, with a clone of what the closure gave up with. Refused with `NoMemory` alone.
    ///
    /// ```
    /// let ending: ConflictableTransactionError<u64> = ConflictableTransactionError::Abort(7);
    /// let again = ending.clone()?;
    /// ```
    pub fn clone(&self) -> sled_nodes::Result<ConflictableTransactionError<T>>
        ensures ok { IfOk result (is_same_ending T.is_clone self.now) }
        ensures err { IfErr result (λ e. e ≡ NoMemory) }
    {
        match self {
            ConflictableTransactionError::Abort(t) => {
                Ok(ConflictableTransactionError::Abort(clone_given(t)?))
            }
            ConflictableTransactionError::Conflict => Ok(ConflictableTransactionError::Conflict),
            ConflictableTransactionError::Storage(e) => {
                Ok(ConflictableTransactionError::Storage(e.clone()?))
            }
        }
    }
}

impl<T: Clone> TransactionError<T> {
    ghost use Rattle.tree_transactions.specs.Errors.{is_same_refusal};

    /// The same, with a clone of what the closure gave up with. Refused with `NoMemory` alone.
    ///
    /// ```
    /// let refusal: TransactionError<u64> = TransactionError::Abort(7);
    /// let again = refusal.clone()?;
    /// ```
    pub fn clone(&self) -> sled_nodes::Result<TransactionError<T>>
        ensures ok { IfOk result (is_same_refusal T.is_clone self.now) }
        ensures err { IfErr result (λ e. e ≡ NoMemory) }
    {
        match self {
            TransactionError::Abort(t) => Ok(TransactionError::Abort(clone_given(t)?)),
            TransactionError::Storage(e) => Ok(TransactionError::Storage(e.clone()?)),
        }
    }
}

impl From<Error> for UnabortableTransactionError {
    ghost use Rattle.tree_transactions.specs.declared.errors.UnabortableTransactionError.TheVariants.{Storage};

    ghost from_gives = { λ e told. told ≡ Storage e };

    fn from(e: Error) -> Self {
        UnabortableTransactionError::Storage(e)
    }
}

impl<T> From<Error> for ConflictableTransactionError<T> {
    ghost use Rattle.tree_transactions.specs.declared.errors.ConflictableTransactionError.TheVariants.{Storage};

    ghost from_gives = { λ e told. told ≡ Storage e };

    fn from(e: Error) -> Self {
        ConflictableTransactionError::Storage(e)
    }
}

impl<T> From<Error> for TransactionError<T> {
    ghost use Rattle.tree_transactions.specs.declared.errors.TransactionError.TheVariants.{Storage};

    ghost from_gives = { λ e told. told ≡ Storage e };

    fn from(e: Error) -> Self {
        TransactionError::Storage(e)
    }
}

impl<T> From<UnabortableTransactionError> for ConflictableTransactionError<T> {
    ghost use Rattle.tree_transactions.specs.Errors.{ends_closure};

    ghost from_gives = { λ e told. told ≡ ends_closure e };

    fn from(e: UnabortableTransactionError) -> Self {
        match e {
            UnabortableTransactionError::Conflict => ConflictableTransactionError::Conflict,
            UnabortableTransactionError::Storage(e) => ConflictableTransactionError::Storage(e),
        }
    }
}

// What is printed if a closure is to be run again.
const CONFLICT: &str = "Conflict during transaction";

impl Display for UnabortableTransactionError {
    fn fmt<W: Write>(&self, f: &mut Formatter<W>) -> fmt::Result {
        match self {
            UnabortableTransactionError::Conflict => f.write_str(CONFLICT),
            UnabortableTransactionError::Storage(e) => write!(f, "{e}"),
        }
    }
}

impl<T: Display> Display for ConflictableTransactionError<T> {
    fn fmt<W: Write>(&self, f: &mut Formatter<W>) -> fmt::Result {
        match self {
            ConflictableTransactionError::Abort(e) => write!(f, "{e}"),
            ConflictableTransactionError::Conflict => f.write_str(CONFLICT),
            ConflictableTransactionError::Storage(e) => write!(f, "{e}"),
        }
    }
}

impl<T: Display> Display for TransactionError<T> {
    fn fmt<W: Write>(&self, f: &mut Formatter<W>) -> fmt::Result {
        match self {
            TransactionError::Abort(e) => write!(f, "{e}"),
            TransactionError::Storage(e) => write!(f, "{e}"),
        }
    }
}

impl std::error::Error for UnabortableTransactionError {}

impl<T: std::error::Error> std::error::Error for ConflictableTransactionError<T> {}

impl<T: std::error::Error> std::error::Error for TransactionError<T> {}
