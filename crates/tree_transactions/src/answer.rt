//! What the closure of a transaction answers, as a parameter of bounds.
ghost use Rattle.std.specs.Prelude.{◌≡◌};

use crate::errors::{
    ConflictableTransactionError, ConflictableTransactionResult, TransactionResult,
};

/// What the closure of a transaction answers: a `ConflictableTransactionResult<A, E>`, for which alone this crate implements it. It is a
/// parameter of each call that takes such a closure, and names what that call answers (`Ended`). For what is proved of a call through a
/// bound does not reach into types that hold a text, as an `Error` does. The author of a closure need not name it.
pub trait TransactionAnswer<A, E> {
    ghost use Rattle.std.specs.Prelude.{Result};
    ghost use Rattle.tree_transactions.specs.declared.errors.ConflictableTransactionError.{ConflictableTransactionError as Ending};
    ghost use Rattle.tree_transactions.specs.declared.errors.TransactionError.{TransactionError as Refusal};

    /// What the transaction answers: a `TransactionResult<A, E>`.
    type Ended;

    /// The result that the closure's answer is.
    ghost result_of: { Self → Result A (Ending E) };

    /// The result that the transaction's answer is.
    ghost answer_of: { Self.Ended → Result A (Refusal E) };

    /// The closure's answer as that result.
    fn into_result(self) -> ConflictableTransactionResult<A, E>
        ensures { result ≡ result_of self };

    /// The transaction's answer that is this result.
    fn ended(answer: TransactionResult<A, E>) -> Self::Ended
        ensures { answer_of result ≡ answer };
}

impl<A, E> TransactionAnswer<A, E> for std::result::Result<A, ConflictableTransactionError<E>> {
    type Ended = TransactionResult<A, E>;

    ghost result_of = { λ answer. answer };

    ghost answer_of = { λ answer. answer };

    fn into_result(self) -> ConflictableTransactionResult<A, E> {
        self
    }

    fn ended(answer: TransactionResult<A, E>) -> Self::Ended
        ensures { result ≡ answer }
    {
        answer
    }
}
