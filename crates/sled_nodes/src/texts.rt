//! The texts of `Error::Unsupported` and `Error::ReportableBug`.

/// A call was given a `Tree` of another database.
pub const HANDLE_OF_ANOTHER_DATABASE: &str = "handle of another database";
/// A transaction was given a `Tree` of another database.
pub const TREES_OF_SEVERAL_DATABASES: &str =
    "cannot use trees from multiple databases in the same transaction";
/// A merge in a tree that has no operator.
pub const NO_MERGE_OPERATOR: &str =
    "must set a merge operator on this Tree before calling merge by calling Tree::set_merge_operator";
/// The default tree was to be dropped.
pub const CORE_STRUCTURES: &str = "cannot remove the core structures";
/// An import met a key that is present.
pub const OVERWRITES_DATA: &str = "import is overwriting existing data";
/// An import met a collection that is not a tree.
pub const UNKNOWN_COLLECTION_TYPE: &str = "unknown collection type";
/// The greatest id was given.
pub const IDS_USED_UP: &str = "ids used up";
/// A transaction has given all ids that were set aside for it.
pub const NO_ID_SET_ASIDE: &str = "no id set aside";
/// A transaction over a list of trees has none at this position.
pub const NO_TREE_AT_THIS_POSITION: &str = "no tree at this position";
/// A number of trees, slots or subscribers, or the callers, are used up.
pub const NUMBERS_USED_UP: &str = "numbers used up";
/// A walk went on for as many turns as it may.
pub const WALK_PASSED_TURNS: &str = "walk passed 1000000 turns";
/// A transaction met a conflict as often as it may.
pub const TRANSACTION_PASSED_ATTEMPTS: &str = "transaction passed 1000000 attempts";
