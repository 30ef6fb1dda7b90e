//! Lists that reads return. Each is shared by its owners, and never changed; a clone copies nothing.
ghost use Rattle.std.specs.Prelude.{◌≡◌, ◌&&◌, IfOk, IfErr};
ghost use Rattle.std.specs.Cmp.{and_equiv, on_equiv, partial_equiv_from_equiv};
ghost use Rattle.std.specs.Cmp.Lexicographic.{lists_equiv, nat_list_eq_equiv, pointwise};
ghost use Rattle.std.specs.Str.{bytes_eq};
ghost use Rattle.sled_nodes.specs.Order.{Key};
ghost use Rattle.sled_nodes.specs.declared.error.Error.TheVariants.{NoMemory};
ghost use Rattle.sled_model.specs.Collections.{Content, contents_of};

use sled_model::Collection;
use sled_nodes::{IVec, Result};
use std::alloc::Global;
use std::marker::Model;
use std::sync::Arc;

/// Pairs of keys and values, in the order in which they were read.
pub struct Pairs {
    pairs: Arc<Vec<(IVec, IVec)>>,
}

impl Model for Pairs {
    ghost use Rattle.std.specs.Prelude.{List};
    ghost use Rattle.sled_nodes.specs.Order.{Key};

    ghost Value = { List (Key × Key) };

    ghost view = { λ p. p.pairs.value.items };
}

impl Pairs {
    // These pairs.
    pub(crate) fn new(alloc: Global, pairs: Vec<(IVec, IVec)>) -> Result<Pairs>
        ensures ok { IfOk result (λ made. made ≡ pairs.items) }
        ensures err { IfErr result (λ e. e ≡ NoMemory) }
    {
        Ok(Pairs {
            pairs: Arc::new(alloc, pairs)?,
        })
    }

    /// The pairs, lent.
    ///
    /// ```
    /// let page = handle.page(rt, alloc, &tree, Bound::Unbounded, Bound::Unbounded, false, 10)?;
    /// for (key, value) in page.as_slice() {
    ///     let both = (key.as_ref(), value.as_ref());
    /// }
    /// ```
    pub fn as_slice(&self) -> &[(IVec, IVec)]
        ensures { result.now ≡ self.now }
    {
        self.pairs.as_slice()
    }

    // The same pairs, shared. Refused with `NoMemory` alone.
    pub(crate) fn clone(&self) -> Result<Pairs>
        ensures ok { IfOk result (λ copy. copy ≡ self.now) }
        ensures err { IfErr result (λ e. e ≡ NoMemory) }
    {
        Ok(Pairs {
            pairs: Arc::try_clone(&self.pairs)?,
        })
    }
}

impl PartialEq for Pairs {
    ghost eq = { pointwise (λ p q. bytes_eq p.0 q.0 && bytes_eq p.1 q.1) };

    ghost laws = { partial_equiv_from_equiv (lists_equiv (and_equiv (on_equiv (λ p. p.0) nat_list_eq_equiv) (on_equiv (λ p. p.1) nat_list_eq_equiv))) };

    fn eq(&self, other: &Pairs) -> bool {
        self.as_slice() == other.as_slice()
    }
}

impl Eq for Pairs {
    ghost laws = { lists_equiv (and_equiv (on_equiv (λ p. p.0) nat_list_eq_equiv) (on_equiv (λ p. p.1) nat_list_eq_equiv)) };
}

// By hand, so that code that drops them cites this, and need not prove again how each of their parts is dropped.
impl Drop for Pairs {
    fn drop(self) {
        let Pairs { pairs } = self;
        drop(pairs);
    }
}

/// Names of trees, in byte order.
pub struct Names {
    names: Arc<Vec<IVec>>,
}

impl Model for Names {
    ghost use Rattle.std.specs.Prelude.{List};
    ghost use Rattle.sled_nodes.specs.Order.{Key};

    ghost Value = { List Key };

    ghost view = { λ n. n.names.value.items };
}

impl Names {
    // These names.
    pub(crate) fn new(alloc: Global, names: Vec<IVec>) -> Result<Names>
        ensures ok { IfOk result (λ made. made ≡ names.items) }
        ensures err { IfErr result (λ e. e ≡ NoMemory) }
    {
        Ok(Names {
            names: Arc::new(alloc, names)?,
        })
    }

    /// The names, lent.
    ///
    /// ```
    /// let names = handle.tree_names(rt)?;
    /// let count = names.as_slice().len();
    /// ```
    pub fn as_slice(&self) -> &[IVec]
        ensures { result.now ≡ self.now }
    {
        self.names.as_slice()
    }

    // The same names, shared. Refused with `NoMemory` alone.
    pub(crate) fn clone(&self) -> Result<Names>
        ensures ok { IfOk result (λ copy. copy ≡ self.now) }
        ensures err { IfErr result (λ e. e ≡ NoMemory) }
    {
        Ok(Names {
            names: Arc::try_clone(&self.names)?,
        })
    }
}

impl PartialEq for Names {
    ghost eq = { pointwise bytes_eq };

    ghost laws = { partial_equiv_from_equiv (lists_equiv nat_list_eq_equiv) };

    fn eq(&self, other: &Names) -> bool {
        self.as_slice() == other.as_slice()
    }
}

impl Eq for Names {
    ghost laws = { lists_equiv nat_list_eq_equiv };
}

// By hand, as of pairs.
impl Drop for Names {
    fn drop(self) {
        let Names { names } = self;
        drop(names);
    }
}

/// The collection of every tree, as an export gives them.
pub struct Collections {
    all: Arc<Vec<Collection>>,
}

impl Model for Collections {
    ghost use Rattle.std.specs.Prelude.{List};
    ghost use Rattle.sled_model.specs.Collections.{Content, contents_of};

    ghost Value = { List Content };

    ghost view = { λ c. contents_of c.all.value.items };
}

impl Collections {
    // These collections.
    pub(crate) fn new(alloc: Global, all: Vec<Collection>) -> Result<Collections>
        ensures ok { IfOk result (λ made. made ≡ contents_of all.items) }
        ensures err { IfErr result (λ e. e ≡ NoMemory) }
    {
        Ok(Collections {
            all: Arc::new(alloc, all)?,
        })
    }

    /// The collections, lent.
    ///
    /// ```
    /// let all = handle.export(rt)?;
    /// for collection in all.as_slice() {
    ///     let count = collection.2.len(); // So many pairs has the tree whose name is `collection.1`.
    /// }
    /// ```
    pub fn as_slice(&self) -> &[Collection]
        ensures { contents_of result.now ≡ self.now }
    {
        self.all.as_slice()
    }

    // The same collections, shared. Refused with `NoMemory` alone.
    pub(crate) fn clone(&self) -> Result<Collections>
        ensures ok { IfOk result (λ copy. copy ≡ self.now) }
        ensures err { IfErr result (λ e. e ≡ NoMemory) }
    {
        Ok(Collections {
            all: Arc::try_clone(&self.all)?,
        })
    }
}

impl PartialEq for Collections {
    ghost eq = { pointwise (λ a b. (bytes_eq a.0 b.0 && bytes_eq a.1 b.1) && pointwise (λ p q. bytes_eq p.0 q.0 && bytes_eq p.1 q.1) a.2 b.2) };

    ghost laws = { partial_equiv_from_equiv (lists_equiv (and_equiv (and_equiv (on_equiv (λ c. c.0) nat_list_eq_equiv) (on_equiv (λ c. c.1) nat_list_eq_equiv)) (on_equiv (λ c. c.2) (lists_equiv (and_equiv (on_equiv (λ p. p.0) nat_list_eq_equiv) (on_equiv (λ p. p.1) nat_list_eq_equiv)))))) };

    fn eq(&self, other: &Collections) -> bool {
        self.as_slice() == other.as_slice()
    }
}

impl Eq for Collections {
    ghost laws = { lists_equiv (and_equiv (and_equiv (on_equiv (λ c. c.0) nat_list_eq_equiv) (on_equiv (λ c. c.1) nat_list_eq_equiv)) (on_equiv (λ c. c.2) (lists_equiv (and_equiv (on_equiv (λ p. p.0) nat_list_eq_equiv) (on_equiv (λ p. p.1) nat_list_eq_equiv))))) };
}

// By hand, as of pairs.
impl Drop for Collections {
    fn drop(self) {
        let Collections { all } = self;
        drop(all);
    }
}
