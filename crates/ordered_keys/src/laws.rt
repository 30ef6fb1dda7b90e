//! What holds of all keys of a shape. The functions do nothing: each has a law as its contract.
ghost use Rattle.ordered_keys.specs.Keys.{KeepsOrder, IsOneToOne, KeepsPrefixes};

/// Does nothing. The spelled bytes of two keys of a shape, or of first parts of them, are in the order of the parts: the
/// first part that differs decides, and a prefix is less than what it is a prefix of.
pub fn law_order()
    ensures { KeepsOrder }
{}

/// Does nothing. No key of a shape begins another, so bytes spell one key at most, whatever follows it.
pub fn law_one_to_one()
    ensures { IsOneToOne }
{}

/// Does nothing. A key's bytes begin with the spelled first parts of some key of its shape exactly if its first parts are those.
/// So all keys with these first parts are those with one prefix.
pub fn law_prefixes()
    ensures { KeepsPrefixes }
{}
