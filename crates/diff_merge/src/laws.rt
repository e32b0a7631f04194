//! Laws of the order of keys. The function does nothing; its contract has the laws.

ghost use Rattle.diff_joins.specs.Merge.{IsOrder};
ghost use Rattle.diff_merge.specs.Order.{OrdersByCells, TellsKeys, key_less};

/// Law: the byte order of keys is the order of the rows by their key cells. The first key column
/// decides, equal cells are decided by the next column, and cells are compared byte by byte. Of two
/// different keys one is less, so sorted tables can be merged by this order.
pub fn law_order()
    ensures order { IsOrder key_less }
    ensures tells { TellsKeys }
    ensures cells { OrdersByCells }
{}
