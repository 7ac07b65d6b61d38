//! Laws: what holds of every partial row.
ghost use Rattle.search_query.specs.Laws.{RowsHaveTheKeys};

/// The data of a partial row has exactly the keys of the partial search, in their order.
pub fn rows_have_the_keys()
    ensures { RowsHaveTheKeys }
{}
