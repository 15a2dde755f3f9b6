// The rows of 01's table of instructions, which it calls lines, and of 02's: which words are of the set.

// NoRow stands in the place of an Option's None: `columns_of` gives it columns that no word has, and the theorems on the table
// of the second decoder, `entry_names` and `entry_code`, speak of it.
#[derive(Drop)]
pub enum Row {
    NoRow,
    LiteralRow,
    PairRow,
    OrderedRow,
    UnscaledRow,
    PostRow,
    PreRow,
    RegisterRow,
    UnsignedRow,
    LoadExclusiveRow,
    StoreExclusiveRow,
    AcquireReleaseRow,
}
