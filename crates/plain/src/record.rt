// The numbers of an instruction.

// A field that the family hasn't got is 0.
#[repr(C)]
#[derive(Clone, Copy, Default, PartialEq, Eq)]
pub struct Plain {
    // 1 to 9 in the order of 01's table, and 0 for the empty instruction.
    pub family: u32,
    // The code of the operation in its family.
    pub operation: u32,
    // 1 for a load, 2 for a store, and 0 where no byte is moved.
    pub direction: u32,
    // All that the access moves, both registers of a pair together.
    pub bytes: u32,
    // Rt, or the hint of a prefetch.
    pub target: u32,
    // Rt2 of a pair.
    pub second: u32,
    // Rn.
    pub base: u32,
    // Rm, with its option and S.
    pub index: u32,
    pub option: u32,
    pub scaled: u32,
    // The mode of a pair.
    pub mode: u32,
    // Rs of a store-exclusive.
    pub status: u32,
    pub offset: i64,
}
