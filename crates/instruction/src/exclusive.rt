// The operations of the ninth family, and the bytes that each moves: 02, CR 3.
ghost use Rattle.std.specs.Prelude.{◌≡◌, ◌<◌};
ghost use Rattle.instruction.specs.Operations.{exclusive_code, exclusive_at, store_exclusive_code, store_exclusive_at, access_scale, access_bytes, size_at};

// The bytes of an access that has its size apart from its operation.
#[derive(Clone, Copy, PartialEq, Eq)]
pub enum AccessSize {
    Byte,
    Half,
    Word,
    Double,
}

// Of ldxr, ldaxr, stlr and ldar.
#[derive(Clone, Copy, PartialEq, Eq)]
pub enum ExclusiveOp {
    LoadExclusive,
    LoadAcquireExclusive,
    StoreRelease,
    LoadAcquire,
}

// Of stxr and stlxr, which have a status register.
#[derive(Clone, Copy, PartialEq, Eq)]
pub enum StoreExclusiveOp {
    StorePlainExclusive,
    StoreReleaseExclusive,
}

// Bit 23, L and bit 15 of a word side by side.
pub fn exclusive_code(op: ExclusiveOp) -> u32
    ensures { (result ≡ exclusive_code op) × (result < 8) }
{
    match op {
        ExclusiveOp::LoadExclusive => 0b010,
        ExclusiveOp::LoadAcquireExclusive => 0b011,
        ExclusiveOp::StoreRelease => 0b101,
        ExclusiveOp::LoadAcquire => 0b111,
    }
}

// The same bits of a store-exclusive.
pub fn store_exclusive_code(op: StoreExclusiveOp) -> u32
    ensures { (result ≡ store_exclusive_code op) × (result < 8) }
{
    match op {
        StoreExclusiveOp::StorePlainExclusive => 0b000,
        StoreExclusiveOp::StoreReleaseExclusive => 0b001,
    }
}

// The size field of a word, and the bytes of an access as a power of two.
pub fn access_scale(size: AccessSize) -> u32
    ensures { (result ≡ access_scale size) × (result < 4) }
{
    match size {
        AccessSize::Byte => 0,
        AccessSize::Half => 1,
        AccessSize::Word => 2,
        AccessSize::Double => 3,
    }
}

// The bytes of an access of a size.
pub fn access_bytes(size: AccessSize) -> u32
    ensures { result ≡ access_bytes size }
{
    1 << access_scale(size)
}

// The operation of a code, which is one of its row.
#[tactic(auto, unfolding(crate::specs::Operations::exclusive_at))]
pub fn exclusive_at(code: u32) -> ExclusiveOp
    ensures { result ≡ exclusive_at code }
{
    match code {
        0b010 => ExclusiveOp::LoadExclusive,
        0b011 => ExclusiveOp::LoadAcquireExclusive,
        0b101 => ExclusiveOp::StoreRelease,
        _ => ExclusiveOp::LoadAcquire,
    }
}

#[tactic(auto, unfolding(crate::specs::Operations::store_exclusive_at))]
pub fn store_exclusive_at(code: u32) -> StoreExclusiveOp
    ensures { result ≡ store_exclusive_at code }
{
    match code {
        0b000 => StoreExclusiveOp::StorePlainExclusive,
        _ => StoreExclusiveOp::StoreReleaseExclusive,
    }
}

// The size of a size field.
#[tactic(auto, unfolding(crate::specs::Operations::size_at))]
pub fn size_at(scale: u32) -> AccessSize
    ensures { result ≡ size_at scale }
{
    match scale {
        0 => AccessSize::Byte,
        1 => AccessSize::Half,
        2 => AccessSize::Word,
        _ => AccessSize::Double,
    }
}
