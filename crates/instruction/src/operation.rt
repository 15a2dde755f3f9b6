// The operations of the families, and the bytes that each moves. A code and its operation lead to each other by two matches for
// each type: a trait would gather them and save none, since no function here is the same for two types.
ghost use Rattle.std.specs.Prelude.{◌≡◌, ◌<◌};
ghost use Rattle.instruction.specs.Operations.{sized_code, vector_of, size_of, opc_of, scale_of, sized_stores, sized_bytes, sized_at, literal_code, literal_vector, literal_opc, literal_at, pair_code, pair_vector, pair_opc, pair_load, pair_bytes, pair_at, mode_code, mode_at};

// A size with an opc. A signed load extends to 64 bits, or to 32 with zeros above. The last ten move a vector register's
// low 1, 2, 4 or 8 bytes, or all 16.
#[derive(Clone, Copy, PartialEq, Eq)]
pub enum SizedOp {
    StoreByte,
    LoadByte,
    LoadSignedByte64,
    LoadSignedByte32,
    StoreHalf,
    LoadHalf,
    LoadSignedHalf64,
    LoadSignedHalf32,
    StoreWord,
    LoadWord,
    LoadSignedWord64,
    StoreDouble,
    LoadDouble,
    Prefetch,
    StoreVectorByte,
    LoadVectorByte,
    StoreVectorQuad,
    LoadVectorQuad,
    StoreVectorHalf,
    LoadVectorHalf,
    StoreVectorWord,
    LoadVectorWord,
    StoreVectorDouble,
    LoadVectorDouble,
}

#[derive(Clone, Copy, PartialEq, Eq)]
pub enum LiteralOp {
    LiteralWord,
    LiteralDouble,
    LiteralSignedWord,
    LiteralPrefetch,
    LiteralVectorWord,
    LiteralVectorDouble,
    LiteralVectorQuad,
}

#[derive(Clone, Copy, PartialEq, Eq)]
pub enum PairOp {
    StoreWords,
    LoadWords,
    LoadSignedWords,
    StoreDoubles,
    LoadDoubles,
    StoreVectorWords,
    LoadVectorWords,
    StoreVectorDoubles,
    LoadVectorDoubles,
    StoreVectorQuads,
    LoadVectorQuads,
}

#[derive(Clone, Copy, PartialEq, Eq)]
pub enum PairMode {
    NoAllocate,
    Post,
    Offset,
    Pre,
}

// Bit 26, size and opc side by side. A prefetch has the size of a doubleword, a vector's 16 bytes that of a byte.
pub fn sized_code(op: SizedOp) -> u32
    ensures { (result ≡ sized_code op) × (result < 32) }
{
    match op {
        SizedOp::StoreByte => 0b00_00,
        SizedOp::LoadByte => 0b00_01,
        SizedOp::LoadSignedByte64 => 0b00_10,
        SizedOp::LoadSignedByte32 => 0b00_11,
        SizedOp::StoreHalf => 0b01_00,
        SizedOp::LoadHalf => 0b01_01,
        SizedOp::LoadSignedHalf64 => 0b01_10,
        SizedOp::LoadSignedHalf32 => 0b01_11,
        SizedOp::StoreWord => 0b10_00,
        SizedOp::LoadWord => 0b10_01,
        SizedOp::LoadSignedWord64 => 0b10_10,
        SizedOp::StoreDouble => 0b11_00,
        SizedOp::LoadDouble => 0b11_01,
        SizedOp::Prefetch => 0b11_10,
        SizedOp::StoreVectorByte => 0b1_00_00,
        SizedOp::LoadVectorByte => 0b1_00_01,
        SizedOp::StoreVectorQuad => 0b1_00_10,
        SizedOp::LoadVectorQuad => 0b1_00_11,
        SizedOp::StoreVectorHalf => 0b1_01_00,
        SizedOp::LoadVectorHalf => 0b1_01_01,
        SizedOp::StoreVectorWord => 0b1_10_00,
        SizedOp::LoadVectorWord => 0b1_10_01,
        SizedOp::StoreVectorDouble => 0b1_11_00,
        SizedOp::LoadVectorDouble => 0b1_11_01,
    }
}

// The operation with these bits; an undefined code gives a prefetch.
#[tactic(auto, unfolding(crate::specs::Operations::sized_at))]
pub fn sized_at(code: u32) -> SizedOp
    ensures { result ≡ sized_at code }
{
    match code {
        0b00_00 => SizedOp::StoreByte,
        0b00_01 => SizedOp::LoadByte,
        0b00_10 => SizedOp::LoadSignedByte64,
        0b00_11 => SizedOp::LoadSignedByte32,
        0b01_00 => SizedOp::StoreHalf,
        0b01_01 => SizedOp::LoadHalf,
        0b01_10 => SizedOp::LoadSignedHalf64,
        0b01_11 => SizedOp::LoadSignedHalf32,
        0b10_00 => SizedOp::StoreWord,
        0b10_01 => SizedOp::LoadWord,
        0b10_10 => SizedOp::LoadSignedWord64,
        0b11_00 => SizedOp::StoreDouble,
        0b11_01 => SizedOp::LoadDouble,
        0b1_00_00 => SizedOp::StoreVectorByte,
        0b1_00_01 => SizedOp::LoadVectorByte,
        0b1_00_10 => SizedOp::StoreVectorQuad,
        0b1_00_11 => SizedOp::LoadVectorQuad,
        0b1_01_00 => SizedOp::StoreVectorHalf,
        0b1_01_01 => SizedOp::LoadVectorHalf,
        0b1_10_00 => SizedOp::StoreVectorWord,
        0b1_10_01 => SizedOp::LoadVectorWord,
        0b1_11_00 => SizedOp::StoreVectorDouble,
        0b1_11_01 => SizedOp::LoadVectorDouble,
        _ => SizedOp::Prefetch,
    }
}

// Bit 26 of a word: 1 where the registers moved are vectors.
pub fn vector_field(op: SizedOp) -> u32
    ensures { (result ≡ vector_of op) × (result < 2) }
{
    sized_code(op) / 16
}

// The size field of a word.
pub fn size_field(op: SizedOp) -> u32
    ensures { (result ≡ size_of op) × (result < 4) }
{
    sized_code(op) / 4 % 4
}

// The opc field of a word.
pub fn opc_field(op: SizedOp) -> u32
    ensures { (result ≡ opc_of op) × (result < 4) }
{
    sized_code(op) % 4
}

// The bytes of an access as a power of two.
pub fn scale(op: SizedOp) -> u32
    ensures { (result ≡ scale_of op) × (result < 5) }
{
    match op {
        SizedOp::StoreVectorQuad | SizedOp::LoadVectorQuad => 4,
        _ => size_field(op),
    }
}

// Whether it stores.
pub fn sized_stores(op: SizedOp) -> bool
    ensures { result ≡ sized_stores op }
{
    if vector_field(op) == 1 {
        opc_field(op) % 2 == 0
    } else {
        opc_field(op) == 0b00
    }
}

// The bytes of an access.
pub fn sized_bytes(op: SizedOp) -> u32
    ensures { result ≡ sized_bytes op }
{
    1 << scale(op)
}

// Bit 26 and the opc of a literal side by side.
pub fn literal_code(op: LiteralOp) -> u32
    ensures { (result ≡ literal_code op) × (result < 7) }
{
    match op {
        LiteralOp::LiteralWord => 0b00,
        LiteralOp::LiteralDouble => 0b01,
        LiteralOp::LiteralSignedWord => 0b10,
        LiteralOp::LiteralPrefetch => 0b11,
        LiteralOp::LiteralVectorWord => 0b1_00,
        LiteralOp::LiteralVectorDouble => 0b1_01,
        LiteralOp::LiteralVectorQuad => 0b1_10,
    }
}

// Bit 26 of a literal.
pub fn literal_vector(op: LiteralOp) -> u32
    ensures { (result ≡ literal_vector op) × (result < 2) }
{
    literal_code(op) / 4
}

// The opc field of a literal.
pub fn literal_opc(op: LiteralOp) -> u32
    ensures { (result ≡ literal_opc op) × (result < 4) }
{
    literal_code(op) % 4
}

// The literal with these bits; an undefined code gives a prefetch.
#[tactic(auto, unfolding(crate::specs::Operations::literal_at))]
pub fn literal_at(code: u32) -> LiteralOp
    ensures { result ≡ literal_at code }
{
    match code {
        0b00 => LiteralOp::LiteralWord,
        0b01 => LiteralOp::LiteralDouble,
        0b10 => LiteralOp::LiteralSignedWord,
        0b1_00 => LiteralOp::LiteralVectorWord,
        0b1_01 => LiteralOp::LiteralVectorDouble,
        0b1_10 => LiteralOp::LiteralVectorQuad,
        _ => LiteralOp::LiteralPrefetch,
    }
}

// Bit 26, opc and L of a pair side by side.
pub fn pair_code(op: PairOp) -> u32
    ensures { (result ≡ pair_code op) × (result < 14) }
{
    match op {
        PairOp::StoreWords => 0b00_0,
        PairOp::LoadWords => 0b00_1,
        PairOp::LoadSignedWords => 0b01_1,
        PairOp::StoreDoubles => 0b10_0,
        PairOp::LoadDoubles => 0b10_1,
        PairOp::StoreVectorWords => 0b1_00_0,
        PairOp::LoadVectorWords => 0b1_00_1,
        PairOp::StoreVectorDoubles => 0b1_01_0,
        PairOp::LoadVectorDoubles => 0b1_01_1,
        PairOp::StoreVectorQuads => 0b1_10_0,
        PairOp::LoadVectorQuads => 0b1_10_1,
    }
}

// The pair with these bits; an undefined code gives a load of doublewords.
#[tactic(auto, unfolding(crate::specs::Operations::pair_at))]
pub fn pair_at(code: u32) -> PairOp
    ensures { result ≡ pair_at code }
{
    match code {
        0b00_0 => PairOp::StoreWords,
        0b00_1 => PairOp::LoadWords,
        0b01_1 => PairOp::LoadSignedWords,
        0b10_0 => PairOp::StoreDoubles,
        0b1_00_0 => PairOp::StoreVectorWords,
        0b1_00_1 => PairOp::LoadVectorWords,
        0b1_01_0 => PairOp::StoreVectorDoubles,
        0b1_01_1 => PairOp::LoadVectorDoubles,
        0b1_10_0 => PairOp::StoreVectorQuads,
        0b1_10_1 => PairOp::LoadVectorQuads,
        _ => PairOp::LoadDoubles,
    }
}

// Bit 26 of a pair.
pub fn pair_vector(op: PairOp) -> u32
    ensures { (result ≡ pair_vector op) × (result < 2) }
{
    pair_code(op) / 8
}

// The opc field of a pair.
pub fn pair_opc(op: PairOp) -> u32
    ensures { (result ≡ pair_opc op) × (result < 4) }
{
    pair_code(op) / 2 % 4
}

// The L field of a pair: 1 where it loads.
pub fn pair_load(op: PairOp) -> u32
    ensures { (result ≡ pair_load op) × (result < 2) }
{
    pair_code(op) % 2
}

// The bytes of one register of a pair.
pub fn pair_bytes(op: PairOp) -> u32
    ensures { result ≡ pair_bytes op }
{
    match pair_opc(op) {
        opc if pair_vector(op) == 1 => 4 << opc,
        0b10 => 8,
        _ => 4,
    }
}

// The mode field of a pair.
pub fn mode_code(mode: PairMode) -> u32
    ensures { (result ≡ mode_code mode) × (result < 4) }
{
    match mode {
        PairMode::NoAllocate => 0b00,
        PairMode::Post => 0b01,
        PairMode::Offset => 0b10,
        PairMode::Pre => 0b11,
    }
}

#[tactic(auto, unfolding(crate::specs::Operations::mode_at))]
pub fn mode_at(mode: u32) -> PairMode
    ensures { result ≡ mode_at mode }
{
    match mode {
        0b00 => PairMode::NoAllocate,
        0b01 => PairMode::Post,
        0b10 => PairMode::Offset,
        _ => PairMode::Pre,
    }
}
