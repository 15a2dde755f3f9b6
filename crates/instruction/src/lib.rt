// What an instruction is: the types, all by value. What words and instructions say of each other is
// defined in specs/.
#![tactic(auto)]

mod answer;
mod exclusive;
mod family;
mod operation;
mod row;

pub use answer::{Answer, Decoded, answer_number};
pub use exclusive::{
    AccessSize, ExclusiveOp, StoreExclusiveOp, access_bytes, access_scale, exclusive_at,
    exclusive_code, size_at, store_exclusive_at, store_exclusive_code,
};
pub use family::{
    ExclusiveOperands, Family, IndexOperands, Instruction, LiteralOperands, OffsetOperands,
    PairOperands, StoreExclusiveOperands,
};
pub use operation::{
    LiteralOp, PairMode, PairOp, SizedOp, literal_at, literal_code, literal_opc, literal_vector,
    mode_at, mode_code, opc_field, pair_at, pair_bytes, pair_code, pair_load, pair_opc,
    pair_vector, scale, size_field, sized_at, sized_bytes, sized_code, sized_stores, vector_field,
};
pub use row::Row;
