// The undefined words of each row.
ghost use Rattle.std.specs.Prelude.{◌≡◌};
ghost use Rattle.instruction.specs.Undefined.{undefined_size, undefined_prefetch, undefined_option, undefined_literal, undefined_pair, undefined_second, undefined_unused};

#[tactic(auto, unfolding(instruction::specs::Undefined::undefined_size, bits::specs::Fields::part))]
pub(crate) fn in_size(word: u32) -> bool
    ensures { result ≡ undefined_size word }
{
    let code = word / 0x400_0000 % 2 * 16 + word / 0x4000_0000 % 4 * 4 + word / 0x40_0000 % 4;
    matches!(
        code,
        0b0_10_11
            | 0b0_11_11
            | 0b1_01_10
            | 0b1_01_11
            | 0b1_10_10
            | 0b1_10_11
            | 0b1_11_10
            | 0b1_11_11
    )
}

#[tactic(auto, unfolding(instruction::specs::Undefined::undefined_prefetch, bits::specs::Fields::part))]
pub(crate) fn without_prefetch(word: u32) -> bool
    ensures { result ≡ undefined_prefetch word }
{
    let code = word / 0x400_0000 % 2 * 16 + word / 0x4000_0000 % 4 * 4 + word / 0x40_0000 % 4;
    in_size(word) | (code == 0b0_11_10)
}

#[tactic(auto, unfolding(instruction::specs::Undefined::undefined_option, bits::specs::Fields::part))]
pub(crate) fn in_register(word: u32) -> bool
    ensures { result ≡ undefined_option word }
{
    in_size(word) | (word / 0x4000 % 2 == 0)
}

#[tactic(auto, unfolding(instruction::specs::Undefined::undefined_literal, bits::specs::Fields::part))]
pub(crate) fn in_literal(word: u32) -> bool
    ensures { result ≡ undefined_literal word }
{
    word / 0x400_0000 % 2 * 4 + word / 0x4000_0000 % 4 == 0b1_11
}

#[tactic(auto, unfolding(instruction::specs::Undefined::undefined_pair, bits::specs::Fields::part))]
pub(crate) fn in_pair(word: u32) -> bool
    ensures { result ≡ undefined_pair word }
{
    let opc = word / 0x4000_0000 % 4;
    let loads = word / 0x40_0000 % 2 == 1;
    let allocates = word / 0x80_0000 % 4 != 0b00;
    let general = word / 0x400_0000 % 2 == 0;
    (opc == 0b11) | ((general & (opc == 0b01)) & !(loads & allocates))
}

#[tactic(auto, unfolding(instruction::specs::Undefined::undefined_second, bits::specs::Fields::part))]
pub fn in_store_exclusive(word: u32) -> bool
    ensures { result ≡ undefined_second word }
{
    word / 0x400 % 32 != 31
}

#[tactic(auto, unfolding(instruction::specs::Undefined::undefined_unused, bits::specs::Fields::part))]
pub fn in_exclusive(word: u32) -> bool
    ensures { result ≡ undefined_unused word }
{
    in_store_exclusive(word) | (word / 0x1_0000 % 32 != 31)
}
