// The words of answer 4: writeback over a register of the access, a pair load into one register twice, and a status over a
// register of the access.
ghost use Rattle.std.specs.Prelude.{◌≡◌};
ghost use Rattle.instruction.specs.Unpredictable.{base_is, over_base, unpredictable_pair, unpredictable_status};

// Rn is a register of the access, and not SP.
#[tactic(auto, unfolding(instruction::specs::Unpredictable::base_is, bits::specs::Fields::part))]
fn base_is(register: u32, word: u32) -> bool
    ensures { result ≡ base_is register word }
{
    let base = word / 32 % 32;
    (base != 31) & (base == register)
}

// Writeback over a general register of the access.
#[tactic(auto, unfolding(instruction::specs::Unpredictable::over_base, bits::specs::Fields::part))]
pub fn over_base(register: u32, word: u32) -> bool
    ensures { result ≡ over_base register word }
{
    (word / 0x400_0000 % 2 == 0) & base_is(register, word)
}

#[tactic(auto, unfolding(instruction::specs::Unpredictable::unpredictable_pair, bits::specs::Fields::part))]
pub fn in_pair(word: u32) -> bool
    ensures { result ≡ unpredictable_pair word }
{
    let first = over_base(word / 1 % 32, word);
    let second = over_base(word / 0x400 % 32, word);
    let twice = word / 1 % 32 == word / 0x400 % 32;
    ((word / 0x80_0000 % 2 == 1) & (first | second)) | ((word / 0x40_0000 % 2 == 1) & twice)
}

#[tactic(auto, unfolding(instruction::specs::Unpredictable::unpredictable_status, bits::specs::Fields::part))]
pub fn in_store_exclusive(word: u32) -> bool
    ensures { result ≡ unpredictable_status word }
{
    let base = base_is(word / 0x1_0000 % 32, word);
    (word / 0x1_0000 % 32 == word / 1 % 32) | base
}
