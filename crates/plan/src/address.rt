// The address of an access, from what its registers hold.
ghost use Rattle.std.specs.Prelude.{◌≡◌};
ghost use Rattle.bits.specs.Choice.{pick};
ghost use Rattle.plan.specs.Address.{index_of, shifted_of, sum_of};

use crate::operands::Operands;
use access::Addressing;

// The base with the offset and the index added.
#[tactic(auto, unfolding(crate::specs::Address::sum_of))]
pub fn sum(a: Addressing, o: Operands) -> u64
    ensures { result ≡ sum_of a o }
{
    let index = shifted(a.option, a.shift, o.index);
    o.base.wrapping_add(a.offset.wrapping_add(index))
}

#[tactic(auto, unfolding(crate::specs::Address::shifted_of))]
fn shifted(option: u32, shift: u32, register: u64) -> u64
    ensures { result ≡ shifted_of option shift register }
{
    index(option, register).wrapping_shl(shift)
}

#[tactic(auto, unfolding(crate::specs::Address::index_of))]
fn index(option: u32, register: u64) -> u64
    ensures { result ≡ index_of option register }
{
    let low = register % 0x1_0000_0000;
    match option {
        0b010 => low,
        0b110 => bits::extended(low, 4, 8),
        _ => register,
    }
}

pub fn first_byte(post: bool, base: u64, sum: u64) -> u64
    ensures { result ≡ pick post base sum }
{
    if post { base } else { sum }
}
