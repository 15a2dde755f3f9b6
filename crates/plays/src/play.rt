// A play of the input, little-endian: eighteen numbers, the entries of both plugins' registers, memory, its taint bytes, and the
// turns. It is read into buffers of a fixed size, which its sizes are tested against.
use crate::Lines;
use crate::plugin::{ENTRY, Plugin};
use crate::turn::Stage;
use fields::Halt;
use machine::Monitor;
use plan::Range;

pub fn replay(
    rt: &(impl Input + Print + Eprint),
    number: u64,
    head: &[u8],
    lines: &mut Lines,
) -> Result<(), Halt> {
    let [
        memory_size,
        taint_size,
        first_entries,
        second_entries,
        turns,
        origin,
        shared_address,
        shared_length,
        first_address,
        first_length,
        second_address,
        second_length,
        first_pc,
        first_monitor,
        first_size,
        second_pc,
        second_monitor,
        second_size,
    ]: [u64; 18] = fields::numbers(head);
    let mut memory = [0u8; 256];
    let mut taint = [0u8; 256];
    let mut first = [0u8; 32 * ENTRY];
    let mut second = [0u8; 32 * ENTRY];
    let memory = memory
        .get_mut(..memory_size as usize)
        .ok_or(Halt::TooLarge)?;
    let taint = taint.get_mut(..taint_size as usize).ok_or(Halt::TooLarge)?;
    let first = entries(&mut first, first_entries)?;
    let second = entries(&mut second, second_entries)?;
    fields::fill(rt, first)?;
    fields::fill(rt, second)?;
    fields::fill(rt, memory)?;
    fields::fill(rt, taint)?;
    let mut stage = Stage {
        origin,
        shared: Range {
            address: shared_address,
            length: shared_length,
        },
        first_range: Range {
            address: first_address,
            length: first_length,
        },
        second_range: Range {
            address: second_address,
            length: second_length,
        },
        first: Plugin::read(
            first_pc,
            Monitor {
                address: first_monitor,
                size: first_size,
            },
            first,
        ),
        second: Plugin::read(
            second_pc,
            Monitor {
                address: second_monitor,
                size: second_size,
            },
            second,
        ),
        memory,
        taint,
    };
    for _ in 0..turns {
        stage.take_turn(rt, number, lines)?;
    }
    Ok(())
}

// Room for so many entries.
fn entries(bytes: &mut [u8], count: u64) -> Result<&mut [u8], Halt> {
    let size = (count as usize).saturating_mul(ENTRY);
    bytes.get_mut(..size).ok_or(Halt::TooLarge)
}
