// A case of the input: its head of five numbers, the text, and memory with its taints. It is read into buffers of a fixed size,
// which its sizes are tested against.
use crate::Lines;
use fields::Halt;

pub fn answer(
    rt: &(impl Input + Print + Eprint),
    number: u64,
    head: &[u8],
    lines: &mut Lines,
) -> Result<(), Halt> {
    let [given, length, taints, origin, readonly]: [u64; 5] = fields::numbers(head);
    let mut text = [0u8; 4096];
    let mut memory = [0u8; 512];
    let mut taint = [0u8; 512];
    let text = text.get_mut(..given as usize).ok_or(Halt::TooLarge)?;
    let memory = memory.get_mut(..length as usize).ok_or(Halt::TooLarge)?;
    let taint = taint.get_mut(..taints as usize).ok_or(Halt::TooLarge)?;
    // Each part is asked for, also where one before it was cut short.
    let text_came = fields::fill(rt, text);
    let memory_came = fields::fill(rt, memory);
    let taint_came = fields::fill(rt, taint);
    text_came.and(memory_came).and(taint_came)?;
    let reply = image::milestarling_import(text, origin, readonly, memory, taint);
    lines.put_name(number);
    lines.put_byte(b'\n');
    lines.put_numbers(b"import", &[reply.answer, reply.line]);
    lines.put_bytes(b"memory", memory);
    lines.put_bytes(b"taint", taint);
    lines.write(rt)?;
    Ok(())
}
