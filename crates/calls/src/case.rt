// A case of the input: its head, and the bytes that are given. It is read into buffers of a fixed size, which its sizes are
// tested against.
use crate::head::Head;
use crate::{Lines, call};
use fields::Halt;

pub fn answer(
    rt: &(impl Input + Print + Eprint),
    number: u64,
    head: &[u8],
    lines: &mut Lines,
) -> Result<(), Halt> {
    let head = Head::read(head);
    let mut bytes = [0u8; 1024];
    let mut buffer = [u8::MAX; 512];
    let given = bytes.get_mut(..head.given).ok_or(Halt::TooLarge)?;
    let room = buffer.get_mut(..head.room).ok_or(Halt::TooLarge)?;
    fields::fill(rt, given)?;
    lines.put_name(number);
    lines.put_byte(b'\n');
    call::put_call(lines, &head, given, room);
    lines.write(rt)?;
    Ok(())
}
