// A case of the input: its head, three numbers of 64 bits, little-endian, which are how many bytes are given, and how many the
// lent output and the lent report have; and the bytes. It is read into buffers of a fixed size, which its sizes are tested
// against.
use crate::Lines;
use fields::Halt;

// What a case has at most: bytes that are given, and of each lent buffer.
const MOST: usize = 16384;

pub fn answer(
    rt: &(impl Input + Print + Eprint),
    number: u64,
    head: &[u8],
    lines: &mut Lines,
) -> Result<(), Halt> {
    let [given, room, space]: [u64; 3] = fields::numbers(head);
    let mut bytes = [0u8; MOST];
    let mut output = [u8::MAX; MOST];
    let mut report = [u8::MAX; MOST];
    let input = bytes.get_mut(..given as usize).ok_or(Halt::TooLarge)?;
    let output = output.get_mut(..room as usize).ok_or(Halt::TooLarge)?;
    let report = report.get_mut(..space as usize).ok_or(Halt::TooLarge)?;
    fields::fill(rt, input)?;
    lines.put_name(number);
    lines.put_byte(b'\n');
    put_rescue(lines, input, output, report);
    lines.write(rt)?;
    Ok(())
}

// What is said, what is put out, the report, and the bytes behind both.
fn put_rescue(lines: &mut Lines, input: &[u8], output: &mut [u8], report: &mut [u8]) {
    let reply = rescue::milestarling_rescue(input, output, report);
    lines.put_numbers(
        b"rescue",
        &[reply.answer, reply.length, reply.report_length],
    );
    put_left(lines, output, reply.length as usize);
    put_left(lines, report, reply.report_length as usize);
}

// The text that a buffer begins with, as it is, and the bytes behind it.
fn put_left(lines: &mut Lines, buffer: &[u8], length: usize) {
    match buffer.split_at_checked(length) {
        Some((text, rest)) => {
            lines.put_text(text);
            lines.put_bytes(b"rest", rest);
        }
        None => lines.put_text(b"too long\n"),
    }
}
