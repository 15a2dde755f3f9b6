// The lines of a plugin after its turn. Registers that are 0 and untainted aren't shown, so that a line has few.
use crate::Lines;
use crate::plugin::Plugin;
use host::RunReply;
use registers::Registers;

pub fn put_ran(lines: &mut Lines, number: u64, who: u64, ran: RunReply) {
    lines.put_name(number);
    let pc = ran.session.pc;
    lines.put_numbers(
        b"",
        &[who, ran.steps, ran.answer, ran.code, ran.address, pc],
    );
}

pub fn put_plugin(lines: &mut Lines, plugin: &Plugin) {
    put_registers(lines, &plugin.state.registers);
    put_vectors(lines, &plugin.vectors, &plugin.vector_taint);
}

// Each with its number.
fn put_registers(lines: &mut Lines, file: &Registers) {
    lines.put_text(b"registers");
    for (n, (value, taints)) in file.value.iter().zip(file.taint.iter()).enumerate() {
        if *value != 0 || *taints != 0 {
            lines.put_field(n as u64);
            lines.put_register(*value, *taints);
        }
    }
    lines.put_byte(b'\n');
}

fn put_vectors(lines: &mut Lines, vectors: &[[u64; 2]; 32], vector_taint: &[[u64; 2]; 32]) {
    lines.put_text(b"vectors");
    for (n, (value, taints)) in vectors.iter().zip(vector_taint.iter()).enumerate() {
        if *value != [0, 0] || *taints != [0, 0] {
            lines.put_field(n as u64);
            lines.put_vector(*value, *taints);
        }
    }
    lines.put_byte(b'\n');
}
