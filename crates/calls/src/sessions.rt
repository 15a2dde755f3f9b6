// A session's record, with a register set by the library, and with its monitor opened or told of a store. Its registers with
// their taints are the bytes that are given; or these are the vector registers with theirs, of which one is read or set.
use crate::Lines;
use crate::head::Head;
use machine::{Monitor, State};

pub fn put_set_register(lines: &mut Lines, head: &Head, given: &[u8]) {
    let [_, _, _, n, ..] = head.words();
    let [_, _, _, _, value, marks, ..] = head.numbers;
    let after = lending::set_register(state_of(head, given), n, value, marks);
    put_state(lines, b"set_register", after);
}

pub fn put_opened(lines: &mut Lines, head: &Head, given: &[u8]) {
    let after = session::milestarling_opened(state_of(head, given));
    put_state(lines, b"opened", after);
}

pub fn put_observed(lines: &mut Lines, head: &Head, given: &[u8]) {
    let [_, _, _, code, address, status, ..] = head.numbers;
    let after = session::milestarling_observed(state_of(head, given), code, address, status);
    put_state(lines, b"observed", after);
}

pub fn put_vector(lines: &mut Lines, head: &Head, given: &[u8]) {
    let [n, ..] = head.words();
    let vectors = fields::vectors(given);
    let vector_taint = fields::vector_taint(given);
    let read = session::milestarling_vector(n, &vectors, &vector_taint);
    let said = [read.low, read.high, read.taint_low, read.taint_high];
    lines.put_numbers(b"vector", &said);
}

pub fn put_set_vector(lines: &mut Lines, head: &Head, given: &[u8]) {
    let [n, ..] = head.words();
    let [_, low, high, taint_low, taint_high, ..] = head.numbers;
    let mut vectors = fields::vectors(given);
    let mut vector_taint = fields::vector_taint(given);
    session::milestarling_set_vector(
        &mut vectors,
        &mut vector_taint,
        n,
        low,
        high,
        taint_low,
        taint_high,
    );
    lines.put_text(b"set_vector\n");
    lines.put_vectors(&vectors, &vector_taint);
}

fn state_of(head: &Head, given: &[u8]) -> State {
    let [pc, address, size, ..] = head.numbers;
    State {
        registers: fields::registers(given),
        pc,
        monitor: Monitor { address, size },
    }
}

fn put_state(lines: &mut Lines, name: &[u8], state: State) {
    lines.put_numbers(name, &[state.pc]);
    lines.put_registers(&state.registers);
    lines.put_monitor(state.monitor);
}
