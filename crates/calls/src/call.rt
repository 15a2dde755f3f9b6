// The function that a case names, called on it.
use crate::head::Head;
use crate::{Lines, lines, sessions, words};

pub fn put_call(lines: &mut Lines, head: &Head, given: &[u8], buffer: &mut [u8]) {
    match head.what {
        1 => words::put_word(lines, head, buffer),
        2 => words::put_read(lines, given),
        3 => words::put_encoded(lines, head),
        4 => lines::put_list(lines, given, buffer),
        5 => lines::put_push(lines, head, given, buffer),
        6 => lines::put_close(lines, head, buffer),
        7 => sessions::put_set_register(lines, head, given),
        8 => sessions::put_opened(lines, head, given),
        9 => sessions::put_observed(lines, head, given),
        10 => sessions::put_vector(lines, head, given),
        11 => sessions::put_set_vector(lines, head, given),
        _ => lines.put_text(b"no such call\n"),
    }
}
