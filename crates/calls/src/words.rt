// What the library says of a word, of a text, and of an instruction's numbers.
use crate::Lines;
use crate::head::Head;
use plain::Plain;

pub fn put_word(lines: &mut Lines, head: &Head, buffer: &mut [u8]) {
    let [word, ..] = head.words();
    put_class(lines, word);
    put_decoded(lines, word);
    put_text(lines, word, buffer);
}

fn put_class(lines: &mut Lines, word: u32) {
    let said = [
        records::milestarling_classify(word),
        records::milestarling_touches_memory(word),
    ];
    lines.put_numbers(b"word", &said);
}

fn put_decoded(lines: &mut Lines, word: u32) {
    let reply = records::milestarling_decode(word);
    let p = reply.plain;
    let said = [
        reply.answer,
        u64::from(p.family),
        u64::from(p.operation),
        u64::from(p.direction),
        u64::from(p.bytes),
        u64::from(p.target),
        u64::from(p.second),
        u64::from(p.base),
        u64::from(p.index),
        u64::from(p.option),
        u64::from(p.scaled),
        u64::from(p.mode),
        u64::from(p.status),
        p.offset.cast_unsigned(),
    ];
    lines.put_numbers(b"decode", &said);
}

fn put_text(lines: &mut Lines, word: u32, buffer: &mut [u8]) {
    let reply = host::milestarling_text(word, buffer);
    lines.put_numbers(b"text", &[reply.answer, reply.length]);
    lines.put_bytes(b"buffer", buffer);
}

pub fn put_read(lines: &mut Lines, text: &[u8]) {
    let reply = host::milestarling_word(text);
    lines.put_numbers(b"read", &[reply.answer, reply.word]);
}

pub fn put_encoded(lines: &mut Lines, head: &Head) {
    let reply = records::milestarling_encode(plain_of(head));
    lines.put_numbers(b"encode", &[reply.answer, reply.word]);
}

fn plain_of(head: &Head) -> Plain {
    let [
        family,
        operation,
        direction,
        bytes,
        target,
        second,
        base,
        index,
        option,
        scaled,
        mode,
        status,
        ..
    ] = head.words();
    Plain {
        family,
        operation,
        direction,
        bytes,
        target,
        second,
        base,
        index,
        option,
        scaled,
        mode,
        status,
        offset: head.signed(),
    }
}
