// Listings by the library, whole and in fragments.
use crate::Lines;
use crate::head::Head;
use host::ListerReply;
use stream::Lister;

pub fn put_list(lines: &mut Lines, bytes: &[u8], buffer: &mut [u8]) {
    let reply = host::milestarling_list(bytes, buffer);
    lines.put_numbers(b"list", &[reply.answer, reply.length]);
    lines.put_bytes(b"buffer", buffer);
}

pub fn put_push(lines: &mut Lines, head: &Head, fragment: &[u8], buffer: &mut [u8]) {
    let reply = host::milestarling_lister_push(lister_of(head), fragment, buffer);
    put_lister(lines, b"push", reply);
    lines.put_bytes(b"buffer", buffer);
}

pub fn put_close(lines: &mut Lines, head: &Head, buffer: &mut [u8]) {
    let reply = host::milestarling_lister_close(lister_of(head), buffer);
    put_lister(lines, b"close", reply);
    lines.put_bytes(b"buffer", buffer);
}

fn lister_of(head: &Head) -> Lister {
    let [first, second, third, count, closed, ..] = head.bytes();
    Lister {
        first,
        second,
        third,
        count,
        closed,
    }
}

fn put_lister(lines: &mut Lines, name: &[u8], reply: ListerReply) {
    let lister = reply.lister;
    let said = [
        reply.answer,
        reply.length,
        u64::from(lister.first),
        u64::from(lister.second),
        u64::from(lister.third),
        u64::from(lister.count),
        u64::from(lister.closed),
    ];
    lines.put_numbers(name, &said);
}
