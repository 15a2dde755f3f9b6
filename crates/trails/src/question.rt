// Questions about a run.
use crate::Lines;
use fields::Halt;

// What every place of the list holds before: no address in any case.
const UNTOUCHED: u64 = 0xfefe_fefe_fefe_fefe;

// A run as a host has kept it: its words, the trace and the statuses that it left, how far it came, the taints at its start,
// and the window.
#[derive(Drop)]
pub struct Run<'a> {
    pub words: &'a [u32],
    pub trace: &'a [u64],
    pub statuses: &'a [u8],
    pub steps: u64,
    pub register_taint: [u64; 32],
    pub vector_taint: [[u64; 2]; 32],
    pub taint: &'a [u8],
    pub origin: u64,
    pub readonly: u64,
    pub length: u64,
}

impl Run<'_> {
    // The next question of the input, five numbers of 64 bits: the step, the kind of the place, its number, its byte, and how
    // many numbers the lent list of links has.
    pub fn answer_next(
        &self,
        rt: &(impl Input + Print + Eprint),
        lines: &mut Lines,
    ) -> Result<(), Halt> {
        let mut asked = [0u8; 40];
        fields::fill(rt, &mut asked)?;
        let [step, kind, place, byte, room]: [u64; 5] = fields::numbers(&asked);
        let mut links = [UNTOUCHED; 2048];
        let links = links.get_mut(..room as usize).ok_or(Halt::TooLarge)?;
        let reply = why::milestarling_why(
            self.words,
            self.trace,
            self.statuses,
            self.steps,
            &self.register_taint,
            &self.vector_taint,
            self.taint,
            self.origin,
            self.readonly,
            self.length,
            step,
            kind,
            place,
            byte,
            links,
        );
        put_said(lines, reply.answer, reply.links, links);
        lines.write(rt)?;
        Ok(())
    }
}

// A line of the answer, the number of links, and the whole list.
fn put_said(lines: &mut Lines, answer: u64, count: u64, links: &[u64]) {
    lines.clear();
    lines.put_text(b"why");
    lines.put_field(answer);
    lines.put_field(count);
    for link in links {
        if *link == UNTOUCHED {
            lines.put_text(b"\t-");
        } else {
            lines.put_field(*link);
        }
    }
    lines.put_byte(b'\n');
}
