// The turns of a play, each read and taken before the next: four numbers, which are the plugin, the words, the places of the trace
// and those of the statuses, and the words.
use crate::plugin::Plugin;
use crate::{Lines, show};
use fields::Halt;
use plan::{Range, Ranges};

// The memory and where it begins, the plugins on it, the range that they share, and each plugin's own.
#[derive(Drop)]
pub struct Stage<'a> {
    pub memory: &'a mut [u8],
    pub taint: &'a mut [u8],
    pub origin: u64,
    pub first: Plugin,
    pub second: Plugin,
    pub shared: Range,
    pub first_range: Range,
    pub second_range: Range,
}

impl Stage<'_> {
    pub fn take_turn(
        &mut self,
        rt: &(impl Input + Print + Eprint),
        number: u64,
        lines: &mut Lines,
    ) -> Result<(), Halt> {
        let mut head = [0u8; 32];
        fields::fill(rt, &mut head)?;
        let [who, count, room, places]: [u64; 4] = fields::numbers(&head);
        let mut bytes = [0u8; 64];
        let mut trace = [u64::MAX; 40];
        let mut statuses = [u8::MAX; 20];
        if count > 16 {
            return Err(Halt::TooLarge);
        }
        let trace = trace.get_mut(..room as usize).ok_or(Halt::TooLarge)?;
        let statuses = statuses.get_mut(..places as usize).ok_or(Halt::TooLarge)?;
        fields::fill(rt, &mut bytes[..4 * count as usize])?;
        let words: [u32; 16] = fields::words(&bytes);
        let words = &words[..count as usize];
        let origin = self.origin;
        let shared = self.shared;
        let first = self.first_range;
        let second = self.second_range;
        let ran = if who == 0 {
            let ranges = Ranges {
                shared,
                own: first,
                other: second,
            };
            self.first.take(
                words,
                origin,
                ranges,
                self.memory,
                self.taint,
                trace,
                statuses,
            )
        } else {
            let ranges = Ranges {
                shared,
                own: second,
                other: first,
            };
            self.second.take(
                words,
                origin,
                ranges,
                self.memory,
                self.taint,
                trace,
                statuses,
            )
        };
        let plugin = if who == 0 { &self.first } else { &self.second };
        show::put_ran(lines, number, who, ran);
        show::put_plugin(lines, plugin);
        lines.put_bytes(b"memory", self.memory);
        lines.put_bytes(b"taint", self.taint);
        lines.put_numbers(b"trace", trace);
        lines.put_monitor(ran.session.monitor);
        lines.put_bytes(b"statuses", statuses);
        // A write that failed was said, and the turns go on.
        let _ = lines.write(rt);
        Ok(())
    }
}
