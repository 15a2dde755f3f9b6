// A checking program: reads cases from standard input, hands each to the library's run, and writes what became of it as
// lines of text. The input and the expected lines come from other tools, by tools/replay_cases.py. Each case is done again
// word by word, through the library's step, and where that comes to anything else, its lines are written too.
#![tactic(auto)]

mod case;
mod steps;

// What the lines of a case have room for.
type Lines = fields::Lines<65536>;

fn main(rt: HostRuntime) {
    let mut lines = Lines::new();
    let mut again = Lines::new();
    fields::for_each_case(&rt, &mut [0; 80], |number, head| {
        case::replay(&rt, number, head, &mut lines, &mut again)
    });
}
