// A checking program: reads plays from standard input, which are two plugins on one memory and the turns that they take, hands
// each turn to the library, and writes what became of it as lines of text. The input and the expected lines come from a model,
// by tools/turns_cases.py, which has the format.
#![tactic(auto)]

mod play;
mod plugin;
mod show;
mod turn;

// What the lines of a case have room for.
type Lines = fields::Lines<65536>;

fn main(rt: HostRuntime) {
    let mut lines = Lines::new();
    fields::for_each_case(&rt, &mut [0; 144], |number, head| {
        play::replay(&rt, number, head, &mut lines)
    });
}
