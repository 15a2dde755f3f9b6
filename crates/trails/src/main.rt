// A checking program: reads runs and questions about them from standard input, asks the library why a byte is tainted, and
// writes what it says and leaves as lines of text. The input and the expected lines come from a model, by tools/why_cases.py,
// which has the format.
#![tactic(auto)]

mod case;
mod head;
mod question;

// What the lines of a case have room for.
type Lines = fields::Lines<65536>;

fn main(rt: HostRuntime) {
    let mut lines = Lines::new();
    fields::for_each_case(&rt, &mut [0; 72], |number, head| {
        case::answer(&rt, number, head, &mut lines)
    });
}
