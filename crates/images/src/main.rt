// A checking program: reads memory images from standard input, imports each as a host does, and writes what is answered and
// left as lines of text. The input and the expected lines come from a model and from other tools, by tools/images_cases.py,
// which has the format.
#![tactic(auto)]

mod case;

// What the lines of a case have room for.
type Lines = fields::Lines<4096>;

fn main(rt: HostRuntime) {
    let mut lines = Lines::new();
    fields::for_each_case(&rt, &mut [0; 40], |number, head| {
        case::answer(&rt, number, head, &mut lines)
    });
}
