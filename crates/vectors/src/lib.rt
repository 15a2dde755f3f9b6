// The vector registers: thirty-two of two 64-bit halves, one array of arrays; and their taints, an array of the same form with a
// byte for each byte. Both are handed in by value or lent; a number above 31 reads 0, untainted, and sets nothing.
#![tactic(auto)]

ghost use Rattle.std.specs.Prelude.{◌≡◌};
ghost use Rattle.vectors.specs.File.{halves_at, with_vector, vector_slot, normal_halves, files_after, taints_after, no_writes, Held};

#[derive(Clone, Copy, Default)]
pub struct Halves {
    pub low: u64,
    pub high: u64,
}

// What is written to one vector register; a number above 31 writes none.
#[derive(Clone, Copy)]
pub struct VectorWrite {
    pub number: u32,
    pub value: Halves,
    pub taint: Halves,
}

// What a step writes to the vector registers, in this order.
#[derive(Clone, Copy)]
pub struct VectorWrites {
    pub first: VectorWrite,
    pub second: VectorWrite,
}

// Whether a slot of the machine is a vector register.
pub fn is_vector(slot: u32) -> bool
    ensures { result ≡ vector_slot slot }
{
    slot / 32 == 1
}

// A register of a file that is lent. Behind a reference nothing says how long an array is; `held` does.
pub fn halves_in(file: &[[u64; 2]; 32], n: u32) -> Halves
    ensures { result ≡ halves_at file.now n }
{
    if let Some(&[low, high]) = file.get(n as usize) {
        Halves { low, high }
    } else {
        Halves::default()
    }
}

// Two halves of taints, with each byte 0 or 1.
pub fn normal(h: Halves) -> Halves
    ensures { result ≡ normal_halves h }
{
    Halves {
        low: memory::normal(h.low),
        high: memory::normal(h.high),
    }
}

// A register of a file by value.
pub fn get(file: [[u64; 2]; 32], n: u32) -> Halves
    ensures { result ≡ halves_at file n }
{
    halves_in(&file, n)
}

pub fn set(mut file: [[u64; 2]; 32], n: u32, value: Halves) -> [[u64; 2]; 32]
    ensures { result ≡ with_vector file n value }
{
    put(&mut file, n, value);
    file
}

// A register of a file that is lent is set in place.
pub fn put(file: &mut [[u64; 2]; 32], n: u32, value: Halves)
    ensures { file.new ≡ with_vector file.old n value }
{
    if n < 32 {
        file[n as usize] = [value.low, value.high];
    }
}

// The file after what a step writes.
pub fn written(mut file: [[u64; 2]; 32], w: VectorWrites) -> [[u64; 2]; 32]
    ensures { result ≡ files_after w file }
{
    write(&mut file, w);
    file
}

pub fn written_taint(mut vector_taint: [[u64; 2]; 32], w: VectorWrites) -> [[u64; 2]; 32]
    ensures { result ≡ taints_after w vector_taint }
{
    write_taint(&mut vector_taint, w);
    vector_taint
}

// The same of a file that is lent. Values and taints have a function each, which say no more than the two fields in which they differ.
pub fn write(file: &mut [[u64; 2]; 32], w: VectorWrites)
    ensures { file.new ≡ files_after w file.old }
{
    put(file, w.first.number, w.first.value);
    put(file, w.second.number, w.second.value);
}

pub fn write_taint(vector_taint: &mut [[u64; 2]; 32], w: VectorWrites)
    ensures { vector_taint.new ≡ taints_after w vector_taint.old }
{
    put(vector_taint, w.first.number, w.first.taint);
    put(vector_taint, w.second.number, w.second.taint);
}

// What is known of an array by its type alone, for who holds it behind a reference only. No code comes of it.
pub fn held(file: [[u64; 2]; 32])
    ensures { Held file }
{}

// Nothing is written.
pub fn no_writes() -> VectorWrites
    ensures { result ≡ no_writes }
{
    let none = VectorWrite {
        number: 32,
        value: Halves::default(),
        taint: Halves::default(),
    };
    VectorWrites {
        first: none,
        second: none,
    }
}
