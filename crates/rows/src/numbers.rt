// Numbers of a run, and rounds that are copied.
ghost use Rattle.std.specs.Prelude.{◌≡◌, ℕ, ◌+◌, ◌%◌, ◌<◌, ◌≤◌, length, slice_index};
ghost use Rattle.weave.specs.Rows.{run, long};
ghost use Rattle.weave.specs.Promise.{number_at};
ghost use Rattle.rows.specs.Along.{Along};

// The number at a place of a run. One that goes down is counted in signed numbers.
pub fn in_run(from: u32, to: u32, i: u32) -> u32
    requires { i < long (run from to) }
    ensures { result ≡ number_at (run from to) i }
{
    if from <= to {
        from + i
    } else {
        (i64::from(from) - i64::from(i)) as u32
    }
}

// The numbers of a run from a place on, as many as there is room for.
pub fn along_run(a: u32, b: u32, from: u32, out: &mut [u32])
    requires { from + length out.old ≤ long (run a b) }
    ensures { Along (run a b) from out.new }
{
    for (k, number) in out.iter_mut().enumerate() {
        *number = in_run(a, b, from + k as u32);
    }
}

// The numbers behind the first round are as those so many before: what there is, is doubled until all are there.
pub fn copy_rounds(out: &mut [u32], round: usize)
    requires { (0 < round) × (round ≤ length out.old) }
    ensures long { length out.new ≡ length out.old }
    ensures copied { (k : ℕ) → k < length out.new → slice_index out.new k ≡ slice_index out.old (k % round) }
{
    if round < out.len() {
        let n = round.min(out.len() - round);
        out.copy_within(..n, round);
        copy_rounds(out, round + n);
    }
}
