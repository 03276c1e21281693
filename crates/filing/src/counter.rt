// The written counter of width 32, and a run of it on rows: the two calls of the library that filing makes.
ghost use Rattle.std.specs.Prelude.{◌≡◌, ◌++◌, ◌*◌, length, drop};
ghost use Rattle.meaning.specs.Layout.{encode};
ghost use Rattle.meaning.specs.Counter.{counter};
ghost use Rattle.laws.specs.Filing.Counting.{shelves_bytes};
ghost use Rattle.filing.specs.Running.{Runnable};

// The file of the counter, as the library writes it.
pub fn counter_file() -> [u8; 478]
    ensures { result ≡ encode (counter 32) }
{
    let mut file = [0u8; 478];
    let _ = shelf::counter(32, &mut file);
    file
}

// The counter on rows of words: six outputs for each. None of the library's refusals applies, so what it answers is not looked at.
pub fn run_rows(file: &[u8], rows: usize, values: &[u8], outputs: &mut [u8])
    requires { Runnable file.now rows values.now (length outputs.old) }
    ensures { (r : Runnable file.now rows values.now (length outputs.old))
        → outputs.new ≡ shelves_bytes r.words ++ drop (rows * 6) outputs.old }
{
    let mut scratch = [0u32; 158];
    let _ = shelf::evaluate_rows(file, 32, rows, values, &mut scratch, outputs);
}
