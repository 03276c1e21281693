// A table by number: 1 for each number that a list of modules has.
ghost use Rattle.open_finding.specs.Finding.{Searchable};
ghost use Rattle.write_joined.specs.Marks.{Markable, Marks};

// Marks the numbers, from the last module to the first.
pub fn mark(names: &[u16], modules: usize, marks: &mut [u8])
    requires { Markable names.now modules marks.old }
    ensures { (s : Searchable names.now modules) → Marks marks.new s.ms }
{
    for k in (0..modules).rev() {
        let x = image::entry(names, k);
        marks[x] = 1;
    }
}
