// Nets in scratch: copied from slot to slot, and those of the inputs.
ghost use Rattle.std.specs.Prelude.{◌≡◌, ◌≤◌, length};
ghost use Rattle.meaning.specs.Adder.{up_from};
ghost use Rattle.image.specs.Laid.{laid};
ghost use Rattle.image.specs.Slots.{Copyable, values_at};

// The nets at the slots, counted from `source` on, to the places from `target` on.
pub(crate) fn copy(
    image: &[u16],
    from: usize,
    to: usize,
    source: usize,
    target: usize,
    scratch: &mut [u16],
)
    requires { Copyable image.now from to source target scratch.old }
    ensures { scratch.new
        ≡ laid scratch.old target (values_at 0 image.now from to source scratch.old) }
{
    for i in from..to {
        scratch[target + (i - from)] = scratch[source + image::entry(image, i)];
    }
}

// The nets of the new module's inputs, 0, 1, 2 and so on, in the first slots.
pub(crate) fn number_inputs(count: usize, scratch: &mut [u16])
    requires count_in_bounds { count ≤ length scratch.old }
    requires count_bound { count ≤ 4096 }
    ensures { scratch.new ≡ laid scratch.old 0 (up_from 0 count) }
{
    for i in 0..count {
        scratch[i] = i as u16;
    }
}
