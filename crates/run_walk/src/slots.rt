// Copies from slot to slot.
ghost use Rattle.std.specs.Prelude.{◌≡◌};
ghost use Rattle.image.specs.Laid.{laid};
ghost use Rattle.image.specs.Slots.{Copyable, values_at};

// The entries at the slots, counted from `source` on, to the places from `target` on.
pub fn copy<E: Copy>(
    image: &[u16],
    from: usize,
    to: usize,
    source: usize,
    target: usize,
    scratch: &mut [E],
)
    requires { Copyable image.now from to source target scratch.old }
    ensures { (none : E) → scratch.new
        ≡ laid scratch.old target (values_at none image.now from to source scratch.old) }
{
    for i in from..to {
        scratch[target + (i - from)] = scratch[source + image::entry(image, i)];
    }
}
