// Lent memory.
ghost use Rattle.std.specs.Prelude.{◌≡◌};
ghost use Rattle.model.specs.Memory.{cleared};

// Zeros: an empty list, cells that no update has written, the empty store of terms.
pub fn clear(memory: &mut [u32])
    ensures { memory.new ≡ cleared memory.old }
{
    memory.fill(0);
}
