// A lent buffer set to 0 from a byte on.
ghost use Rattle.std.specs.Prelude.{◌≡◌, ◌++◌, ◌-◌, ◌≤◌, length, take};
ghost use Rattle.words.specs.Lists.{zeros};

// Sets every byte from this one on to 0.
pub(crate) fn clear_bytes_from(out: &mut [u8], from: usize)
    requires { from ≤ length out.old }
    ensures { out.new ≡ take from out.old ++ zeros (length out.old - from) }
{
    out[from..].fill(0);
}
