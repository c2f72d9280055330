// Writing octets into an output at a place. Without room for all of them nothing is written.
#![tactic(auto)]

ghost use Rattle.std.specs.Prelude.{◌≡◌};
ghost use Rattle.octets.specs.Parts.{put as put_at};

// Writes octets into an output from a place on; without room for all of them it writes none.
pub fn put(out: &mut [u8], at: usize, octets: &[u8])
    ensures { out.new ≡ put_at out.old at octets.now }
{
    let n = octets.len();
    if octets::has_room(out.len(), at, n) {
        // By a loop: copy_from_slice would have the archive for C need memmove from outside.
        for i in 0..n {
            out[at + i] = octets[i];
        }
    }
}
