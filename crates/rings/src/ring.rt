// The ring that holds the used history in blocks of a frame, read straight, oldest first.
ghost use Rattle.std.specs.Prelude.{◌≡◌, ◌++◌, ◌+◌, ◌-◌, ◌≤◌, length, take, drop};
ghost use Rattle.rings.specs.Ring.{straight};

use slices::put;

// The past, oldest sample first, with a frame after it.
pub(crate) fn straighten(
    ring: &[f32],
    history: usize,
    block_start_index: usize,
    frame: &[f32],
    line: &mut [f32],
)
    requires { (block_start_index ≤ history) × (history ≤ length ring.now) × (length line.old ≡ history + length frame.now) }
    ensures { line.new ≡ straight ring.now history block_start_index ++ frame.now }
{
    put(line, 0, &ring[block_start_index..history]);
    put(
        line,
        history - block_start_index,
        &ring[..block_start_index],
    );
    put(line, history, frame);
}

// The line of inputs of a frame at the ring's front: its past, x[-16..-1], ends the used history, and the frame,
// x[0..nf-1], begins the ring.
pub(crate) fn recent(ring: &[f32], history: usize, nf: usize, line: &mut [f32])
    requires { (16 ≤ history) × (history ≤ length ring.now) × (nf ≤ length ring.now) × (16 + nf ≤ length line.old) }
    ensures { take (16 + nf) line.new ≡ drop (history - 16) (straight ring.now history 0 ++ take nf ring.now) }
{
    put(line, 0, &ring[history - 16..history]);
    put(line, 16, &ring[..nf]);
}
