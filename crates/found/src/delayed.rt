// The delayed frame, in the signal at 12.8 kHz.
ghost use Rattle.std.specs.Prelude.{◌+◌, ◌≤◌};

// Where it starts in the signal, and its length. A lag before it and two samples after it still lie within
// the signal.
#[derive(Clone, Copy)]
pub(crate) struct Delayed<'a> {
    pub(crate) x: &'a [f32; 404],
    pub(crate) start: usize,
    pub(crate) len12p8: usize,
    ghost late: { 232 ≤ start },
    ghost inside: { start + len12p8 + 2 ≤ 404 },
}
