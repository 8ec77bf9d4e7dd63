// The pitch record that a frame carries: no pitch, or an index with its active mark.
ghost use Rattle.std.specs.Prelude.{◌≡◌};
ghost use Rattle.lag.specs.Sent.{sent_of};

#[derive(Clone, Copy)]
pub struct Present {
    pub index: u32,
    pub active: bool,
}

// No option: a customer asked for a third case, which is to come.
#[derive(Clone, Copy)]
pub enum PitchRecord {
    Absent,
    Present(Present),
}

// What of a record is sent: nothing of an absent one, index and active mark of a present one. Whatever receives or stores a
// record goes by this alone.
pub fn sent_of(pitch: PitchRecord) -> Option<Present>
    ensures { result ≡ sent_of pitch }
{
    match pitch {
        PitchRecord::Absent => None,
        PitchRecord::Present(present) => Some(present),
    }
}
