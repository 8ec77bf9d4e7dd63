// What a call is given of one ear, beside its arrays.
use lag::pitch::PitchRecord;
use on_ring::registers::Registers;

// An ear's registers and pitch record.
#[derive(Clone, Copy)]
pub struct Ear {
    pub registers: Registers,
    pub pitch: PitchRecord,
}
