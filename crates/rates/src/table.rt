// The table of the six rates, and its lookup.
ghost use Rattle.std.specs.Prelude.{◌≡◌};
ghost use Rattle.rates.specs.Table.{row_of};

// A row: the rate in Hz, its number fs_ind, its multiple R of 8000, the samples of a frame at each
// duration, the resampler's step p, the denominator's order l_den, and the length of a fade.
#[derive(Clone, Copy)]
pub struct Rate {
    pub hz: u32,
    pub fs_ind: u32,
    pub r: u32,
    pub nf_10: usize,
    pub nf_7p5: usize,
    pub p: usize,
    pub l_den: usize,
    pub fade: usize,
}

pub const RATES: [Rate; 6] = [
    Rate {
        hz: 8000,
        fs_ind: 0,
        r: 1,
        nf_10: 80,
        nf_7p5: 60,
        p: 24,
        l_den: 4,
        fade: 20,
    },
    Rate {
        hz: 16000,
        fs_ind: 1,
        r: 2,
        nf_10: 160,
        nf_7p5: 120,
        p: 12,
        l_den: 4,
        fade: 40,
    },
    Rate {
        hz: 24000,
        fs_ind: 2,
        r: 3,
        nf_10: 240,
        nf_7p5: 180,
        p: 8,
        l_den: 6,
        fade: 60,
    },
    Rate {
        hz: 32000,
        fs_ind: 3,
        r: 4,
        nf_10: 320,
        nf_7p5: 240,
        p: 6,
        l_den: 8,
        fade: 80,
    },
    Rate {
        hz: 44100,
        fs_ind: 4,
        r: 6,
        nf_10: 480,
        nf_7p5: 360,
        p: 4,
        l_den: 12,
        fade: 120,
    },
    Rate {
        hz: 48000,
        fs_ind: 4,
        r: 6,
        nf_10: 480,
        nf_7p5: 360,
        p: 4,
        l_den: 12,
        fade: 120,
    },
];

// The row of a rate in Hz.
pub fn row_of(hz: u32) -> Option<Rate>
    ensures { result ≡ row_of hz }
{
    for row in RATES {
        if row.hz == hz {
            return Some(row);
        }
    }
    None
}
