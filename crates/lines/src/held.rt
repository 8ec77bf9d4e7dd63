// The line that is being read. No listing has a well-formed line of more than 31 bytes, so the
// first 32 say of any line what it is, and no more are held.
ghost use Rattle.std.specs.Prelude.{◌≡◌, eqb, min, drop};
ghost use Rattle.lines.specs.Machine.{held_line, line_taken};

// The bytes that are held, and how many they are. An array and a count: nothing here uses a heap.
#[derive(Clone, Copy)]
pub struct Held {
    pub bytes: [u8; 32],
    pub len: usize,
}

// What is held after some bytes, and where the rest of the input starts.
#[derive(Clone, Copy)]
pub struct Taken {
    pub held: Held,
    pub at: usize,
}

// How many bytes are held.
pub fn count(held: Held) -> usize
    ensures { result ≡ min held.len 32 }
{
    if held.len < 32 { held.len } else { 32 }
}

impl Held {
    // Whether no byte is held.
    pub fn is_empty(&self) -> bool
        ensures { result ≡ eqb self.now.len 0 }
    {
        self.len == 0
    }

    // The bytes that are held.
    pub fn line(&self) -> &[u8]
        ensures { result.now ≡ held_line self.now }
    {
        &self.bytes[..count(*self)]
    }
}

// Takes the bytes from `from` on up to a newline or the input's end, and holds what there is space
// for. It counts the places, since it says at which it stopped.
pub fn take_line(held: Held, input: &[u8], from: usize) -> Taken
    ensures { result ≡ line_taken held (drop from input.now) from }
{
    let mut bytes = held.bytes;
    let mut len = held.len;
    for at in from..input.len() {
        let b = input[at];
        if b == b'\n' {
            return Taken {
                held: Held { bytes, len },
                at,
            };
        }
        if len < 32 {
            bytes[len] = b;
            len += 1;
        }
    }
    Taken {
        held: Held { bytes, len },
        at: from.max(input.len()),
    }
}
