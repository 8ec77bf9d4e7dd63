// Reading the parts of a record. Where a part is not there whole, or too long, what came of it is the error: bytes that did
// not come are 0, and of a part that is too long none is read. A record is read to its end in any case, and its last parts
// (of an encoder's frame the samples too) tell whether the input ended before them.
ghost use Rattle.std.specs.Prelude.{◌≤◌, true, ◌≡◌, length};
ghost use Rattle.vectors.specs.Parts.{first_of, no_floats, NumberRead, NumbersRead};

use crate::numbers::Entry;
use crate::part::Numbers;
use std::io::Read;

// The most numbers that a part may have.
const MOST: usize = 1024;

// Reads until bytes are full, the input ends or a read fails, and answers how many bytes came. No
// `read_exact`: it says nothing of a part of no bytes.
fn read_full<R: Read>(reader: &mut R, bytes: &mut [u8]) -> usize
    ensures { result ≤ length bytes.new }
{
    let mut done = 0;
    while done < bytes.len() {
        match reader.read(&mut bytes[done..]) {
            Ok(0) => break,
            Ok(count) => done += count,
            Err(_) => break,
        }
    }
    done
}

// Fills all of bytes, or answers that there were too few.
fn read_bytes<R: Read>(reader: &mut R, bytes: &mut [u8]) -> bool
    ensures { length bytes.old ≡ 0 → result ≡ true }
{
    read_full(reader, bytes) == bytes.len()
}

// Reads a number of so many bytes, at most four.
pub fn read_number<R: Read>(reader: &mut R, width: usize) -> Result<u32, u32>
    ensures { NumberRead width result }
{
    let mut bytes = [0u8; 4];
    let Some(part) = bytes.get_mut(..width) else {
        return Err(0);
    };
    let is_whole = read_bytes(reader, part);
    let number = u32::from_le_bytes(bytes);
    if is_whole { Ok(number) } else { Err(number) }
}

// Stores the entries that bytes stand for.
fn put_entries<T: Entry>(bytes: &[u8; 4096], values: &mut [T])
    requires { length values.old ≤ 1024 }
    ensures { values.new ≡ first_of (T.entry_at bytes.now) (length values.old) }
{
    for (k, value) in values.iter_mut().enumerate() {
        *value = T::at(bytes, k);
    }
}

// No floats.
pub fn none() -> Numbers<f32>
    ensures { result ≡ no_floats }
{
    let values = [0.0; 1024];
    Numbers { values, count: 0 }
}

// Reads so many numbers, at most 1024.
pub fn read_numbers<T: Entry, R: Read>(
    reader: &mut R,
    count: usize,
) -> Result<Numbers<T>, Numbers<T>>
    ensures { NumbersRead T.ZERO T.entry_at count result }
{
    let mut values = [T::ZERO; 1024];
    if count > MOST {
        return Err(Numbers { values, count: 0 });
    }
    let mut bytes = [0u8; 4096];
    let size = T::WIDTH * count;
    let is_whole = read_bytes(reader, &mut bytes[..size]);
    put_entries(&bytes, &mut values[..count]);
    let numbers = Numbers { values, count };
    if is_whole { Ok(numbers) } else { Err(numbers) }
}
