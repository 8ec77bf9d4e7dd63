// The numbers of a part, and the first elements of an array.
ghost use Rattle.std.specs.Prelude.{◌≡◌, take};

// So many numbers, with zeros after them: an array with a count, since nothing here is on the heap.
#[derive(Clone, Copy)]
pub struct Numbers<T> {
    pub values: [T; 1024],
    pub count: usize,
}

impl<T> Numbers<T> {
    pub fn as_slice(&self) -> &[T]
        ensures { result.now ≡ take self.now.count self.now.values }
    {
        first(&self.values, self.count)
    }

    pub fn as_mut_slice(&mut self) -> &mut [T]
        ensures { result.now ≡ take self.old.count self.old.values }
    {
        let values = &mut self.values;
        first_mut(&mut values[..], self.count)
    }
}

// The first count of all, or all where there are fewer.
pub fn first<T>(all: &[T], count: usize) -> &[T]
    ensures { result.now ≡ take count all.now }
{
    if count < all.len() {
        &all[..count]
    } else {
        all
    }
}

// The same, to be changed.
pub fn first_mut<T>(values: &mut [T], count: usize) -> &mut [T]
    ensures { result.now ≡ take count values.old }
{
    if count < values.len() {
        &mut values[..count]
    } else {
        values
    }
}
