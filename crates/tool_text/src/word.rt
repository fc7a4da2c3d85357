// A word's first letters, enough to know a command by.

ghost use Rattle.std.specs.Prelude.{◌≡◌, ◌≤◌, ◌<◌, ◌==◌, ◌||◌, [], take, slice_index};

#[derive(Clone, Copy)]
pub struct Word {
    // Kept: a length beside the letters, since a line may have any length in constant memory and `String` allocates
    // how many letters it has; 25 stands for any more
    pub len: usize,
    // the first 24 of them
    pub letters: [u8; 24],
}

impl Word {
    pub fn new() -> Word {
        Word {
            len: 0,
            letters: [0; 24],
        }
    }

    // The word with its next part.
    pub fn more(mut self, part: &[u8]) -> Word {
        let len = self.len;
        let Some(room) = self.letters.get_mut(len..) else {
            return self;
        };
        let kept = room.len().min(part.len());
        room[..kept].copy_from_slice(&part[..kept]);
        self.len = if kept < part.len() { 25 } else { len + kept };
        self
    }

    // Its letters, none where it has more than 24.
    pub fn name(&self) -> &[u8]
        ensures short { self.now.len ≤ 24 → result.now ≡ take self.now.len self.now.letters }
        ensures long { 24 < self.now.len → result.now ≡ [] }
    {
        self.letters.get(..self.len).unwrap_or(&[])
    }

    // Whether it is the word `name`, which has at most 24 letters.
    pub fn is(self, name: &[u8]) -> bool {
        self.letters.get(..self.len) == Some(name)
    }

    // Whether a line with this command holds none: it is empty, or a comment.
    pub fn is_silent(self) -> bool
        ensures { result ≡ (self.len == 0 || slice_index self.letters 0 == 35) }
    {
        self.len == 0 || self.letters[0] == b'#'
    }
}
