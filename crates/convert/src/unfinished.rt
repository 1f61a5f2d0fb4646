// A line whose end has not been read.
ghost use Rattle.std.specs.Prelude.{◌≡◌};
ghost use Rattle.convert.specs.Unfinished.{held_of};

// What is kept of it: so many octets at the front of the input's buffer, or none where the line is too long and its rest is skipped.
#[derive(Clone, Copy)]
pub enum Unfinished {
    Held(usize),
    Skipped,
}

impl Unfinished {
    // How many octets are kept.
    pub fn held(self) -> usize
        ensures { result ≡ held_of self }
    {
        match self {
            Unfinished::Held(count) => count,
            Unfinished::Skipped => 0,
        }
    }
}
