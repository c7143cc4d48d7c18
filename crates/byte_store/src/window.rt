// Where the free cells are, so that a search does not pass again the held ones that an earlier search passed.
ghost use Rattle.std.specs.Prelude.{◌≡◌, ◌+◌, min, max};

// Every free cell is from `low` on, below `high`.
#[derive(Clone, Copy)]
pub(crate) struct Window {
    pub(crate) low: usize,
    pub(crate) high: usize,
}

impl Window {
    // The window once the cell at a location is free.
    pub(crate) fn with(self, location: u16) -> Window
        ensures low { result.low ≡ min self.low location }
        ensures high { result.high ≡ max self.high (location + 1) }
    {
        let l = location as usize;
        Window {
            low: self.low.min(l),
            high: self.high.max(l + 1),
        }
    }
}
