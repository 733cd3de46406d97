// The lines of the trials.
ghost use Rattle.std.specs.Prelude.{◌<◌, ◌≤◌, length};
ghost use Rattle.std.specs.Iterator.{at_most};

// The four lines of a trial.
#[derive(Clone, Copy)]
pub(crate) struct Lines<'a> {
    pub header: &'a [u8],
    pub gate: &'a [u8],
    pub antenna: &'a [u8],
    pub events: &'a [u8],
}

// The trials of what is left of the input.
#[derive(Drop)]
pub(crate) struct Trials<'a> {
    pub rest: &'a [u8],
}

impl<'a> Trials<'a> {
    // The next line, without its newline; at the end an empty one.
    fn line(&mut self) -> &'a [u8]
        ensures fewer { 0 < length self.old.rest.now → length self.new.rest.now < length self.old.rest.now }
        ensures no_more { length self.new.rest.now ≤ length self.old.rest.now }
    {
        let rest = self.rest;
        match rest.iter().position(|&b| b == b'\n') {
            Some(end) => {
                self.rest = &rest[end + 1..];
                &rest[..end]
            }
            None => {
                self.rest = &[];
                rest
            }
        }
    }
}

impl<'a> Iterator for Trials<'a> {
    type Item = Lines<'a>;

    ghost remaining = { λ s. at_most (length s.rest.now) };

    // Past empty lines.
    fn next(&mut self) -> Option<Lines<'a>> {
        let start = self.rest.iter().position(|&b| b != b'\n')?;
        self.rest = &self.rest[start..];
        Some(Lines {
            header: self.line(),
            gate: self.line(),
            antenna: self.line(),
            events: self.line(),
        })
    }
}
