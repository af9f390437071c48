use std::fmt;

// How many cases ran, and how many of them differed.
#[derive(Clone, Copy, Default)]
pub struct Tally {
    run: u64,
    differ: u64,
}

impl Tally {
    // One case more, which held or did not.
    pub(crate) fn count(&mut self, held: bool) {
        self.run = self.run.saturating_add(1);
        self.differ = self.differ.saturating_add(u64::from(!held));
    }
}

impl fmt::Display for Tally {
    fn fmt<W: fmt::Write>(&self, f: &mut fmt::Formatter<W>) -> fmt::Result {
        write!(f, "{} cases, {} differ", self.run, self.differ)
    }
}
