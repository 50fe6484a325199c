use std::alloc::{AllocError, Global};

/// What came of a script.
#[derive(Drop)]
pub struct Report {
    pub cases: u64,
    pub runs: u64,
    /// Lines that weren't understood, cases that aren't run to their end, and runs that came to something else.
    pub errors: u64,
    complaints: String,
}

impl Report {
    pub fn new(alloc: Global) -> Report {
        Report {
            cases: 0,
            runs: 0,
            errors: 0,
            complaints: String::new(alloc),
        }
    }

    pub fn count_case(&mut self) {
        self.cases = self.cases.saturating_add(1);
    }

    pub fn count_run(&mut self) {
        self.runs = self.runs.saturating_add(1);
    }

    /// Counts an error, and keeps what is wrong and where.
    pub fn complain(&mut self, place: &str, what: &str) -> Result<(), AllocError> {
        self.errors = self.errors.saturating_add(1);
        self.complaints.push_str(place)?;
        self.complaints.push_str(": ")?;
        self.complaints.push_str(what)?;
        self.complaints.push('\n')
    }

    /// What is wrong, and a line of what was played.
    pub fn text(&self, alloc: Global, name: &str) -> Result<String, AllocError> {
        let complaints = self.complaints.as_str();
        let cases = self.cases;
        let runs = self.runs;
        let errors = self.errors;
        format!(in alloc; "{complaints}{name}: cases {cases}, runs {runs}, errors {errors}\n")
    }
}
