// The text that says how a file differs.
use std::alloc::{AllocError, Global};

/// How a file differs, or why it is no session. A failure without a text means that memory ran out.
#[derive(Drop)]
pub struct Report {
    alloc: Global,
    text: String,
}

impl Report {
    /// A report with no text.
    pub fn new(alloc: Global) -> Report {
        Report {
            alloc,
            text: String::new(alloc),
        }
    }

    pub fn alloc(&self) -> Global {
        self.alloc
    }

    pub fn text(&self) -> &str {
        self.text.as_str()
    }

    /// Sets the text. Without memory for it the report stays as it is.
    pub fn set(&mut self, text: Result<String, AllocError>) {
        if let Ok(text) = text {
            self.text = text;
        }
    }

    /// Says how a way to run the session differs.
    pub fn describe(&mut self, how: &str, what: &str) {
        self.set(format!(in self.alloc; "{how}: {what}"));
    }

    /// Says that the bytes found are not those wanted.
    pub fn describe_bytes(&mut self, how: &str, what: &str, wanted: &[u8], found: &[u8]) {
        match String::from_utf8_lossy(self.alloc, wanted) {
            Ok(wanted) => match String::from_utf8_lossy(self.alloc, found) {
                Ok(found) => self.set(format!(in self.alloc;
                    "{how}: {what}: wanted {wanted:?}, found {found:?}"
                )),
                Err(_) => {}
            },
            Err(_) => {}
        }
    }
}
