// Why a call failed, in the system's own words.
use std::fmt::Write;
use std::{fmt, io};

// An error whose words stand alone: an `io::Error` writes the system's number behind them.
#[derive(Drop)]
pub struct Reason(pub io::Error);

impl fmt::Display for Reason {
    fn fmt<W: fmt::Write>(&self, f: &mut fmt::Formatter<W>) -> fmt::Result {
        let reason = self.0;
        let mut words = Words::none();
        write!(words, "{reason}")?;
        f.write_str(before_number(words.as_str()))
    }
}

// What stands before the system's number, if there is one.
fn before_number(text: &str) -> &str {
    match text.split_once(" (os error ") {
        Some((words, _)) => words,
        None => text,
    }
}

// Room for an error's text: an array and how much of it is written, since there is no heap. What does not fit is left out; no text of the system's is as long.
#[derive(Drop)]
struct Words {
    bytes: [u8; 128],
    count: usize,
}

impl Words {
    fn none() -> Words {
        Words {
            bytes: [0; 128],
            count: 0,
        }
    }

    fn as_str(&self) -> &str {
        let n = self.count.min(self.bytes.len());
        str::from_utf8(&self.bytes[..n]).unwrap_or("")
    }
}

impl fmt::Write for Words {
    fn write_str(&mut self, text: &str) -> fmt::Result {
        for byte in text.as_bytes() {
            if self.count < self.bytes.len() {
                self.bytes[self.count] = *byte;
                self.count += 1;
            }
        }
        Ok(())
    }
}
