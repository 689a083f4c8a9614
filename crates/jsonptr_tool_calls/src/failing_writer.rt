//! Writers that fail.
use crate::out::Out;
use std::fmt;
use std::fmt::{Display, Write};

/// Displays a value on a writer that fails at its first call, on one that fails at its second, and
/// so on, up to the one that does not fail. Writes whether each error was returned, and nothing was
/// written after it.
pub fn reports_failures<D: Display>(out: &mut Out<'_>, value: &D) {
    out.begin();
    for calls in 0..1000 {
        let mut writer = Failing { calls, faults: 0 };
        match write!(&mut writer, "{value}") {
            Ok(()) if writer.faults == 0 => return out.said(calls > 0),
            Err(_) if writer.faults == 1 => {}
            _ => break,
        }
    }
    out.nothing()
}

/// A writer that fails after a number of calls, and counts its failures.
#[derive(Drop)]
struct Failing {
    calls: usize,
    faults: usize,
}

impl fmt::Write for Failing {
    fn write_str(&mut self, _text: &str) -> fmt::Result {
        match self.calls.checked_sub(1) {
            Some(calls) => {
                self.calls = calls;
                Ok(())
            }
            None => {
                self.faults = self.faults.saturating_add(1);
                Err(fmt::Error)
            }
        }
    }
}
