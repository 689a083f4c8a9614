//! How results are printed.

use crate::invocation::{Indent, LayoutFlags, Options};
use crate::program_error::ProgramError;
use jptr_tasks::exit_status::USAGE;
use jptr_tasks::layout::Layout;
use jptr_tasks::task_error::TaskError;
use jsonptr_text_edit::{Buffers, IndentError, indent_text};
use std::alloc::Global;

/// How the document is edited and printed.
#[derive(Clone, Copy)]
pub struct OutputStyle {
    /// How the result is printed.
    pub layout: Layout,
    /// The indentation of a level, if the flag `--indent` has one.
    pub indent: Option<&'static str>,
    /// Whether the document is printed anew if it cannot be edited in place.
    pub reformats: bool,
    /// Whether numbers may lose digits.
    pub is_lossy: bool,
}

impl OutputStyle {
    /// Returns the style of a document that is made: on lines, unless another layout is asked for.
    pub fn for_new(self) -> OutputStyle {
        let mut style = self;
        if style.layout == Layout::Kept {
            style.layout = Layout::Pretty;
        }
        style
    }

    /// Returns the style of an edit of a document that is laid out after the last edit. If that is done
    /// anew, an edit is too where it cannot be made in the text.
    pub fn for_edit(self) -> OutputStyle {
        let mut style = self;
        style.reformats = self.reformats || self.layout != Layout::Kept;
        style.layout = Layout::Kept;
        style.indent = None;
        style
    }
}

/// Returns how results are printed, except for the indentation.
pub fn layout_of(flags: LayoutFlags) -> Layout {
    if flags.is_raw {
        Layout::Raw
    } else if flags.sorts_keys {
        sorted(flags)
    } else if is_pretty(flags) {
        Layout::Pretty
    } else if flags.is_compact {
        Layout::Compact
    } else {
        Layout::Kept
    }
}

/// Returns how results with sorted members are printed.
fn sorted(flags: LayoutFlags) -> Layout {
    if is_pretty(flags) {
        Layout::SortedPretty
    } else {
        Layout::Sorted
    }
}

/// Returns whether results are printed on lines.
fn is_pretty(flags: LayoutFlags) -> bool {
    flags.is_pretty || flags.indent != Indent::Plain
}

/// Returns how the document is edited and printed.
pub fn style_of(alloc: Global, options: &Options<'_>) -> Result<OutputStyle, ProgramError> {
    let indent = match options.layout.indent {
        Indent::Plain => None,
        Indent::By(text) => Some(text),
        Indent::Wrong => {
            let message = "needs a number of spaces, 1 to 16, or tab";
            return Err(ProgramError::new(alloc, USAGE, "--indent", message));
        }
    };
    Ok(OutputStyle {
        layout: layout_of(options.layout),
        indent,
        reformats: options.reformats,
        is_lossy: options.is_lossy,
    })
}

/// Returns what is printed, with the indentation of the style.
pub fn indented(alloc: Global, printed: String, style: OutputStyle) -> Result<String, TaskError> {
    let Some(indent) = style.indent else {
        return Ok(printed);
    };
    let mut buffers = Buffers::new(alloc);
    match indent_text(&mut buffers, printed.as_str(), indent) {
        Ok(mut new) => {
            new.push('\n')?;
            Ok(new)
        }
        Err(IndentError::Memory(error)) => Err(TaskError::Memory(error)),
        Err(IndentError::NotJson | IndentError::NotWhiteSpace) => Err(TaskError::NotJson),
    }
}
