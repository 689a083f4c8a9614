//! Where a value is in a JSON text, and with which white space an edit of it keeps the layout.
//!
//! No contract says that these offsets and texts are right: `jsonptr_text_check` judges each edit that is made
//! with them. Contracts say that the calls end, and that the text of a value reads as the value.
//!
//! - [`place`]: where selectors lead, and the children of an array or an object.
//! - [`layout`]: the white space around a child that comes or goes, and the text of a value that is replaced.
//! - [`value_text`]: the text of a value on one line, and over lines.
#![tactic(auto)]

pub mod layout;
pub mod place;
mod spread;
mod style;
pub mod value_text;
