//! Callers of `jsonptr`, each small and with a contract. Every contract follows from the public clauses,
//! laws and lemmas of the libraries.
//!
//! - [`writes`]: writing into documents.
//! - [`settings`]: settings in layers.
//! - [`layers`]: settings in layers by merge patches, and the layer that a setting comes from.
//! - [`references`]: references inside a document.
//! - [`checker`]: required members and their types.
//! - [`nodes`]: the nodes of a document, counted, and read back from their lines.
//! - [`editor`], [`cursor_editor`] and [`patches`]: changes that can be undone.
//! - [`patch_documents`]: a patch document that is applied.
//! - [`patched_texts`]: a text that is patched, with a patch that takes that back.
//! - [`differences`]: a copy that is kept up to date by differences.
//! - [`merge`]: the patches of two people, and a difference that is sent.
//! - [`sessions`]: calls on a document that is read from a text.
//! - [`in_text`]: numbers and texts in the text of a document.
//! - [`edits_in_text`]: two edits in the text of a document.
//! - [`edits_in_place`]: edits of a text that change only their own bytes, if they are made in place.
//! - [`settings_in_place`]: several settings of a text, each set in place or not at all.
//! - [`exact_texts`]: a document with sorted members, if no number loses digits.
//! - [`given_texts`]: a patch that is applied with the texts of its values.
//! - [`streams`]: a document from a reader to a writer.
//! - [`commented`]: a setting of a text with comments.
//! - [`migrations`]: a setting of a text with comments that gets its new name.
//! - [`toml_files`]: a TOML file of settings.
//! - [`edits_in_toml`]: two edits in a TOML text, in place.
//! - [`handles`]: a document in a handle, as a program in C uses it.
//! - [`handle_values`]: values of handles and of texts, as a program in C asks for them.
//! - [`commands`]: a command on the text of a document.
//! - [`json_lines`]: a document on each line of a stream, and a document as lines.
//! - [`program`]: the program, run in memory.
//! - [`tabled`]: a look-up by a pointer with a table.
//! - [`own_text`]: the text of a value as it is written, and where it is.
//! - [`relayouts`]: a document that another program changed, in its old layout.
//! - [`overlay`]: a document type of one's own.
//! - [`edits`]: edits that undo each other.
#![tactic(auto)]

pub mod checker;
pub mod commands;
pub mod commented;
pub mod cursor_editor;
pub mod differences;
pub mod editor;
pub mod edits;
pub mod edits_in_place;
pub mod edits_in_text;
pub mod edits_in_toml;
pub mod exact_texts;
pub mod given_texts;
pub mod handle_values;
pub mod handles;
pub mod in_text;
pub mod json_lines;
pub mod layers;
pub mod merge;
pub mod migrations;
pub mod nodes;
pub mod overlay;
pub mod own_text;
pub mod patch_documents;
pub mod patched_texts;
pub mod patches;
pub mod program;
pub mod references;
pub mod relayouts;
pub mod sessions;
pub mod settings;
pub mod settings_in_place;
pub mod streams;
pub mod tabled;
pub mod toml_files;
pub mod writes;
