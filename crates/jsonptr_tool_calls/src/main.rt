//! Makes the calls that the lines of the input ask for, and writes their results.
//!
//! A line is a list of words, separated by tabs, in which `\t`, `\n`, `\r` and `\\` represent a
//! tab, a line feed, a carriage return and a backslash. Its first word says what it is:
//!
//! | Word | Line |
//! |---|---|
//! | `case` | a case of `tools/call_cases.py`: one call, between two marks |
//! | `find` | a case of `tools/in_text.py`: a pointer, and the bytes of a text, as hexadecimal digits |
//! | `change` | a case of `tools/edits_in_text.py`: an edit, a text, a pointer, and an argument |
//! | `toml` | a case of `tools/edits_in_toml.py`: an edit, a text, a pointer, and a value |
//! | `comments` | a case of `tools/comments.py`: a call, a text, and for an edit a pointer and an argument |
//! | `merge` | a case of `tools/merges.py`: a merge, and two documents or three |
//! | `patch` | a case of `tools/patches.py`: a document and a patch document |
//! | `relayout` | a case of `tools/relayouts.py`: the old text and the new one |
//! | another | a request of `docs/COMPARING.md` |
//!
//! With five arguments it makes one edit of the text that is its input again and again, for
//! `tools/bench/edits.py` and `tools/bench/toml_edits.py`.
#![tactic(auto)]

mod cases;
mod comments;
mod document;
mod documents;
mod edits;
mod errors;
mod failing_writer;
mod in_text;
mod merges;
mod out;
mod patches;
mod pointers;
mod programs;
mod relayouts;
mod requests;
mod rounds;
mod sessions;
mod shows;
mod tabled;
mod text_edits;
mod texts;
mod tokens;
mod toml_edits;
mod toml_text;
mod undos;
mod words;

use jsonptr_text_edit::Buffers;
use jsonptr_text_resolve::Scratch;
use out::Out;
use std::env;
use std::io::{self, BufRead, BufReader};
use words::{SEPARATOR, Words, unescaped};

fn main(rt: HostRuntime) -> io::Result<()> {
    let mut out = Out::new(&rt);
    let arguments = arguments(&rt)?;
    if arguments.is_empty() {
        run_lines(&rt, &mut out)?;
    } else {
        let text = io::read_to_string(rt.alloc(), rt.stdin())?;
        out.set_case(true);
        rounds::run(&mut out, text.as_str(), Words::new(arguments.as_str()));
    }
    out.finish()
}

/// Returns the arguments of the program after its name, each with the separator after it.
fn arguments(rt: &HostRuntime) -> io::Result<String> {
    let mut joined = String::new(rt.alloc());
    for word in env::args(rt)?.skip(1) {
        joined.push_str(word.as_str())?;
        joined.push(SEPARATOR)?;
    }
    Ok(joined)
}

/// Makes the calls of each line. All lines use the same buffers.
fn run_lines(rt: &HostRuntime, out: &mut Out<'_>) -> io::Result<()> {
    let mut buffers = Buffers::new(rt.alloc());
    let mut scratch = Scratch::new(rt.alloc());
    for line in BufReader::new(rt.alloc(), rt.reader())?.lines(rt.alloc()) {
        match unescaped(rt.alloc(), line?.as_str()) {
            Ok(text) => answer(out, &mut buffers, &mut scratch, Words::new(text.as_str())),
            Err(_) => out.memory(),
        }
    }
    Ok(())
}

/// Makes the calls that a line asks for, and writes their results.
fn answer(out: &mut Out<'_>, buffers: &mut Buffers, scratch: &mut Scratch, mut words: Words<'_>) {
    match words.next() {
        "case" => {
            out.set_case(true);
            cases::run(out, words);
            return out.set_case(false);
        }
        "find" => in_text::request(out, scratch, words),
        "change" => text_edits::compare(out, buffers, words),
        "toml" => toml_edits::request(out, words),
        "comments" => comments::request(out, buffers, words),
        "merge" => merges::request(out, words),
        "patch" => patches::round(out, words),
        "relayout" => relayouts::request(out, buffers, words),
        request => requests::run(out, request, words),
    }
    out.end_request()
}
