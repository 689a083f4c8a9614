//! Finding the end of a string and of a comment.
ghost use Rattle.std.specs.Prelude.{◌≡◌, ◌≤◌, ◌+◌, drop, length, Some, None, MatchOption};
ghost use Rattle.jsonptr_comments.specs.PrivateScanning.{after_string, after_line, after_block};

/// Returns the offset after the string that `from` is in: after its last quote, or where the text ends.
#[tactic(auto, using(crate::proofs::ScanningLemmas::string_stop, crate::proofs::ScanningLemmas::string_skip, crate::proofs::ScanningLemmas::string_last, crate::proofs::ScanningLemmas::string_pass, crate::proofs::ScanningLemmas::string_done))]
pub(crate) fn string_end(text: &[u8], from: usize) -> usize
    requires { from ≤ length text.now }
    ensures after { drop result text.now ≡ after_string (drop from text.now) }
    ensures forward { from ≤ result }
    ensures within { result ≤ length text.now }
{
    let mut i = from;
    while i < text.len() {
        let byte = text[i];
        i += 1;
        if byte == b'"' {
            return i;
        }
        if byte == b'\\' && i < text.len() {
            i += 1;
        }
    }
    i
}

/// Returns the offset of the line break after `from`, or of the end of the text.
#[tactic(auto, using(crate::proofs::ScanningLemmas::line_stop, crate::proofs::ScanningLemmas::line_pass, crate::proofs::ScanningLemmas::line_done))]
pub(crate) fn line_end(text: &[u8], from: usize) -> usize
    requires { from ≤ length text.now }
    ensures after { drop result text.now ≡ after_line (drop from text.now) }
    ensures forward { from ≤ result }
    ensures within { result ≤ length text.now }
{
    let mut i = from;
    while i < text.len() && text[i] != b'\n' && text[i] != b'\r' {
        i += 1;
    }
    i
}

/// Returns the offset after the next `*/`, if there is one.
#[tactic(auto, using(crate::proofs::ScanningLemmas::block_hit, crate::proofs::ScanningLemmas::block_pass, crate::proofs::ScanningLemmas::block_done))]
pub(crate) fn block_end(text: &[u8], from: usize) -> Option<usize>
    requires { from ≤ length text.now }
    ensures { MatchOption result (after_block (drop from text.now) ≡ None)
        (λ end. (after_block (drop from text.now) ≡ Some (drop end text.now))
        × (from + 2 ≤ end) × (end ≤ length text.now)) }
{
    let mut i = from;
    while i + 1 < text.len() {
        if text[i] == b'*' && text[i + 1] == b'/' {
            return Some(i + 2);
        }
        i += 1;
    }
    None
}
