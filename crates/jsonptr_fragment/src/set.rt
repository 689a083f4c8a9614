//! The bytes that a fragment may have only percent-encoded.

use percent_encoding::{AsciiSet, CONTROLS, ascii_set};

/// The ASCII bytes that a fragment has only percent-encoded (RFC 3986, section 3.5). Those outside
/// ASCII are encoded, too.
pub const ENCODED: AsciiSet = ascii_set!(
    CONTROLS
        .add(b' ')
        .add(b'"')
        .add(b'#')
        .add(b'%')
        .add(b'<')
        .add(b'>')
        .add(b'[')
        .add(b'\\')
        .add(b']')
        .add(b'^')
        .add(b'`')
        .add(b'{')
        .add(b'|')
        .add(b'}')
);
