//! Resolves pointers in JSON documents.
ghost use Rattle.jsonptr_grammar.specs.Text.{HasNoTilde, text};
ghost use Rattle.jsonptr.specs.Resolve.{Refuses};

use crate::pointer::Pointer;
use crate::resolve::{Error, Resolve, find};
use jsonptr_base::fault::Fault;
use serde_json::Value;
use std::alloc::Global;

/// JSON documents. Allocates only to decode a token that contains `~`.
impl Resolve for Value {
    ghost use Rattle.serde_json.specs.View.{view};
    ghost use Rattle.jsonptr_tree.specs.Json.{nodes, FindsValue};

    type Value = Value;

    type Error = Error;

    ghost finds = { λ v tokens r. FindsValue (view v) tokens (view r) };

    ghost refuses = { λ v tokens e. Refuses (nodes (view v)) tokens e };

    ghost needs_no_memory = { λ v tokens. HasNoTilde (text tokens) };

    fn resolve(&self, alloc: Global, ptr: Pointer<'_>) -> Result<&Value, Fault<Error>> {
        find(alloc, self, ptr)
    }
}
