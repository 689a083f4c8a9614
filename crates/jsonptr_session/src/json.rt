//! Sessions over JSON documents.

use crate::document::{SessionDocument, swap};
use jsonptr::{Fault, Pointer, assign, resolve};
use serde_json::Value;
use std::alloc::{AllocError, Global};

impl SessionDocument for Value {
    ghost use Rattle.std.specs.Prelude.{◌≡◌, refl};
    ghost use Rattle.std.proofs.Common.{sym, subst};
    ghost use Rattle.serde_json.specs.View.{view};
    ghost use Rattle.jsonptr.specs.Json.{content, HasSortedKeys};
    ghost use Rattle.jsonptr.proofs.Calling.{map_of-IsTree};
    ghost use Rattle.jsonptr.specs.Documents.{json_map, json_blank};

    ghost nodes = { json_map };

    ghost blank = { json_blank };

    ghost is_same = { λ d e. view e ≡ view d };

    ghost has_sorted_keys = { λ d. HasSortedKeys (view d) };

    fn find_at(&self, alloc: Global, pointer: Pointer<'_>) -> Result<(), Fault<resolve::Error>> {
        pointer.resolve(alloc, self)?;
        Ok(())
    }

    fn copy_at(&self, alloc: Global, pointer: Pointer<'_>) -> Result<Value, Fault<resolve::Error>> {
        Ok(pointer.resolve(alloc, self)?.clone()?)
    }

    fn swap_at(
        &mut self,
        alloc: Global,
        pointer: Pointer<'_>,
        value: &mut Value,
    ) -> Result<(), Fault<resolve::Error>> {
        swap(alloc, self, pointer, value)
    }

    fn assign_at(
        &mut self,
        alloc: Global,
        pointer: Pointer<'_>,
        value: Value,
    ) -> Result<Option<Value>, Fault<assign::Error>> {
        pointer.assign(alloc, self, value)
    }

    fn delete_at(
        &mut self,
        alloc: Global,
        pointer: Pointer<'_>,
    ) -> Result<Option<Value>, AllocError> {
        pointer.delete(alloc, self)
    }

    ghost is_tree = { λ d. map_of-IsTree (content (view d)) };

    ghost same_self = { λ d. refl };

    ghost same_sorted = { λ d e same ordered. subst HasSortedKeys (sym same) ordered };
}
