//! JSON values as documents.
use crate::child_ref::ChildRef;
use crate::document::{Document, Node};
use crate::document_mut::DocumentMut;
use serde_json::Value;
use std::alloc::{AllocError, Global};
use std::collections::BTreeMap;

impl Document for Value {
    ghost use Rattle.std.specs.Prelude.{◌≡◌, [], ◌∷◌, Some, refl};
    ghost use Rattle.std.proofs.Common.{◌∙◌};
    ghost use Rattle.serde_json.specs.View.{view};
    ghost use Rattle.jsonptr_tree.specs.Json.{content, nodes as json_nodes, value_at, HasSortedKeys};
    ghost use Rattle.jsonptr_tree.proofs.JsonLemmas.{nodes-sub, value_at-below, ascends_part};

    ghost nodes = { λ v. json_nodes (view v) };

    ghost stands_at = { λ v w u. value_at w (view v) ≡ Some (content (view u)) };

    ghost has_sorted_keys = { λ v. HasSortedKeys (view v) };

    fn node(&self) -> Node<'_, Value> {
        match self {
            Value::Null => Node::Leaf,
            Value::Bool(_) => Node::Leaf,
            Value::Number(_) => Node::Leaf,
            Value::String(_) => Node::Leaf,
            Value::Array(elements) => Node::Array(elements),
            Value::Object(members) => Node::Object(members),
        }
    }

    ghost has_root = { λ d. refl };

    ghost here = { λ d. refl };

    ghost below = { λ d e f w s h k. value_at-below w (s ∷ []) (view d) (view e) h ∙ k };

    ghost is_sub = { λ d e w h. nodes-sub w (view d) (view e) h };

    ghost part_has_sorted_keys = { λ d e w h a. ascends_part w (view d) (view e) a h };
}

impl DocumentMut for Value {
    ghost use Rattle.serde_json.specs.Data.{null};
    ghost use Rattle.serde_json.specs.View.{view};
    ghost use Rattle.jsonptr_tree.specs.Json.{content, nodes as json_nodes};
    ghost use Rattle.jsonptr_tree.proofs.ContentLemmas.{map_of-IsTree};

    ghost blank_map = { json_nodes null };

    fn blank(_: Global) -> Value {
        Value::Null
    }

    fn discard(document: Value) {
        jsonptr_value::discard(document);
    }

    fn array_of(alloc: Global, element: Value) -> Result<Value, AllocError> {
        let mut array = match Vec::with_capacity(alloc, 1) {
            Ok(array) => array,
            Err(error) => {
                Value::discard(element);
                return Err(error);
            }
        };
        match array.push(element) {
            Ok(()) => Ok(Value::Array(array)),
            Err(failed) => {
                Value::discard(failed.value);
                Err(AllocError)
            }
        }
    }

    fn object_of(alloc: Global, name: String, value: Value) -> Result<Value, AllocError> {
        let mut object = BTreeMap::new(alloc);
        match object.insert(name, value) {
            Ok(_) => Ok(Value::Object(object)),
            Err(failed) => {
                let (_name, value) = failed.value;
                Value::discard(value);
                Err(AllocError)
            }
        }
    }

    fn push(&mut self, element: Value) -> Result<(), AllocError> {
        let Value::Array(elements) = self else {
            unreachable!();
        };
        match elements.push(element) {
            Ok(()) => Ok(()),
            Err(failed) => {
                Value::discard(failed.value);
                Err(AllocError)
            }
        }
    }

    fn insert(&mut self, name: String, value: Value) -> Result<(), AllocError> {
        let Value::Object(members) = self else {
            unreachable!();
        };
        match members.insert(name, value) {
            Ok(_) => Ok(()),
            Err(failed) => {
                let (_name, value) = failed.value;
                Value::discard(value);
                Err(AllocError)
            }
        }
    }

    fn remove(&mut self, child: &ChildRef<'_>) -> Option<Value> {
        match (self, child) {
            (Value::Array(elements), ChildRef::Element(index)) if *index < elements.len() => {
                Some(elements.remove(*index))
            }
            (Value::Object(members), ChildRef::Member(key)) => members.remove(key.as_str()),
            _ => None,
        }
    }

    ghost is_tree = { λ d. map_of-IsTree (content (view d)) };
}
