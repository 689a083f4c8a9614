//! TOML values as documents. A table is an object.
use crate::child_ref::ChildRef;
use crate::document::{Document, Node};
use crate::document_mut::DocumentMut;
use std::alloc::{AllocError, Global};
use toml::{Table, Value};

impl Document for Value {
    ghost use Rattle.std.specs.Prelude.{◌≡◌, [], ◌∷◌, Some, refl};
    ghost use Rattle.std.proofs.Common.{◌∙◌};
    ghost use Rattle.toml.specs.View.{view};
    ghost use Rattle.jsonptr_tree.specs.TomlValue.{content, nodes as toml_nodes, value_at, HasSortedKeys};
    ghost use Rattle.jsonptr_tree.proofs.TomlLemmas.{nodes-sub, value_at-below, ascends_part};

    ghost nodes = { λ v. toml_nodes (view v) };

    ghost stands_at = { λ v w u. value_at w (view v) ≡ Some (content (view u)) };

    ghost has_sorted_keys = { λ v. HasSortedKeys (view v) };

    fn node(&self) -> Node<'_, Value> {
        match self {
            Value::String(_) => Node::Leaf,
            Value::Integer(_) => Node::Leaf,
            Value::Float(_) => Node::Leaf,
            Value::Boolean(_) => Node::Leaf,
            Value::Datetime(_) => Node::Leaf,
            Value::Array(elements) => Node::Array(elements),
            Value::Table(members) => Node::Object(members),
        }
    }

    ghost has_root = { λ d. refl };

    ghost here = { λ d. refl };

    ghost below = { λ d e f w s h k. value_at-below w (s ∷ []) (view d) (view e) h ∙ k };

    ghost is_sub = { λ d e w h. nodes-sub w (view d) (view e) h };

    ghost part_has_sorted_keys = { λ d e w h a. ascends_part w (view d) (view e) a h };
}

impl DocumentMut for Value {
    ghost use Rattle.toml.specs.Data.{table, no_members};
    ghost use Rattle.toml.specs.View.{view};
    ghost use Rattle.jsonptr_tree.specs.TomlValue.{content, nodes as toml_nodes};
    ghost use Rattle.jsonptr_tree.proofs.ContentLemmas.{map_of-IsTree};

    ghost blank_map = { toml_nodes (table no_members) };

    fn blank(alloc: Global) -> Value {
        Value::Table(Table::new(alloc))
    }

    fn discard(document: Value) {
        jsonptr_value::discard(document);
    }

    fn array_of(alloc: Global, element: Value) -> Result<Value, AllocError> {
        let mut array = match Vec::with_capacity(alloc, 1) {
            Ok(array) => array,
            Err(error) => {
                Value::discard(element);
                return Err(error);
            }
        };
        match array.push(element) {
            Ok(()) => Ok(Value::Array(array)),
            Err(failed) => {
                Value::discard(failed.value);
                Err(AllocError)
            }
        }
    }

    fn object_of(alloc: Global, name: String, value: Value) -> Result<Value, AllocError> {
        let mut table = Table::new(alloc);
        match table.insert(name, value) {
            Ok(_) => Ok(Value::Table(table)),
            Err(failed) => {
                let (_name, value) = failed.value;
                Value::discard(value);
                Err(AllocError)
            }
        }
    }

    fn push(&mut self, element: Value) -> Result<(), AllocError> {
        let Value::Array(elements) = self else {
            unreachable!();
        };
        match elements.push(element) {
            Ok(()) => Ok(()),
            Err(failed) => {
                Value::discard(failed.value);
                Err(AllocError)
            }
        }
    }

    fn insert(&mut self, name: String, value: Value) -> Result<(), AllocError> {
        let Value::Table(members) = self else {
            unreachable!();
        };
        match members.insert(name, value) {
            Ok(_) => Ok(()),
            Err(failed) => {
                let (_name, value) = failed.value;
                Value::discard(value);
                Err(AllocError)
            }
        }
    }

    fn remove(&mut self, child: &ChildRef<'_>) -> Option<Value> {
        match (self, child) {
            (Value::Array(elements), ChildRef::Element(index)) if *index < elements.len() => {
                Some(elements.remove(*index))
            }
            (Value::Table(members), ChildRef::Member(key)) => members.remove(key.as_str()),
            _ => None,
        }
    }

    ghost is_tree = { λ d. map_of-IsTree (content (view d)) };
}
