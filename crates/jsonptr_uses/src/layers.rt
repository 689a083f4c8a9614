//! Settings in three layers, by merge patches (RFC 7396): defaults, what a site changes of them,
//! and what a user changes of both.
ghost use Rattle.std.specs.Prelude.{◌≡◌, ◌⊎◌, ◌<◌, IfOk, IsOk, MatchOption};
ghost use Rattle.serde_json.specs.Data.{depth};
ghost use Rattle.serde_json.specs.View.{view};
ghost use Rattle.jsonptr.specs.Delete.{NamesNothing};
ghost use Rattle.jsonptr.specs.Fault.{IfRefused};
ghost use Rattle.jsonptr.specs.Json.{nodes, FindsValue, HasSortedKeys};
ghost use Rattle.jsonptr.specs.Pointer.{tokens};
ghost use Rattle.jsonptr.specs.Text.{HasNoTilde, text};
ghost use Rattle.jsonptr_uses.specs.Layers.{settings_of, IsSource};

use jsonptr::{Fault, Pointer};
use jsonptr_merge::{MAX_MERGE_DEPTH, TooDeep, merge_patch, merge_patched};
use serde_json::Value;
use std::alloc::{AllocError, Global};

/// Three layers of settings.
#[derive(Drop)]
pub struct Layers {
    /// The settings that hold if no other layer changes them.
    pub defaults: Value,
    /// A merge patch of the defaults.
    pub site: Value,
    /// A merge patch of the settings of the site.
    pub user: Value,
}

/// The layer that a setting comes from.
#[derive(Clone, Copy, Debug, PartialEq, Eq)]
pub enum Source {
    /// The setting comes from the defaults.
    Defaults,
    /// The setting comes from the site.
    Site,
    /// The setting comes from the user.
    User,
    /// The setting is an object, and each of its members has a source of its own.
    Members,
}

/// Returns the settings: the defaults with the merge patch of the site, and then with that of the
/// user.
///
/// # Errors
///
/// [`Fault::Refused`] if the layer of the site or that of the user nests deeper than
/// [`MAX_MERGE_DEPTH`] levels, and [`Fault::Memory`] if an allocation fails.
pub fn settings(alloc: Global, layers: &Layers) -> Result<Value, Fault<TooDeep>>
    ensures made { IfOk result (λ made. nodes (view made) ≡ settings_of layers.now) }
    ensures sorted { IfOk result (λ made. HasSortedKeys (view layers.now.defaults)
        → HasSortedKeys (view layers.now.site) → HasSortedKeys (view layers.now.user)
        → HasSortedKeys (view made)) }
    ensures refused { IfRefused result (λ _. (MAX_MERGE_DEPTH < depth (view layers.now.site))
        ⊎ (MAX_MERGE_DEPTH < depth (view layers.now.user))) }
{
    let mut made = merge_patched(alloc, &layers.defaults, &layers.site)?;
    merge_patch(alloc, &mut made, &layers.user)?;
    Ok(made)
}

/// Returns which layer the setting at the pointer comes from, or `None` if there is no such
/// setting.
///
/// # Errors
///
/// [`AllocError`] if an allocation fails. Only a pointer that contains `~` needs one.
///
/// # Conditions
///
/// `made` are the settings of these layers, as [`settings`] returns them.
pub fn source_of(
    alloc: Global,
    layers: &Layers,
    made: &Value,
    pointer: Pointer<'_>,
) -> Result<Option<Source>, AllocError>
    requires { nodes (view made.now) ≡ settings_of layers.now }
    ensures source { IfOk result (IsSource layers.now (tokens pointer.entry)) }
    ensures no_memory { HasNoTilde (text (tokens pointer.entry)) → IsOk result }
{
    let Some(setting) = find(alloc, made, pointer)? else {
        return Ok(None);
    };
    if setting.is_object() {
        return Ok(Some(Source::Members));
    }
    if find(alloc, &layers.user, pointer)?.is_some() {
        return Ok(Some(Source::User));
    }
    if find(alloc, &layers.site, pointer)?.is_some() {
        return Ok(Some(Source::Site));
    }
    Ok(Some(Source::Defaults))
}

/// Returns the value that the pointer resolves to, or `None` if it resolves to none.
fn find<'v>(
    alloc: Global,
    document: &'v Value,
    pointer: Pointer<'_>,
) -> Result<Option<&'v Value>, AllocError>
    ensures found { IfOk result (λ found. MatchOption found
        (NamesNothing (nodes (view document.now)) (tokens pointer.entry))
        (λ v. FindsValue (view document.now) (tokens pointer.entry) (view v.now))) }
    ensures no_memory { HasNoTilde (text (tokens pointer.entry)) → IsOk result }
{
    match pointer.resolve(alloc, document) {
        Ok(value) => Ok(Some(value)),
        Err(fault) => {
            fault.refused()?;
            Ok(None)
        }
    }
}
