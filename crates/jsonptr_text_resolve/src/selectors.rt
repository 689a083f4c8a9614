//! The selectors that the tokens of a pointer stand for.
ghost use Rattle.std.specs.Prelude.{IfOk};
ghost use Rattle.jsonptr.specs.Pointer.{tokens};
ghost use Rattle.jsonptr_text_search.specs.Search.{choice_of, choices};
ghost use Rattle.jsonptr_text_resolve.specs.Selecting.{IsChoiceOf, AreChoicesOf};
ghost use Rattle.jsonptr_text_resolve.specs.PrivateSelectors.{NamesIndex};

use jsonptr::index::Index;
use jsonptr::{Pointer, Token};
use jsonptr_text_search::selector::Selector;
use std::alloc::{AllocError, Global};

/// Returns a selector for each token of the pointer.
///
/// # Errors
///
/// [`AllocError`] if an allocation fails.
///
/// # Examples
///
/// ```rust
/// let selectors = selectors_of(alloc, Pointer::parse("/a~1b/0")?)?;
/// assert_eq!(rt; (selectors[0].key.as_str(), selectors[0].index), ("a/b", None));
/// assert_eq!(rt; (selectors[1].key.as_str(), selectors[1].index), ("0", Some(0)));
/// ```
#[tactic(auto, using(crate::proofs::SelectorLemmas::more_selectors))]
pub fn selectors_of(alloc: Global, pointer: Pointer<'_>) -> Result<Vec<Selector>, AllocError>
    ensures { IfOk result (λ v. AreChoicesOf (tokens pointer.entry) (choices v.items)) }
{
    let mut selectors = Vec::new(alloc);
    for token in pointer.tokens() {
        let selector = selector_of(alloc, &token)?;
        selectors.push(selector)?;
    }
    Ok(selectors)
}

/// Returns the selector for the token.
///
/// # Errors
///
/// [`AllocError`] if the allocation for the key fails.
///
/// # Examples
///
/// ```rust
/// let selector = selector_of(alloc, &Token::new(alloc, CowStr::Borrowed("~"))?)?;
/// assert_eq!(rt; (selector.key.as_str(), selector.index), ("~", None));
/// ```
#[tactic(auto, using(crate::proofs::SelectorLemmas::choice_is))]
pub fn selector_of(alloc: Global, token: &Token<'_>) -> Result<Selector, AllocError>
    ensures { IfOk result (λ s. IsChoiceOf token.now (choice_of s)) }
{
    let key = token.decoded(alloc)?.into_owned(alloc)?;
    let index = index_of(token);
    Ok(Selector { key, index })
}

/// Returns the index that the token is, or `None` if it is not an index of an element.
#[tactic(auto, using(crate::proofs::SelectorLemmas::number_names, crate::proofs::SelectorLemmas::next_names, crate::proofs::SelectorLemmas::none_named))]
fn index_of(token: &Token<'_>) -> Option<usize>
    ensures { NamesIndex token.now result }
{
    match token.to_index() {
        Ok(Index::Num(index)) => Some(index),
        Ok(Index::Next) => None,
        Err(_) => None,
    }
}
