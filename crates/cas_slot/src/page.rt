//! One page of a listing of keys.

ghost use Rattle.std.specs.Prelude.{◌≡◌, ◌≤◌, length, vec_len, nat_eq, IfOk};
ghost use Rattle.std.specs.Cmp.{partial_equiv_from_equiv};
ghost use Rattle.std.specs.Cmp.Lexicographic.{nat_list_eq_equiv, lists_equiv, pointwise};

use cas_change::Key;
use std::alloc::{AllocError, Global};
use std::marker::Model;

/// How many keys a page has at most.
pub const MOST_KEYS: usize = 4;

/// At most 4 keys, the next of a listing. It is seen as the list of them.
#[derive(Debug, Drop)]
pub struct Page {
    keys: Vec<Key>,
}

impl Model for Page {
    ghost use Rattle.std.specs.Prelude.{ℕ, ◌≤◌, List, length};

    ghost Value = { List (List ℕ) };

    ghost view = { λ page. page.keys.items };

    ghost invariant = { λ page. length page.keys.items ≤ 4 };
}

impl Page {
    /// The page of these keys, of which there are at most 4.
    pub fn new(keys: Vec<Key>) -> Page
        requires { vec_len keys ≤ 4 }
        ensures { result ≡ keys.items }
    {
        Page { keys }
    }

    /// The keys, in order.
    pub fn keys(&self) -> &[Key]
        ensures keys { result.now ≡ self.now }
        ensures few { length self.now ≤ 4 }
    {
        &self.keys
    }

    /// An equal page, in memory of its own.
    pub fn copy(&self) -> Result<Page, AllocError>
        ensures { IfOk result (λ copy. copy ≡ self.now) }
    {
        Ok(Page {
            keys: copy_keys(*self.keys.allocator(), &self.keys)?,
        })
    }
}

fn copy_keys(alloc: Global, keys: &[Key]) -> Result<Vec<Key>, AllocError>
    ensures { IfOk result (λ copies. copies.items ≡ keys.now) }
{
    let mut copies = Vec::new(alloc);
    for key in keys {
        copies.push(key.copy()?)?;
    }
    Ok(copies)
}

impl PartialEq for Page {
    ghost eq = { pointwise (pointwise nat_eq) };

    ghost laws = { partial_equiv_from_equiv (lists_equiv nat_list_eq_equiv) };

    fn eq(&self, other: &Page) -> bool {
        self.keys() == other.keys()
    }
}

impl Eq for Page {
    ghost laws = { lists_equiv nat_list_eq_equiv };
}
