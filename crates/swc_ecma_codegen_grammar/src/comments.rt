//! The comments of a source text, by the positions that they stand before or after.

ghost use Rattle.std.specs.Prelude.{◌≡◌, ℕ, true, false, is_some, option_map, OnOk, OnErr, IfErr};
ghost use Rattle.std.proofs.Props.{props};
ghost use Rattle.std.specs.Option.{option_copied};
ghost use Rattle.swc_ecma_codegen_common.specs.declared.errors.Error.TheVariants.{OutOfMemory};
ghost use Rattle.swc_ecma_codegen_grammar.specs.CommentMaps.{Maps, with_leading, with_trailing, with, without_leading, without_trailing, without, lists_in, is_marked};

use std::alloc::{AllocError, Global};
use std::collections::BTreeMap;
use swc_ecma_codegen_common::{BytePos, Error, Result, Span};

/// How a comment is written.
#[derive(Debug, Clone, Copy, PartialEq, Eq)]
pub enum CommentKind {
    /// `// a`
    Line,
    /// `/* a */`
    Block,
}

/// A comment, without the characters that open and close it.
#[derive(Debug, Drop)]
pub struct Comment {
    pub kind: CommentKind,
    pub span: Span,
    pub text: String,
}

/// The comments of each position: the list of those before it, and the list of those after it. Each
/// list can be taken once. What is taken of one position changes nothing at another one.
pub trait Comments {
    ghost maps: { Self → Maps };

    /// Whether comments stand before `pos`.
    fn has_leading(&self, pos: BytePos) -> bool
        ensures { result ≡ is_some ((maps self.now).leading pos.0) };

    /// Whether comments stand after `pos`.
    fn has_trailing(&self, pos: BytePos) -> bool
        ensures { result ≡ is_some ((maps self.now).trailing pos.0) };

    /// The comments before `pos`.
    fn get_leading(&self, pos: BytePos) -> Option<&[Comment]>
        ensures { option_copied result ≡ (maps self.now).leading pos.0 };

    /// The comments before `pos`, taken out.
    fn take_leading(&mut self, pos: BytePos) -> Option<Vec<Comment>>
        ensures taken { option_map (λ list. list.items) result ≡ (maps self.old).leading pos.0 }
        ensures removed { maps self.new ≡ without_leading pos.0 (maps self.old) };

    /// The comments after `pos`, taken out.
    fn take_trailing(&mut self, pos: BytePos) -> Option<Vec<Comment>>
        ensures taken { option_map (λ list. list.items) result ≡ (maps self.old).trailing pos.0 }
        ensures removed { maps self.new ≡ without_trailing pos.0 (maps self.old) };
}

/// Two ordered maps of comments, for `SingleThreadedComments` of `swc_common`.
#[derive(Drop)]
pub struct CommentMaps {
    alloc: Global,
    leading: Lists,
    trailing: Lists,
}

impl CommentMaps {
    /// No comments. Takes no memory.
    #[tactic(auto, unfolding(crate::specs::CommentMaps::lists_in))]
    pub fn new(alloc: Global) -> CommentMaps
        ensures leading { (pos : ℕ) → (⟦<CommentMaps as Comments>⟧.maps result).leading pos ≡ None }
        ensures trailing { (pos : ℕ) → (⟦<CommentMaps as Comments>⟧.maps result).trailing pos
            ≡ None }
    {
        CommentMaps {
            alloc,
            leading: Lists::new(alloc),
            trailing: Lists::new(alloc),
        }
    }

    /// Puts a comment behind those that stand before `pos`. Want of memory, which is the only
    /// error, changes nothing and drops the comment.
    #[tactic(auto, unfolding(crate::specs::CommentMaps::with_leading))]
    pub fn add_leading(&mut self, pos: BytePos, comment: Comment) -> Result
        ensures added { OnOk result (⟦<CommentMaps as Comments>⟧.maps self.new
            ≡ with_leading pos.0 comment (⟦<CommentMaps as Comments>⟧.maps self.old)) }
        ensures unchanged { OnErr result (⟦<CommentMaps as Comments>⟧.maps self.new
            ≡ ⟦<CommentMaps as Comments>⟧.maps self.old) }
        ensures no_memory { IfErr result (λ error. error ≡ OutOfMemory) }
    {
        match self.leading.add(self.alloc, pos, comment) {
            Ok(()) => Ok(()),
            Err(_) => Err(Error::OutOfMemory),
        }
    }

    /// Puts a comment behind those that stand after `pos`. Want of memory, which is the only error,
    /// changes nothing and drops the comment.
    #[tactic(auto, unfolding(crate::specs::CommentMaps::with_trailing))]
    pub fn add_trailing(&mut self, pos: BytePos, comment: Comment) -> Result
        ensures added { OnOk result (⟦<CommentMaps as Comments>⟧.maps self.new
            ≡ with_trailing pos.0 comment (⟦<CommentMaps as Comments>⟧.maps self.old)) }
        ensures unchanged { OnErr result (⟦<CommentMaps as Comments>⟧.maps self.new
            ≡ ⟦<CommentMaps as Comments>⟧.maps self.old) }
        ensures no_memory { IfErr result (λ error. error ≡ OutOfMemory) }
    {
        match self.trailing.add(self.alloc, pos, comment) {
            Ok(()) => Ok(()),
            Err(_) => Err(Error::OutOfMemory),
        }
    }
}

/// So many places have marks.
const PLACES: u32 = 16384;

/// Lists of comments by their positions, and marks that tell of most positions that they have none,
/// without a look into the map. Positions that are equal but for a multiple of 16,384 have the same
/// mark.
#[derive(Drop)]
struct Lists {
    lists: BTreeMap<BytePos, Vec<Comment>>,
    // Empty until there is a list. A position that has one is marked.
    marks: Vec<bool>,
    ghost marked: { (pos : ℕ) → is_marked marks.items pos ≡ false
        → is_some (lists_in ⟦<BytePos as Ord>⟧.cmp lists pos) ≡ false } by { Prim.hlevel props },
}

impl Lists {
    /// No lists. Takes no memory.
    #[tactic(auto, unfolding(crate::specs::CommentMaps::lists_in))]
    fn new(alloc: Global) -> Lists
        ensures { (pos : ℕ) → lists_in ⟦<BytePos as Ord>⟧.cmp result.lists pos ≡ None }
    {
        Lists {
            lists: BTreeMap::new(alloc),
            marks: Vec::new(alloc),
        }
    }

    /// Whether a position is marked: one that isn't has no list.
    #[inline(always)]
    #[tactic(auto, unfolding(crate::specs::CommentMaps::is_marked, crate::specs::CommentMaps::place))]
    fn is_marked(&self, pos: BytePos) -> bool
        ensures { result ≡ is_marked self.now.marks.items pos.0 }
    {
        match self.marks.get((pos.0 % PLACES) as usize) {
            Some(mark) => *mark,
            None => false,
        }
    }

    /// Puts a comment behind the list at `pos`, where there is one, and else makes a list of it.
    fn add(
        &mut self,
        alloc: Global,
        pos: BytePos,
        comment: Comment,
    ) -> std::result::Result<(), AllocError>
        ensures added { OnOk result (lists_in ⟦<BytePos as Ord>⟧.cmp self.new.lists
            ≡ with pos.0 comment (lists_in ⟦<BytePos as Ord>⟧.cmp self.old.lists)) }
        ensures unchanged { OnErr result (lists_in ⟦<BytePos as Ord>⟧.cmp self.new.lists
            ≡ lists_in ⟦<BytePos as Ord>⟧.cmp self.old.lists) }
    {
        mark(&mut self.marks, pos)?;
        add(alloc, &mut self.lists, pos, comment)
    }

    /// Whether there is a list at `pos`.
    #[inline(always)]
    fn has(&self, pos: BytePos) -> bool
        ensures { result ≡ is_some (lists_in ⟦<BytePos as Ord>⟧.cmp self.now.lists pos.0) }
    {
        self.is_marked(pos) && is_listed(&self.lists, pos)
    }

    /// The list at `pos`.
    fn get(&self, pos: BytePos) -> Option<&[Comment]>
        ensures { option_copied result ≡ lists_in ⟦<BytePos as Ord>⟧.cmp self.now.lists pos.0 }
    {
        if !self.is_marked(pos) {
            return None;
        }
        list_at(&self.lists, pos)
    }

    /// The list at `pos`, taken out.
    fn take(&mut self, pos: BytePos) -> Option<Vec<Comment>>
        ensures taken { option_map (λ list. list.items) result
            ≡ lists_in ⟦<BytePos as Ord>⟧.cmp self.old.lists pos.0 }
        ensures removed { lists_in ⟦<BytePos as Ord>⟧.cmp self.new.lists
            ≡ without pos.0 (lists_in ⟦<BytePos as Ord>⟧.cmp self.old.lists) }
    {
        if !self.is_marked(pos) {
            return None;
        }
        take(&mut self.lists, pos)
    }
}

/// Marks a position. Want of memory changes no mark.
#[tactic(auto, unfolding(crate::specs::CommentMaps::is_marked, crate::specs::CommentMaps::place))]
fn mark(marks: &mut Vec<bool>, pos: BytePos) -> std::result::Result<(), AllocError>
    ensures marked { OnOk result (is_marked marks.new.items pos.0 ≡ true) }
    ensures kept { (q : ℕ) → is_marked marks.new.items q ≡ false
        → is_marked marks.old.items q ≡ false }
{
    let place = (pos.0 % PLACES) as usize;
    if marks.len() <= place {
        marks.resize(PLACES as usize, false)?;
    }
    marks[place] = true;
    Ok(())
}

/// Whether there is a list at `pos`.
#[inline(never)]
#[tactic(auto, using(crate::proofs::Lists::is_some_mapped), unfolding(crate::specs::CommentMaps::lists_in))]
fn is_listed(lists: &BTreeMap<BytePos, Vec<Comment>>, pos: BytePos) -> bool
    ensures { result ≡ is_some (lists_in ⟦<BytePos as Ord>⟧.cmp lists.now pos.0) }
{
    lists.contains_key(&pos)
}

/// The list at `pos`.
#[tactic(auto, unfolding(crate::specs::CommentMaps::lists_in))]
fn list_at(lists: &BTreeMap<BytePos, Vec<Comment>>, pos: BytePos) -> Option<&[Comment]>
    ensures { option_copied result ≡ lists_in ⟦<BytePos as Ord>⟧.cmp lists.now pos.0 }
{
    match lists.get(&pos) {
        Some(list) => Some(list),
        None => None,
    }
}

/// Puts a comment behind the list at `pos`, where there is one, and else makes a list of it.
fn add(
    alloc: Global,
    lists: &mut BTreeMap<BytePos, Vec<Comment>>,
    pos: BytePos,
    comment: Comment,
) -> std::result::Result<(), AllocError>
    ensures added { OnOk result (lists_in ⟦<BytePos as Ord>⟧.cmp lists.new
        ≡ with pos.0 comment (lists_in ⟦<BytePos as Ord>⟧.cmp lists.old)) }
    ensures unchanged { OnErr result (lists_in ⟦<BytePos as Ord>⟧.cmp lists.new
        ≡ lists_in ⟦<BytePos as Ord>⟧.cmp lists.old) }
{
    match lists.get_mut(&pos) {
        Some(list) => {
            list.push(comment)?;
        }
        None => {
            let mut list = Vec::new(alloc);
            list.push(comment)?;
            lists.insert(pos, list)?;
        }
    }
    Ok(())
}

/// The list at `pos`, taken out.
#[tactic(auto, unfolding(crate::specs::CommentMaps::lists_in))]
fn take(lists: &mut BTreeMap<BytePos, Vec<Comment>>, pos: BytePos) -> Option<Vec<Comment>>
    ensures taken { option_map (λ list. list.items) result
        ≡ lists_in ⟦<BytePos as Ord>⟧.cmp lists.old pos.0 }
    ensures removed { lists_in ⟦<BytePos as Ord>⟧.cmp lists.new
        ≡ without pos.0 (lists_in ⟦<BytePos as Ord>⟧.cmp lists.old) }
{
    lists.remove(&pos)
}

impl Comments for CommentMaps {
    ghost maps = { λ m. record {
      leading = lists_in ⟦<BytePos as Ord>⟧.cmp m.leading.lists;
      trailing = lists_in ⟦<BytePos as Ord>⟧.cmp m.trailing.lists;
    } };

    #[inline(always)]
    fn has_leading(&self, pos: BytePos) -> bool {
        self.leading.has(pos)
    }

    #[inline(always)]
    fn has_trailing(&self, pos: BytePos) -> bool {
        self.trailing.has(pos)
    }

    fn get_leading(&self, pos: BytePos) -> Option<&[Comment]> {
        self.leading.get(pos)
    }

    #[tactic(auto, unfolding(crate::specs::CommentMaps::without_leading))]
    fn take_leading(&mut self, pos: BytePos) -> Option<Vec<Comment>> {
        self.leading.take(pos)
    }

    #[tactic(auto, unfolding(crate::specs::CommentMaps::without_trailing))]
    fn take_trailing(&mut self, pos: BytePos) -> Option<Vec<Comment>> {
        self.trailing.take(pos)
    }
}

impl<C: Comments> Comments for &mut C {
    ghost maps = { λ c. C.maps c.now };

    fn has_leading(&self, pos: BytePos) -> bool {
        (**self).has_leading(pos)
    }

    fn has_trailing(&self, pos: BytePos) -> bool {
        (**self).has_trailing(pos)
    }

    fn get_leading(&self, pos: BytePos) -> Option<&[Comment]> {
        (**self).get_leading(pos)
    }

    fn take_leading(&mut self, pos: BytePos) -> Option<Vec<Comment>> {
        (**self).take_leading(pos)
    }

    fn take_trailing(&mut self, pos: BytePos) -> Option<Vec<Comment>> {
        (**self).take_trailing(pos)
    }
}
