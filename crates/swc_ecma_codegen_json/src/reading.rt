//! What can be read: first its parts, and then it is made of them.

use crate::source::{Failed, Fault, Source};
use serde::Name;
use std::alloc::{AllocError, Global};
use swc_ecma_codegen_tree::Holds;

/// The sorts of nodes that links hold, those of parts by area.
#[derive(Debug, Clone, Copy, PartialEq, Eq)]
pub enum Sort {
    Expr,
    Stmt,
    MemberExpr,
    ExprPart(ExprPartSort),
    StmtPart(StmtPartSort),
    JSXPart(JSXPartSort),
    TsPart(TsPartSort),
}

/// The sorts of patterns and of parts of expressions.
#[derive(Debug, Clone, Copy, PartialEq, Eq)]
pub enum ExprPartSort {
    Pat,
    Tpl,
    ObjectLit,
    PropName,
    OptCall,
    AssignTarget,
}

/// The sorts of parts of statements, of declarations, classes and modules.
#[derive(Debug, Clone, Copy, PartialEq, Eq)]
pub enum StmtPartSort {
    Function,
    Class,
    BlockStmt,
    Decl,
    ModuleDecl,
    VarDecl,
    ClassMember,
}

/// The sorts of JSX.
#[derive(Debug, Clone, Copy, PartialEq, Eq)]
pub enum JSXPartSort {
    JSXElement,
    JSXFragment,
    JSXObject,
}

/// The sorts of TypeScript.
#[derive(Debug, Clone, Copy, PartialEq, Eq)]
pub enum TsPartSort {
    TsType,
    TsNamespaceBody,
    TsTypeAnn,
    TsTypeParamDecl,
    TsTypeParamInstantiation,
    TsFnParam,
    TsInterfaceBody,
    TsEntityName,
}

/// Makes what a link holds.
pub trait Make<N: Drop> {
    fn make<S: Source>(&self, sort: Sort, source: &mut S) -> Result<N, Failed>;
}

/// What links can hold, and what makes it. A check of what names `AnyNode` itself is dear.
pub trait Readable: Drop {
    type Maker: Make<Self> + Drop;

    fn maker(alloc: Global) -> Result<Self::Maker, AllocError>;

    /// A node of a sort. What its links hold is made by `make`.
    fn read_sorted<S: Source, M: Make<Self>>(
        sort: Sort,
        source: &mut S,
        make: &M,
    ) -> Result<Self, Failed>;
}

/// What can be read. What a link holds is made by `make`.
pub trait ReadFrom<N: Drop>: Sized {
    /// What is read of it before it is made.
    type Parts: Parts<N>;

    /// The names of its members, or of its variants.
    fn names() -> &'static [Name<'static>] {
        &[]
    }

    /// What these parts make. Of some types it reads the rest.
    fn of<S: Source, M: Make<N>>(
        parts: Self::Parts,
        source: &mut S,
        make: &M,
    ) -> Result<Self, Failed>;

    final fn read_from<S: Source, M: Make<N>>(source: &mut S, make: &M) -> Result<Self, Failed> {
        let parts = Self::Parts::begin(Self::names(), source, make)?;
        let value = Self::of(parts, source, make)?;
        Self::Parts::end(source);
        Ok(value)
    }
}

/// What is read of a value before it is made.
pub trait Parts<N: Drop>: Sized {
    /// What makes the default of a value whose member is left out of the short form; none where
    /// there is no default.
    #[inline(always)]
    fn left_out() -> Option<Self> {
        None
    }

    fn begin<S: Source, M: Make<N>>(
        names: &[Name<'_>],
        source: &mut S,
        make: &M,
    ) -> Result<Self, Failed>;

    /// What has to come after the value. Where something else comes, the source fails from then on:
    /// so a value that is read is never let go here.
    fn end<S: Source>(source: &mut S);
}

/// Nothing: a value reads itself.
#[derive(Debug, Clone, Copy, PartialEq, Eq)]
pub struct Whole;

impl<N: Drop> Parts<N> for Whole {
    #[inline(always)]
    fn begin<S: Source, M: Make<N>>(
        _names: &[Name<'_>],
        _source: &mut S,
        _make: &M,
    ) -> Result<Whole, Failed> {
        Ok(Whole)
    }

    #[inline(always)]
    fn end<S: Source>(_source: &mut S) {}
}

/// Nothing, as of `Whole`, of a value that has a default.
#[derive(Debug, Clone, Copy, PartialEq, Eq)]
pub enum OrDefault {
    /// The value stands there.
    Given,
    /// Its member is left out.
    LeftOut,
}

impl<N: Drop> Parts<N> for OrDefault {
    #[inline(always)]
    fn left_out() -> Option<OrDefault> {
        Some(OrDefault::LeftOut)
    }

    #[inline(always)]
    fn begin<S: Source, M: Make<N>>(
        _names: &[Name<'_>],
        _source: &mut S,
        _make: &M,
    ) -> Result<OrDefault, Failed> {
        Ok(OrDefault::Given)
    }

    #[inline(always)]
    fn end<S: Source>(_source: &mut S) {}
}

/// The place of a word among the names of variants that hold nothing, or past them.
#[derive(Debug, Clone, Copy, PartialEq, Eq)]
pub struct Word(pub usize);

impl<N: Drop> Parts<N> for Word {
    #[inline(always)]
    fn begin<S: Source, M: Make<N>>(
        names: &[Name<'_>],
        source: &mut S,
        _make: &M,
    ) -> Result<Word, Failed> {
        Ok(Word(source.word(names)?))
    }

    #[inline(always)]
    fn end<S: Source>(_source: &mut S) {}
}

/// The place of a variant among their names, or past them: that of the one member of an object.
#[derive(Debug, Clone, Copy, PartialEq, Eq)]
pub struct Variant(pub usize);

impl Variant {
    /// The place among the variants that come after the first `count`.
    #[inline(always)]
    pub fn past(self, count: usize) -> Variant {
        Variant(self.0.wrapping_sub(count))
    }
}

impl<N: Drop> Parts<N> for Variant {
    #[inline(always)]
    fn begin<S: Source, M: Make<N>>(
        names: &[Name<'_>],
        source: &mut S,
        _make: &M,
    ) -> Result<Variant, Failed> {
        source.begin_object()?;
        match source.next_member(names)? {
            Some(place) => Ok(Variant(place)),
            None => Err(source.fail(Fault::Invalid)),
        }
    }

    #[inline(always)]
    fn end<S: Source>(source: &mut S) {
        source.end_object();
    }
}

/// What the readers of an area read.
#[inline(always)]
pub fn read<N: Drop, T: ReadFrom<N>, S: Source, M: Make<N>>(
    source: &mut S,
    make: &M,
) -> Result<T, Failed> {
    T::read_from(source, make)
}

/// The members of an object that stands in place in another. (The prover follows one level of
/// nesting here, not two.)
#[inline(always)]
pub fn members<N: Drop, V: Parts<N>, S: Source, M: Make<N>>(
    names: &[Name<'_>],
    source: &mut S,
    make: &M,
) -> Result<V, Failed> {
    V::begin(names, source, make)
}

/// The part that holds a node, once it is read.
#[inline(always)]
pub fn held<T, P: Holds<T>, S: Source>(source: &mut S, node: T) -> Result<P, Failed> {
    match P::hold(source.alloc(), node) {
        Ok(part) => Ok(part),
        Err(_) => Err(source.fail(Fault::NoMemory)),
    }
}
